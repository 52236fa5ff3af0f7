//! The lines of a text and the words of a line: both are pieces between separator bytes.
ghost use Rattle.std.specs.Prelude.{◌≡◌, ◌==◌, IfOk, map};
ghost use Rattle.std.specs.List.{position_or_len, before_first, after_first};
ghost use Rattle.line_text.specs.Pieces.{ArePiecesAlone};
ghost use Rattle.line_text.specs.Lines.{without_return, lines_of, ReadsPrintedLines};
ghost use Rattle.line_text.specs.Words.{words_of, ReadsPrintedWords};

use std::alloc::{AllocError, Global};

/// The lines of a text. A line is a piece of the text between newline bytes, without one byte 13 at
/// its end. An empty piece after the last newline is no line, so the empty text has none, while a
/// last piece that is only byte 13 is an empty line.
///
/// The lines of `"a\r\n\nb"` are `"a"`, `""` and `"b"`.
pub fn lines(alloc: Global, bytes: &[u8]) -> Result<Vec<Vec<u8>>, AllocError>
    ensures { IfOk result (λ lines. map (λ line. line.items) lines.items ≡ lines_of bytes.now) }
{
    let mut lines = Vec::new(alloc);
    let mut rest = bytes;
    while !rest.is_empty() {
        let (piece, after) = cut(rest, b'\n');
        lines.push(Vec::from_slice(alloc, without_return(piece))?)?;
        rest = after;
    }
    Ok(lines)
}

/// The words of a line: what stands between spaces and is not empty. A tab, or any other byte but
/// the space, is a part of its word.
///
/// The words of `" add  x y"` are `"add"`, `"x"` and `"y"`.
pub fn words(alloc: Global, line: &[u8]) -> Result<Vec<Vec<u8>>, AllocError>
    ensures { IfOk result (λ words. map (λ word. word.items) words.items ≡ words_of line.now) }
{
    let mut words = Vec::new(alloc);
    let mut rest = line;
    while !rest.is_empty() {
        let (piece, after) = cut(rest, b' ');
        if !piece.is_empty() {
            words.push(Vec::from_slice(alloc, piece)?)?;
        }
        rest = after;
    }
    Ok(words)
}

/// What stands before the first separator and what stands after it, or the whole text and nothing.
pub(crate) fn cut(text: &[u8], separator: u8) -> (&[u8], &[u8])
    ensures before { result.0.now ≡ before_first (λ byte. byte == separator) text.now }
    ensures after { result.1.now ≡ after_first (λ byte. byte == separator) text.now }
{
    let end = piece_len(text, separator);
    if end < text.len() {
        (&text[..end], &text[end + 1..])
    } else {
        (text, &[])
    }
}

/// How many bytes stand before the first separator, or all of them.
fn piece_len(text: &[u8], separator: u8) -> usize
    ensures { result ≡ position_or_len (λ byte. byte == separator) text.now }
{
    text.iter()
        .position(|byte| *byte == separator)
        .unwrap_or(text.len())
}

/// A line without one byte 13 at its end.
#[tactic(auto, unfolding(crate::specs::Lines::without_return))]
pub(crate) fn without_return(line: &[u8]) -> &[u8]
    ensures { result.now ≡ without_return line.now }
{
    line.strip_suffix(b"\r").unwrap_or(line)
}

/// The law that no piece between separators holds the separator, that the pieces joined by it are
/// the text again, and that this is so of no other list of at least one piece.
pub fn law_pieces()
    ensures { ArePiecesAlone }
{}

/// The law that lines which hold no newline and no byte 13 at their end, printed with a newline
/// after each, are read as the same lines.
pub fn law_lines()
    ensures { ReadsPrintedLines }
{}

/// The law that words which are not empty and hold no space, printed with one space between, are
/// read as the same words.
pub fn law_words()
    ensures { ReadsPrintedWords }
{}
