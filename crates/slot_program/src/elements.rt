//! Elements and lists of elements in the text of a program.
ghost use Rattle.std.specs.Prelude.{◌≡◌, ◌==◌, ◌<◌, [], ◌∷◌, ◌++◌, length, map, option_map, replicate, nat_lt, IfOk, OnOk, IfSome, IfNone};
ghost use Rattle.std.specs.List.{list_all, position_or_len};
ghost use Rattle.line_text.specs.Pieces.{pieces};
ghost use Rattle.ext_field.specs.Element.{is_element};
ghost use Rattle.slot_program.specs.Elements.{element_of, elements_of, item_in, item_of, list_of, numbers_of, repeats_of};

use ext_field::{Ext, ExtElem};
use line_text::number;
use slot_array::SlotArray;
use std::alloc::{AllocError, Global};

/// The array of the elements that the items stand for, if they are items and stand for just `count` elements.
#[tactic(auto, unfolding(crate::specs::Elements::list_of))]
pub(crate) fn list_of(
    alloc: Global,
    ext: &Ext,
    count: u32,
    words: &[Vec<u8>],
) -> Result<Option<SlotArray>, AllocError>
    ensures { IfOk result (λ found. found ≡ list_of ext.now count (map (λ word. word.items) words.now)) }
{
    let count = count as usize;
    let mut elems = Vec::new(alloc);
    for word in words {
        let Some((repeats, element)) = item_of(alloc, ext, word.as_slice())? else {
            return Ok(None);
        };
        if repeats as usize > count - elems.len() {
            return Ok(None);
        }
        put_copies(alloc, &mut elems, repeats, &element)?;
    }
    if elems.len() == count {
        Ok(Some(SlotArray { elems }))
    } else {
        Ok(None)
    }
}

/// Appends copies of an element.
fn put_copies(
    alloc: Global,
    elems: &mut Vec<ExtElem>,
    repeats: u32,
    element: &ExtElem,
) -> Result<(), AllocError>
    ensures { OnOk result (elems.new.items ≡ elems.old.items ++ replicate repeats element.now) }
{
    for _ in 0..repeats {
        elems.push(element.copy(alloc)?)?;
    }
    Ok(())
}

/// How often an item stands for which element, if the word is an item.
#[tactic(auto, unfolding(crate::specs::Elements::item_of))]
fn item_of(alloc: Global, ext: &Ext, word: &[u8]) -> Result<Option<(u32, ExtElem)>, AllocError>
    ensures { IfOk result (λ found. found ≡ item_of ext.now word.now) }
{
    let parts = pieces(alloc, word, b'*')?;
    match parts.as_slice() {
        [spelled] => {
            let Some(element) = element_of(alloc, ext, spelled)? else {
                return Ok(None);
            };
            Ok(Some((1, element)))
        }
        [count, spelled] => {
            let Some(repeats) = repeats_of(count) else {
                return Ok(None);
            };
            let Some(element) = element_of(alloc, ext, spelled)? else {
                return Ok(None);
            };
            Ok(Some((repeats, element)))
        }
        _ => Ok(None),
    }
}

/// A number from 1 to 2^32 - 1, if the word writes one.
#[tactic(auto, unfolding(crate::specs::Elements::repeats_of))]
fn repeats_of(word: &[u8]) -> Option<u32>
    ensures { result ≡ repeats_of word.now }
{
    let n = number(word)?;
    if 0 < n && n < 0x1_0000_0000 {
        Some(n as u32)
    } else {
        None
    }
}

/// The element that a word spells, if it spells one.
#[tactic(auto, unfolding(crate::specs::Elements::element_of))]
fn element_of(alloc: Global, ext: &Ext, word: &[u8]) -> Result<Option<ExtElem>, AllocError>
    ensures { IfOk result (λ found. found ≡ element_of ext.now word.now) }
{
    let parts = pieces(alloc, word, b',')?;
    let Some(numbers) = numbers_of(alloc, parts.as_slice())? else {
        return Ok(None);
    };
    if !are_coefficients(ext, numbers.as_slice()) {
        return Ok(None);
    }
    let element = ext.element(alloc, numbers.as_slice())?;
    Ok(Some(element))
}

/// Whether the numbers are the coefficients of an element.
fn are_coefficients(ext: &Ext, numbers: &[u64]) -> bool
    ensures { result ≡ is_element ext.now numbers.now }
{
    numbers.len() == ext.degree() as usize && are_below(ext.p(), numbers)
}

/// Whether each number is below a bound.
fn are_below(bound: u64, numbers: &[u64]) -> bool
    ensures { result ≡ list_all (λ number. nat_lt number bound) numbers.now }
{
    numbers.iter().all(|number| *number < bound)
}

/// The numbers that the words write, if each writes one.
fn numbers_of(alloc: Global, words: &[&[u8]]) -> Result<Option<Vec<u64>>, AllocError>
    ensures { IfOk result (λ found. option_map (λ numbers. numbers.items) found ≡ numbers_of (map (λ word. word.now) words.now)) }
{
    let mut numbers = Vec::new(alloc);
    for word in words {
        let Some(number) = number(word) else {
            return Ok(None);
        };
        numbers.push(number)?;
    }
    Ok(Some(numbers))
}

/// The pieces of a text between separators, one more than there are separators.
fn pieces<'a>(alloc: Global, text: &'a [u8], separator: u8) -> Result<Vec<&'a [u8]>, AllocError>
    ensures { IfOk result (λ list. map (λ piece. piece.now) list.items ≡ pieces separator text.now) }
{
    let mut list = Vec::new(alloc);
    let mut rest = text;
    'pieces: loop {
        let (piece, after) = cut(rest, separator);
        list.push(piece)?;
        let Some(after) = after else {
            return Ok(list);
        };
        rest = after;
    }
}

/// The first piece of a text, and the text after its separator where there is one.
fn cut(text: &[u8], separator: u8) -> (&[u8], Option<&[u8]>)
    ensures more { IfSome result.1 (λ after. pieces separator text.now ≡ result.0.now ∷ pieces separator after.now) }
    ensures last { IfNone result.1 (pieces separator text.now ≡ result.0.now ∷ []) }
    ensures shorter { IfSome result.1 (λ after. length after.now < length text.now) }
{
    let end = piece_len(text, separator);
    if end < text.len() {
        (&text[..end], Some(&text[end + 1..]))
    } else {
        (text, None)
    }
}

/// How many bytes stand before the first separator, or all of them.
fn piece_len(text: &[u8], separator: u8) -> usize
    ensures { result ≡ position_or_len (λ byte. byte == separator) text.now }
{
    text.iter()
        .position(|byte| *byte == separator)
        .unwrap_or(text.len())
}
