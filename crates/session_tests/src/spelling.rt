//! The spelling of the files of a shelf, and of the lines of a case.
use line_text::{FileKind, FileName, Name};
use std::alloc::Global;
use std::test::Fail;

/// The bytes that a text stands for: `;` is a newline, and `~` is byte 13.
pub fn text_of(alloc: Global, spelling: &str) -> Result<Vec<u8>, Fail> {
    let mut text = Vec::new(alloc);
    for byte in spelling.bytes() {
        text.push(match byte {
            b';' => b'\n',
            b'~' => b'\r',
            other => other,
        })?;
    }
    Ok(text)
}

/// The value of a hexadecimal digit.
fn digit_value(digit: u8) -> Option<u8> {
    match digit {
        b'0'..=b'9' => Some(digit - b'0'),
        b'a'..=b'f' => Some(digit - b'a' + 10),
        _ => None,
    }
}

/// The bytes of hexadecimal digits, two each.
fn bytes_of(alloc: Global, digits: &str) -> Result<Vec<u8>, Fail> {
    let mut bytes = Vec::new(alloc);
    let mut high = None;
    for digit in digits.bytes() {
        let value = digit_value(digit).ok_or("no digit")?;
        high = match high {
            None => Some(value << 4),
            Some(first) => {
                bytes.push(first | value)?;
                None
            }
        };
    }
    Ok(bytes)
}

/// The kind of the files with this extension.
fn kind_of(extension: &str) -> Option<FileKind> {
    match extension {
        "table" => Some(FileKind::Table),
        "tmpl" => Some(FileKind::Template),
        "prog" => Some(FileKind::Prog),
        "slots" => Some(FileKind::Slots),
        "seed" => Some(FileKind::Seed),
        "sk" => Some(FileKind::Secret),
        "pk" => Some(FileKind::Public),
        "ct" => Some(FileKind::Cipher),
        _ => None,
    }
}

/// The file name of a name and an extension with a dot between.
pub fn file_name(alloc: Global, text: &str) -> Result<FileName, Fail> {
    let (name, extension) = text.split_once('.').ok_or("no dot")?;
    let kind = kind_of(extension).ok_or("no kind")?;
    let name = Name::read(alloc, name.as_bytes())?.ok_or("no name")?;
    Ok(FileName { name, kind })
}

/// The content of a file: a text, or hexadecimal digits behind a `$`.
fn content_of(alloc: Global, spelling: &str) -> Result<Vec<u8>, Fail> {
    match spelling.strip_prefix("$") {
        Some(digits) => bytes_of(alloc, digits),
        None => text_of(alloc, spelling),
    }
}

/// The files of a list, one a line: a name, a colon, and the content.
pub fn files_of(alloc: Global, list: &str) -> Result<Vec<(FileName, Vec<u8>)>, Fail> {
    let mut files = Vec::new(alloc);
    for row in list.lines() {
        let (name, content) = row.split_once(':').ok_or("no colon")?;
        files.push((file_name(alloc, name)?, content_of(alloc, content)?))?;
    }
    Ok(files)
}

/// The words of a line.
pub fn words_of(alloc: Global, line: &str) -> Result<Vec<String>, Fail> {
    let mut words = Vec::new(alloc);
    for word in line.split_whitespace() {
        words.push(String::from_str(alloc, word)?)?;
    }
    Ok(words)
}
