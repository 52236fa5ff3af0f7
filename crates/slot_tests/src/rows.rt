//! Rows of cases: one a line, with colons between their fields.
use std::alloc::Global;
use std::test::Fail;

/// What follows in the row that begins with this name.
pub fn named<'a>(rows: &'a str, name: &str) -> Result<&'a str, Fail> {
    for row in rows.lines() {
        let (first, rest) = row.split_once(':').ok_or("no colon")?;
        if first == name {
            return Ok(rest);
        }
    }
    Err(Fail::from("no row of this name"))
}

/// The fields of a row.
pub fn fields_of<'a>(alloc: Global, row: &'a str) -> Result<Vec<&'a str>, Fail> {
    let fields = row.split(':').collect(alloc)?;
    Ok(fields)
}

/// The bytes that a text stands for: `;` is a newline, and `~` is byte 13.
pub fn text_of(alloc: Global, spelling: &str) -> Result<Vec<u8>, Fail> {
    let mut text = Vec::new(alloc);
    for byte in spelling.bytes() {
        text.push(match byte {
            b';' => b'\n',
            b'~' => b'\r',
            other => other,
        })?;
    }
    Ok(text)
}

/// The numbers of a text, with spaces between.
pub fn numbers_of(alloc: Global, text: &str) -> Result<Vec<u64>, Fail> {
    let mut numbers = Vec::new(alloc);
    for word in text.split_whitespace() {
        numbers.push(word.parse::<u64>()?)?;
    }
    Ok(numbers)
}

/// The whole numbers of a text, with spaces between.
pub fn integers_of(alloc: Global, text: &str) -> Result<Vec<i64>, Fail> {
    let mut numbers = Vec::new(alloc);
    for word in text.split_whitespace() {
        numbers.push(word.parse::<i64>()?)?;
    }
    Ok(numbers)
}

/// The two numbers of a text, with a space between.
pub fn pair_of(text: &str) -> Result<(u32, u32), Fail> {
    let (first, second) = text.split_once(' ').ok_or("no pair")?;
    Ok((first.parse::<u32>()?, second.parse::<u32>()?))
}

/// The pairs of a text, with commas between.
pub fn pairs_of(alloc: Global, text: &str) -> Result<Vec<(u32, u32)>, Fail> {
    let mut pairs = Vec::new(alloc);
    for pair in text.split(',') {
        pairs.push(pair_of(pair)?)?;
    }
    Ok(pairs)
}
