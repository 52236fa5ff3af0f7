//! Templates and tables as texts, one key a line.
use std::alloc::{AllocError, Global};

/// A template of small numbers.
pub const SMALL: [&str; 9] = [
    "m = 7",
    "p = 2",
    "factor = [1, 1, 0, 1]",
    "dual = [[1, 0, 0], [0, 0, 1], [0, 1, 0]]",
    "generators = [[6, 2]]",
    "weight = 2",
    "digits = [1]",
    "chain = [113]",
    "special = [337]",
];

/// The lines with those at the places of the edits replaced, each with a line feed.
pub fn edited(
    alloc: Global,
    lines: &[&str],
    edits: &[(usize, &str)],
) -> Result<String, AllocError> {
    let mut text = String::new(alloc);
    for (i, line) in lines.iter().enumerate() {
        let mut shown = *line;
        for (place, other) in edits.iter() {
            if *place == i {
                shown = *other;
            }
        }
        text.push_str(shown)?;
        text.push_str("\n")?;
    }
    Ok(text)
}
