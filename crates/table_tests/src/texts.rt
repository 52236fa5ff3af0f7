//! Texts of documents out of lines, some of them replaced.
use std::alloc::{AllocError, Global};

/// The lines with those at the places of the edits replaced, each with a line feed.
pub fn edited(
    alloc: Global,
    lines: &[&str],
    edits: &[(usize, &str)],
) -> Result<String, AllocError> {
    let mut text = String::new(alloc);
    for (i, line) in lines.iter().enumerate() {
        let mut shown = *line;
        for (place, other) in edits.iter() {
            if *place == i {
                shown = *other;
            }
        }
        text.push_str(shown)?;
        text.push_str("\n")?;
    }
    Ok(text)
}
