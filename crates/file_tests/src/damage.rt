//! Files that are damaged, and the places of their faults.
use crate::files::{fault_in, tables};
use he_files::ReadFault;
use line_text::FileKind;
use std::alloc::{AllocError, Global};
use std::process::Abort;
use std::test::Fail;

/// What is done to a file.
#[derive(Clone, Copy, Debug)]
pub enum Change {
    /// The byte at a place is replaced.
    Byte(usize, u8),
    /// The eight bytes from a place on are replaced by those of a number, the low one first.
    Number(usize, u64),
    /// The file ends before a place.
    Cut(usize),
    /// A byte is added at the end.
    Add(u8),
}

/// The bytes from a place on replaced by others.
fn replaced(
    alloc: Global,
    file: &[u8],
    place: usize,
    others: &[u8],
) -> Result<Vec<u8>, AllocError> {
    let mut bytes = Vec::with_capacity(alloc, file.len())?;
    for (i, byte) in file.iter().enumerate() {
        let other = others.get(i.wrapping_sub(place)).unwrap_or(byte);
        bytes.push(*other)?;
    }
    Ok(bytes)
}

/// The file after the change.
pub fn changed(alloc: Global, file: &[u8], change: Change) -> Result<Vec<u8>, AllocError> {
    match change {
        Change::Byte(place, byte) => replaced(alloc, file, place, &[byte]),
        Change::Number(place, number) => replaced(alloc, file, place, &number.to_le_bytes()),
        Change::Cut(len) => {
            let mut bytes = Vec::from_slice(alloc, file)?;
            bytes.truncate(len);
            Ok(bytes)
        }
        Change::Add(byte) => {
            let mut bytes = Vec::from_slice(alloc, file)?;
            bytes.push(byte)?;
            Ok(bytes)
        }
    }
}

/// Asserts that a file of a kind is refused after each change, at its place.
pub fn assert_refused<R: Abort + AllocGlobal>(
    rt: &R,
    kind: FileKind,
    file: &[u8],
    rows: &[(Change, u64)],
) -> Result<(), Fail> {
    let tables = tables(rt.alloc())?;
    for (change, place) in rows {
        let bytes = changed(rt.alloc(), file, *change)?;
        let fault = fault_in(rt.alloc(), &tables, kind, bytes.as_slice());
        assert_eq!(rt; fault, Some(ReadFault::Bad(*place)), "after {change:?}");
    }
    Ok(())
}

/// Asserts that a file of a kind is still read after each change.
pub fn assert_read<R: Abort + AllocGlobal>(
    rt: &R,
    kind: FileKind,
    file: &[u8],
    changes: &[Change],
) -> Result<(), Fail> {
    let tables = tables(rt.alloc())?;
    for change in changes {
        let bytes = changed(rt.alloc(), file, *change)?;
        let fault = fault_in(rt.alloc(), &tables, kind, bytes.as_slice());
        assert_eq!(rt; fault, None, "after {change:?}");
    }
    Ok(())
}
