//! What is said of a text that is read as a table, or filled as a template.
use cli_machine::{Cause, Status, report};
use std::alloc::{AllocError, Global};
use std::process::Abort;
use std::test::Fail;
use table_file::{TableFault, read_table, summary};
use table_maker::{MakeFault, make};

/// A table of three moduli, one key a line.
pub const TABLE: [&str; 10] = [
    "m = 7",
    "p = 2",
    "factor = [1, 1, 0, 1]",
    "dual = [[1, 0, 0], [0, 0, 1], [0, 1, 0]]",
    "generators = [[6, 2]]",
    "weight = 2",
    "digits = [2]",
    "chain = [[113, 7, 40, 1], [337, 285, 191, 1]]",
    "special = [[449, 431, 349, 1]]",
    "inverse = [[], [170], [151, 4]]",
];

/// A template of two moduli, one key a line.
pub const TEMPLATE: [&str; 9] = [
    "m = 7",
    "p = 2",
    "factor = [1, 1, 0, 1]",
    "dual = [[1, 0, 0], [0, 0, 1], [0, 1, 0]]",
    "generators = [[6, 2]]",
    "weight = 2",
    "digits = [1]",
    "chain = [113]",
    "special = [337]",
];

/// Some lines of a text with others in their place, and what is said then.
pub type Row<'a> = (&'a [(usize, &'a str)], &'a str);

/// The lines with those at the places of the edits replaced, each with a line feed.
pub fn edited(
    alloc: Global,
    lines: &[&str],
    edits: &[(usize, &str)],
) -> Result<String, AllocError> {
    let mut text = String::new(alloc);
    for (i, line) in lines.iter().enumerate() {
        let mut shown = *line;
        for (place, other) in edits.iter() {
            if *place == i {
                shown = *other;
            }
        }
        text.push_str(shown)?;
        text.push_str("\n")?;
    }
    Ok(text)
}

/// The report of a stop by a cause.
fn reported(alloc: Global, cause: Cause) -> Result<Vec<u8>, AllocError> {
    report(alloc, &Status::Stopped { line: 0, cause })
}

/// The summary of a table, or the report of its fault.
pub fn told(alloc: Global, text: &[u8]) -> Result<Vec<u8>, AllocError> {
    match read_table(alloc, text) {
        Ok(table) => summary(alloc, &table),
        Err(TableFault::Memory) => Err(AllocError),
        Err(fault) => reported(alloc, Cause::BadTable { fault }),
    }
}

/// What is said of the table that a template is filled to, or the report of the template's fault.
pub fn told_filled(alloc: Global, text: &[u8]) -> Result<Vec<u8>, AllocError> {
    match make(alloc, text) {
        Ok(table) => told(alloc, table.as_slice()),
        Err(MakeFault::BadTemplate(key)) => reported(alloc, Cause::BadTemplate { key }),
        Err(MakeFault::NoRoot(i)) => reported(alloc, Cause::NoRoot { i }),
        Err(MakeFault::Memory) => Err(AllocError),
    }
}

/// Asserts that each edited table stops with its fault.
pub fn assert_faults<R: Abort + AllocGlobal>(rt: &R, rows: &[Row<'_>]) -> Result<(), Fail> {
    for (edits, fault) in rows.iter() {
        let text = edited(rt.alloc(), &TABLE, edits)?;
        let told = told(rt.alloc(), text.as_bytes())?;
        let wanted = format!(in rt.alloc(); "stopped 0 BadTable {fault}\n")?;
        assert_eq!(rt; told.as_slice(), wanted.as_bytes(), "of {text}");
    }
    Ok(())
}

/// Asserts that each edited template stops with its cause, as it is filled or as its table is read.
pub fn assert_refused<R: Abort + AllocGlobal>(rt: &R, rows: &[Row<'_>]) -> Result<(), Fail> {
    for (edits, cause) in rows.iter() {
        let text = edited(rt.alloc(), &TEMPLATE, edits)?;
        let told = told_filled(rt.alloc(), text.as_bytes())?;
        let wanted = format!(in rt.alloc(); "stopped 0 {cause}\n")?;
        assert_eq!(rt; told.as_slice(), wanted.as_bytes(), "of {text}");
    }
    Ok(())
}
