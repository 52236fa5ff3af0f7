//! Runs of lines over one shelf and one sink.
use crate::spelling::{file_name, files_of, text_of, words_of};
use cli_machine::{number, report};
use cli_session::session;
use line_text::FileName;
use shelf_core::{Loaded, MemShelf, MemSink, Put, Shelf, Sink, are_distinct};
use std::alloc::Global;
use std::process::Abort;
use std::test::Fail;

/// A case: its lines with `|` between, which run one after the other, and the spelling of all that they print and report. A line
/// `same A B` compares two files.
#[derive(Clone, Copy)]
pub struct Case<'a> {
    pub lines: &'a str,
    pub prints: &'a str,
    pub status: u8,
}

/// The numbers of the calls of the shelf and of the sink that fail.
#[derive(Clone, Copy)]
pub struct Failing<'a> {
    pub shelf: &'a [u64],
    pub sink: &'a [u64],
}

/// No call fails.
pub const SURE: Failing<'static> = Failing {
    shelf: &[],
    sink: &[],
};

/// A shelf of these files, where the calls with these numbers fail.
pub fn shelf_of(
    alloc: Global,
    files: Vec<(FileName, Vec<u8>)>,
    failing: &[u64],
) -> Result<MemShelf, Fail> {
    if !are_distinct(files.as_slice()) {
        return Err(Fail::from("two files of one name"));
    }
    Ok(MemShelf::new(files, Vec::from_slice(alloc, failing)?))
}

/// Runs a line, prints its report, and gives its exit status.
pub fn run_line(
    alloc: Global,
    line: &str,
    shelf: &mut MemShelf,
    sink: &mut MemSink,
) -> Result<u8, Fail> {
    let words = words_of(alloc, line)?;
    let status = session(alloc, &words, shelf, sink);
    let text = report(alloc, &status)?;
    match sink.put(alloc, text.as_slice()) {
        Put::Done => Ok(number(&status)),
        _ => Err(Fail::from("no report")),
    }
}

/// The bytes of a file of the shelf.
fn held(alloc: Global, shelf: &mut MemShelf, name: &str) -> Result<Vec<u8>, Fail> {
    match shelf.load(alloc, &file_name(alloc, name)?) {
        Loaded::Found(bytes) => Ok(bytes),
        _ => Err(Fail::from("no file")),
    }
}

/// Whether two files of the shelf, with a space between their names, have the same bytes.
fn are_same(alloc: Global, shelf: &mut MemShelf, pair: &str) -> Result<bool, Fail> {
    let (one, other) = pair.split_once(' ').ok_or("no pair")?;
    let first = held(alloc, shelf, one)?;
    let second = held(alloc, shelf, other)?;
    Ok(first.as_slice() == second.as_slice())
}

/// Whether a line saves a file where it is done.
fn is_saving(line: &str) -> bool {
    line.starts_with("maketable ")
        || line.starts_with("keygen ")
        || line.starts_with("pubkey ")
        || line.starts_with("encrypt ")
}

/// Whether the first files are still those of the list, and so many more stand behind them.
fn are_kept(
    alloc: Global,
    list: &str,
    saved: usize,
    held: &[(FileName, Vec<u8>)],
) -> Result<bool, Fail> {
    let given = files_of(alloc, list)?;
    let same = given.iter().zip(held).all(|(one, other)| one.0 == other.0
        && one.1.as_slice() == other.1.as_slice());
    Ok(same && held.len() == given.len().saturating_add(saved))
}

/// Runs the lines of a case, one after the other, and gives the last exit status and how many files were to be saved.
fn run_lines<R: Abort + AllocGlobal>(
    rt: &R,
    lines: &str,
    shelf: &mut MemShelf,
    sink: &mut MemSink,
) -> Result<(u8, usize), Fail> {
    let mut ended = 0;
    let mut saved = 0usize;
    for line in lines.split('|') {
        if let Some(pair) = line.strip_prefix("same ") {
            assert!(rt; are_same(rt.alloc(), shelf, pair)?, "{pair} in {lines}");
            continue;
        }
        ended = run_line(rt.alloc(), line, shelf, sink)?;
        if ended == 0 && is_saving(line) {
            saved = saved.saturating_add(1);
        }
    }
    Ok((ended, saved))
}

/// Runs a case over the files of a list, and compares what is printed and reported, the last exit status, and the files.
pub fn check<R: Abort + AllocGlobal>(
    rt: &R,
    list: &str,
    case: Case<'_>,
    failing: Failing<'_>,
) -> Result<(), Fail> {
    let alloc = rt.alloc();
    let Case {
        lines,
        prints,
        status,
    } = case;
    let mut shelf = shelf_of(alloc, files_of(alloc, list)?, failing.shelf)?;
    let mut sink = MemSink::new(alloc, Vec::from_slice(alloc, failing.sink)?);
    let (ended, saved) = run_lines(rt, lines, &mut shelf, &mut sink)?;
    let kept = are_kept(alloc, list, saved, shelf.files())?;
    let printed = Vec::from_slice(alloc, sink.bytes())?;
    let wanted = text_of(alloc, prints)?;
    assert_eq!(rt; printed.as_slice(), wanted.as_slice(), "in {lines}");
    assert_eq!(rt; ended, status, "in {lines}");
    assert!(rt; kept, "in {lines}");
    Ok(())
}

/// Runs the cases of a table, one a line: the lines, what they print, and the exit status, with colons between.
pub fn check_rows<R: Abort + AllocGlobal>(rt: &R, list: &str, rows: &str) -> Result<(), Fail> {
    for row in rows.lines() {
        let (lines, rest) = row.split_once(':').ok_or("no colon")?;
        let (prints, status) = rest.split_once(':').ok_or("no status")?;
        let case = Case {
            lines,
            prints,
            status: status.parse::<u8>()?,
        };
        check(rt, list, case, SURE)?;
    }
    Ok(())
}
