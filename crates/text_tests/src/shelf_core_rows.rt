//! The shelves and sinks in memory: their calls in order, with none failing and with each one failing.
use line_text::{FileKind, FileName, Name};
use shelf_core::{
    Held, Loaded, MemShelf, MemSink, Put, Saved, Shelf, Sink, SureShelf, SureSink, are_distinct,
};
use std::alloc::{AllocError, Global};
use std::process::Abort;
use std::test::Fail;

/// The file name of this word and kind.
pub(crate) fn file_name(alloc: Global, word: &[u8], kind: FileKind) -> Result<FileName, Fail> {
    let name = Name::read(alloc, word)?.ok_or("no name")?;
    Ok(FileName { name, kind })
}

pub(crate) fn held_word(answer: Held) -> &'static str {
    match answer {
        Held::Yes => "yes ",
        Held::No => "no ",
        Held::Failed => "failed ",
        Held::Memory => "memory ",
    }
}

pub(crate) fn saved_word(answer: Saved) -> &'static str {
    match answer {
        Saved::Done => "done ",
        Saved::Failed => "failed ",
        Saved::Memory => "memory ",
    }
}

pub(crate) fn put_word(answer: Put) -> &'static str {
    match answer {
        Put::Done => "done ",
        Put::Failed => "failed ",
        Put::Memory => "memory ",
    }
}

/// Appends what was found, or why nothing was.
pub(crate) fn put_loaded(answer: Loaded, out: &mut String) -> Result<(), AllocError> {
    match answer {
        Loaded::Found(bytes) => {
            out.push_str(std::str::from_utf8(bytes.as_slice()).unwrap_or("no text"))?;
            out.push(' ')
        }
        Loaded::Absent => out.push_str("absent "),
        Loaded::Failed => out.push_str("failed "),
        Loaded::Memory => out.push_str("memory "),
    }
}

/// Saves the file where `has` answers that its name is not held.
fn put_save<S: Shelf>(
    alloc: Global,
    shelf: &mut S,
    name: &FileName,
    out: &mut String,
) -> Result<(), AllocError> {
    let held = shelf.has(alloc, name);
    out.push_str(held_word(held))?;
    if held == Held::No {
        out.push_str(saved_word(shelf.save(alloc, name, b"12")))?;
    }
    Ok(())
}

/// Seven calls, over a shelf that holds a.prog with the byte `x`, and what each of them answers.
fn answers<S: Shelf>(alloc: Global, shelf: &mut S) -> Result<String, Fail> {
    let first = file_name(alloc, b"a", FileKind::Prog)?;
    let second = file_name(alloc, b"a", FileKind::Seed)?;
    let third = file_name(alloc, b"b", FileKind::Prog)?;
    let mut out = String::new(alloc);
    out.push_str(held_word(shelf.has(alloc, &first)))?;
    put_loaded(shelf.load(alloc, &first), &mut out)?;
    put_save(alloc, shelf, &second, &mut out)?;
    put_loaded(shelf.load(alloc, &second), &mut out)?;
    out.push_str(held_word(shelf.has(alloc, &second)))?;
    put_loaded(shelf.load(alloc, &third), &mut out)?;
    Ok(out)
}

/// A list of the one file a.prog with the byte `x`.
fn one_file(alloc: Global) -> Result<Vec<(FileName, Vec<u8>)>, Fail> {
    let mut files = Vec::new(alloc);
    let name = file_name(alloc, b"a", FileKind::Prog)?;
    files.push((name, Vec::from_slice(alloc, b"x")?))?;
    Ok(files)
}

/// Asserts that the first so many of a.prog and a.seed are held, and nothing else.
fn assert_held(rt: &impl Abort, files: &[(FileName, Vec<u8>)], held: usize) {
    let want: [(FileKind, &[u8]); 2] = [(FileKind::Prog, b"x"), (FileKind::Seed, b"12")];
    assert_eq!(rt; files.len(), held);
    for ((name, bytes), (kind, wanted)) in files.iter().zip(want) {
        assert_eq!(rt; name.name.bytes(), b"a".as_slice());
        assert_eq!(rt; name.kind, kind);
        assert_eq!(rt; bytes.as_slice(), wanted);
    }
}

/// A shelf in memory with one file, whose calls of these numbers fail.
fn memory_shelf(rt: &impl Abort, alloc: Global, failing: &[u64]) -> Result<MemShelf, Fail> {
    let files = one_file(alloc)?;
    assert!(rt; are_distinct(files.as_slice()));
    let failing = Vec::from_slice(alloc, failing)?;
    Ok(MemShelf::new(files, failing))
}

#[test]
fn memory_shelf_fails_the_calls_of_its_list(rt: HostRuntime) -> Result<(), Fail> {
    let rows: [(&[u64], &str, usize); 11] = [
        (&[], "yes x no done 12 yes absent ", 2),
        (&[0], "failed x no done 12 yes absent ", 2),
        (&[1], "yes failed no done 12 yes absent ", 2),
        (&[2], "yes x failed absent no absent ", 1),
        (&[3], "yes x no failed absent no absent ", 1),
        (&[4], "yes x no done failed yes absent ", 2),
        (&[5], "yes x no done 12 failed absent ", 2),
        (&[6], "yes x no done 12 yes failed ", 2),
        (&[7, 8, u64::MAX], "yes x no done 12 yes absent ", 2),
        (&[6, 0, 3, 3], "failed x no failed absent no failed ", 1),
        (
            &[0, 1, 2, 3, 4, 5],
            "failed failed failed failed failed failed ",
            1,
        ),
    ];
    for (failing, want, held) in rows {
        let mut shelf = memory_shelf(&rt, rt.alloc(), failing)?;
        let got = answers(rt.alloc(), &mut shelf)?;
        assert_eq!(rt; got.as_str(), want, "with {failing:?} failing");
        assert_held(&rt, shelf.files(), held);
    }
    Ok(())
}

#[test]
fn sure_shelf_answers_as_one_without_failing_calls(rt: HostRuntime) -> Result<(), Fail> {
    let files = one_file(rt.alloc())?;
    assert!(rt; are_distinct(files.as_slice()));
    let mut shelf = SureShelf::new(files);
    let got = answers(rt.alloc(), &mut shelf)?;
    assert_eq!(rt; got.as_str(), "yes x no done 12 yes absent ");
    assert_held(&rt, shelf.files(), 2);
    Ok(())
}

/// Files without bytes, of these names.
fn files_of_names(
    alloc: Global,
    names: &[(&[u8], FileKind)],
) -> Result<Vec<(FileName, Vec<u8>)>, Fail> {
    let mut files = Vec::new(alloc);
    for (word, kind) in names {
        files.push((file_name(alloc, word, *kind)?, Vec::new(alloc)))?;
    }
    Ok(files)
}

#[test]
fn files_are_distinct_by_name_and_kind(rt: HostRuntime) -> Result<(), Fail> {
    let rows: [(&[(&[u8], FileKind)], bool); 6] = [
        (&[], true),
        (&[(b"a", FileKind::Prog)], true),
        (&[(b"a", FileKind::Prog), (b"a", FileKind::Seed)], true),
        (&[(b"a", FileKind::Prog), (b"b", FileKind::Prog)], true),
        (&[(b"a", FileKind::Prog), (b"a", FileKind::Prog)], false),
        (
            &[
                (b"a", FileKind::Prog),
                (b"b", FileKind::Table),
                (b"c", FileKind::Table),
                (b"b", FileKind::Table),
            ],
            false,
        ),
    ];
    for (names, want) in rows {
        let files = files_of_names(rt.alloc(), names)?;
        assert_eq!(rt; are_distinct(files.as_slice()), want, "of {names:?}");
    }
    Ok(())
}

/// Three puts, and what each of them answers.
fn puts<O: Sink>(alloc: Global, sink: &mut O) -> Result<String, AllocError> {
    let mut out = String::new(alloc);
    let pieces: [&[u8]; 3] = [b"ab", b"", b"cd"];
    for piece in pieces {
        out.push_str(put_word(sink.put(alloc, piece)))?;
    }
    Ok(out)
}

#[test]
fn memory_sink_fails_the_calls_of_its_list(rt: HostRuntime) -> Result<(), Fail> {
    let rows: [(&[u64], &str, &[u8]); 6] = [
        (&[], "done done done ", b"abcd"),
        (&[0], "failed done done ", b"cd"),
        (&[1], "done failed done ", b"abcd"),
        (&[2], "done done failed ", b"ab"),
        (&[3, u64::MAX], "done done done ", b"abcd"),
        (&[2, 1, 0], "failed failed failed ", b""),
    ];
    for (failing, want, bytes) in rows {
        let mut sink = MemSink::new(rt.alloc(), Vec::from_slice(rt.alloc(), failing)?);
        assert!(rt; sink.bytes().is_empty());
        let got = puts(rt.alloc(), &mut sink)?;
        assert_eq!(rt; got.as_str(), want, "with {failing:?} failing");
        assert_eq!(rt; sink.bytes(), bytes, "with {failing:?} failing");
    }
    Ok(())
}

#[test]
fn sure_sink_holds_every_piece(rt: HostRuntime) -> Result<(), Fail> {
    let mut sink = SureSink::new(rt.alloc());
    assert!(rt; sink.bytes().is_empty());
    let got = puts(rt.alloc(), &mut sink)?;
    assert_eq!(rt; got.as_str(), "done done done ");
    assert_eq!(rt; sink.bytes(), b"abcd".as_slice());
    Ok(())
}
