//! The folder that the test runs in, and the standard output.
use crate::shelf_core_rows::{file_name, held_word, put_loaded, saved_word};
use line_text::FileKind;
use shelf_core::{FolderShelf, OutSink, Put, Shelf, Sink};
use std::fs::{self, File};
use std::test::Fail;

const HELD: &str = "text_tests_held_7314.seed";

const FOLDER: &str = "text_tests_folder_7314.seed";

const LONG: &str = "text_tests_long_7314.seed";

/// Removes what an earlier run may have left, and what this one has made.
fn clear(rt: &HostRuntime) {
    let _ = fs::remove_file(rt, HELD);
    let _ = fs::remove_file(rt, LONG);
    let _ = fs::remove_dir(rt, FOLDER);
}

/// What `has`, `load`, `save`, `has` and `load` answer for the name.
fn answers(rt: &HostRuntime, word: &[u8]) -> Result<String, Fail> {
    let alloc = rt.alloc();
    let name = file_name(alloc, word, FileKind::Seed)?;
    let mut shelf = FolderShelf::new(rt);
    let mut out = String::new(alloc);
    out.push_str(held_word(shelf.has(alloc, &name)))?;
    put_loaded(shelf.load(alloc, &name), &mut out)?;
    out.push_str(saved_word(shelf.save(alloc, &name, b"abc")))?;
    out.push_str(held_word(shelf.has(alloc, &name)))?;
    put_loaded(shelf.load(alloc, &name), &mut out)?;
    Ok(out)
}

#[test]
fn folder_holds_what_is_saved(rt: HostRuntime) -> Result<(), Fail> {
    clear(&rt);
    fs::create_dir(&rt, FOLDER)?;
    // One byte more than a file may have, none of which takes room on the disk.
    File::create(&rt, LONG)?.set_len((1 << 30) + 1)?;
    // A name that is held is never written again.
    let rows: [(&[u8], &str); 4] = [
        (b"text_tests_held_7314", "no absent done yes abc "),
        (b"text_tests_held_7314", "yes abc failed yes abc "),
        (
            b"text_tests_folder_7314",
            "failed failed failed failed failed ",
        ),
        (b"text_tests_long_7314", "yes failed failed yes failed "),
    ];
    for (word, want) in rows {
        assert_eq!(rt; answers(&rt, word)?.as_str(), want, "{word:?}");
    }
    assert_eq!(rt; fs::read_to_string(&rt, HELD)?.as_str(), "abc");
    clear(&rt);
    Ok(())
}

#[test]
fn standard_output_takes_pieces(rt: HostRuntime) -> Result<(), Fail> {
    let mut sink = OutSink::new(&rt);
    assert_eq!(rt; sink.put(rt.alloc(), b""), Put::Done);
    assert_eq!(rt; sink.put(rt.alloc(), b"a piece\n"), Put::Done);
    Ok(())
}
