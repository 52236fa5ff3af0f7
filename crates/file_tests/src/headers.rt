//! Headers.
use he_files::{ReadFault, law_header, read_header};
use line_text::FileKind;
use std::process::Abort;
use std::test::Fail;

/// Asserts that the header of a file of this kind has these names, and that the body begins at this offset.
fn assert_names<R: Abort + AllocGlobal>(
    rt: &R,
    kind: FileKind,
    file: &[u8],
    table: &[u8],
    key: &[u8],
    from: usize,
) -> Result<(), Fail> {
    let (header, offset) = read_header(rt.alloc(), kind, file)?;
    assert_eq!(rt; header.table.bytes(), table);
    assert_eq!(rt; header.key.bytes(), key);
    assert_eq!(rt; offset, from);
    Ok(())
}

#[test]
fn names(rt: HostRuntime) -> Result<(), Fail> {
    law_header();
    assert_names(
        &rt,
        FileKind::Secret,
        b"HBGV\x01\x01\x01a\x01k",
        b"a",
        b"k",
        10,
    )?;
    assert_names(
        &rt,
        FileKind::Public,
        b"HBGV\x02\x01\x02ab\x03k_9..",
        b"ab",
        b"k_9",
        13,
    )?;
    assert_names(
        &rt,
        FileKind::Eval,
        b"HBGV\x03\x01\x01z\x01zHBGV",
        b"z",
        b"z",
        10,
    )?;
    assert_names(
        &rt,
        FileKind::Cipher,
        b"HBGV\x04\x01\x03a_b\x02kk\x00",
        b"a_b",
        b"kk",
        13,
    )?;
    Ok(())
}

/// Asserts that the files have no header of this kind, with the offsets of the faults.
fn assert_refused<R: Abort + AllocGlobal>(rt: &R, kind: FileKind, rows: &[(&[u8], u64)]) {
    for (file, place) in rows {
        let fault = read_header(rt.alloc(), kind, file).err();
        assert_eq!(rt; fault, Some(ReadFault::Bad(*place)), "of {file:?}");
    }
}

#[test]
fn kinds_and_formats(rt: HostRuntime) {
    let rows: [(FileKind, u64); 6] = [
        (FileKind::Table, 4),
        (FileKind::Secret, 4),
        (FileKind::Public, 9),
        (FileKind::Eval, 4),
        (FileKind::Cipher, 4),
        (FileKind::Seed, 4),
    ];
    for (kind, place) in rows {
        assert_refused(&rt, kind, &[(b"HBGV\x02\x01\x01a\x02k", place)]);
    }
}

#[test]
fn names_that_are_cut_or_not_allowed(rt: HostRuntime) {
    assert_refused(
        &rt,
        FileKind::Public,
        &[
            (b"", 0),
            (b"HBG", 0),
            (b"HBGX\x02\x01\x02ab\x03key", 0),
            (b"hBGV\x02\x01\x02ab\x03key", 0),
            (b"HBGV\x02\x01\x00\x03key", 6),
            (b"HBGV\x02\x01\x02", 7),
            (b"HBGV\x02\x01\x02a", 7),
            (b"HBGV\x02\x01\x02ab", 9),
            (b"HBGV\x02\x01\x02ab\x03ke", 10),
            (b"HBGV\x02\x01\x02ab\x00key", 9),
        ],
    );
}
