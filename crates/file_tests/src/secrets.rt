//! Files of secrets.
use crate::damage::Change::{Add, Byte, Cut};
use crate::damage::{Change, assert_read, assert_refused};
use crate::files::{SECRET, secret_in, tables};
use he_files::{law_secret, read_header, write_secret};
use line_text::FileKind;
use std::test::Fail;

#[test]
fn a_secret_is_read_and_written(rt: HostRuntime) -> Result<(), Fail> {
    law_secret();
    let tables = tables(rt.alloc())?;
    let (header, _) = read_header(rt.alloc(), FileKind::Secret, &SECRET)?;
    let secret = secret_in(rt.alloc(), &tables, &SECRET)?;
    assert_eq!(rt; secret.coeffs.as_slice(), [-1, -1, 0, 0, 0, 0].as_slice());
    let written = write_secret(rt.alloc(), &header, &secret)?;
    assert_eq!(rt; written.as_slice(), SECRET.as_slice());
    Ok(())
}

static ENTRIES_THAT_ARE_ALLOWED: [Change; 5] = [
    Byte(10, 1),
    Byte(11, 1),
    Byte(15, 0),
    Cut(16),
    Cut(20),
];

#[test]
fn entries_that_are_allowed(rt: HostRuntime) -> Result<(), Fail> {
    assert_read(&rt, FileKind::Secret, &SECRET, &ENTRIES_THAT_ARE_ALLOWED)
}

static HEADERS_OF_SECRETS: [(Change, u64); 15] = [
    (Byte(0, 104), 0),
    (Byte(3, b'X'), 0),
    (Byte(4, 2), 4),
    (Byte(4, 0), 4),
    (Byte(4, 255), 4),
    (Byte(5, 0), 5),
    (Byte(5, 2), 5),
    (Byte(6, 0), 6),
    (Byte(6, 65), 6),
    (Byte(7, b'A'), 7),
    (Byte(8, 0), 8),
    (Byte(8, 255), 8),
    (Byte(8, 64), 9),
    (Byte(9, b' '), 9),
    (Byte(9, 255), 9),
];

#[test]
fn headers_of_secrets(rt: HostRuntime) -> Result<(), Fail> {
    assert_refused(&rt, FileKind::Secret, &SECRET, &HEADERS_OF_SECRETS)
}

static ENTRIES_THAT_ARE_NOT_ALLOWED: [(Change, u64); 9] = [
    (Byte(10, 2), 10),
    (Byte(11, 254), 11),
    (Byte(15, 128), 15),
    // one too many for the weight
    (Byte(12, 1), 12),
    (Byte(15, 255), 15),
    // too few are left to reach the weight
    (Byte(11, 0), 15),
    (Byte(10, 0), 15),
    (Add(0), 16),
    (Add(1), 16),
];

#[test]
fn entries_that_are_not_allowed(rt: HostRuntime) -> Result<(), Fail> {
    assert_refused(
        &rt,
        FileKind::Secret,
        &SECRET,
        &ENTRIES_THAT_ARE_NOT_ALLOWED,
    )
}

static SECRETS_THAT_ARE_CUT: [(Change, u64); 15] = [
    (Cut(0), 0),
    (Cut(1), 0),
    (Cut(3), 0),
    (Cut(4), 4),
    (Cut(5), 5),
    (Cut(6), 6),
    (Cut(7), 7),
    (Cut(8), 8),
    (Cut(9), 9),
    (Cut(10), 10),
    (Cut(11), 11),
    (Cut(12), 12),
    (Cut(13), 13),
    (Cut(14), 14),
    (Cut(15), 15),
];

#[test]
fn secrets_that_are_cut(rt: HostRuntime) -> Result<(), Fail> {
    assert_refused(&rt, FileKind::Secret, &SECRET, &SECRETS_THAT_ARE_CUT)
}
