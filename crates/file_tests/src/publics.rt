//! Files of public keys.
use crate::damage::Change::{Add, Byte, Cut, Number};
use crate::damage::{Change, assert_read, assert_refused};
use crate::files::{public_file, public_in, tables};
use he_files::{law_public, read_header, write_public};
use line_text::FileKind;
use std::test::Fail;

#[test]
fn a_public_key_is_read_and_written(rt: HostRuntime) -> Result<(), Fail> {
    law_public();
    let tables = tables(rt.alloc())?;
    let file = public_file(rt.alloc())?;
    assert_eq!(rt; file.len(), 298);
    let (header, _) = read_header(rt.alloc(), FileKind::Public, file.as_slice())?;
    let public = public_in(rt.alloc(), &tables, file.as_slice())?;
    let written = write_public(rt.alloc(), &header, &public)?;
    assert_eq!(rt; written.as_slice(), file.as_slice());
    Ok(())
}

/// The residues of the first modulus of b, and of the last of a.
#[test]
fn residues_of_a_public_key(rt: HostRuntime) -> Result<(), Fail> {
    let tables = tables(rt.alloc())?;
    let file = public_file(rt.alloc())?;
    let public = public_in(rt.alloc(), &tables, file.as_slice())?;
    let b = public.b.to_residues(rt.alloc())?;
    let a = public.a.to_residues(rt.alloc())?;
    assert_eq!(rt; (b.len(), a.len()), (3, 3));
    assert_eq!(rt;
        b[0].as_slice(),
        [
            312568454, 340700084, 142229813, 428977847, 72178696, 351167041
        ]
        .as_slice()
    );
    assert_eq!(rt;
        a[2].as_slice(),
        [
            554924015, 154328893, 521302337, 572546750, 98938343, 948306338
        ]
        .as_slice()
    );
    Ok(())
}

static HEADERS_OF_PUBLIC_KEYS: [(Change, u64); 10] = [
    (Byte(3, b'X'), 0),
    (Byte(4, 1), 4),
    (Byte(4, 4), 4),
    (Byte(5, 3), 5),
    (Byte(6, 0), 6),
    (Byte(7, b'/'), 7),
    (Byte(8, 65), 8),
    (Byte(9, 0), 9),
    (Cut(9), 9),
    (Add(0), 298),
];

#[test]
fn headers_of_public_keys(rt: HostRuntime) -> Result<(), Fail> {
    let file = public_file(rt.alloc())?;
    assert_refused(
        &rt,
        FileKind::Public,
        file.as_slice(),
        &HEADERS_OF_PUBLIC_KEYS,
    )
}

static RESIDUES_THAT_ARE_ALLOWED: [Change; 6] = [
    Number(10, 0),
    Number(10, 469762048),
    Number(58, 7340032),
    Number(106, 998244352),
    Number(154, 469762048),
    Number(290, 998244352),
];

#[test]
fn residues_that_are_allowed(rt: HostRuntime) -> Result<(), Fail> {
    let file = public_file(rt.alloc())?;
    assert_read(
        &rt,
        FileKind::Public,
        file.as_slice(),
        &RESIDUES_THAT_ARE_ALLOWED,
    )
}

static RESIDUES_OF_THE_MODULUS: [(Change, u64); 11] = [
    (Number(10, 469762049), 10),
    (Number(50, 469762049), 50),
    (Number(58, 7340033), 58),
    (Number(98, 7340034), 98),
    (Number(106, 998244353), 106),
    (Number(146, u64::MAX), 146),
    (Number(154, 469762049), 154),
    (Number(202, 7340033), 202),
    (Number(290, 998244353), 290),
    (Byte(17, 1), 10),
    (Byte(297, 128), 290),
];

#[test]
fn residues_of_the_modulus(rt: HostRuntime) -> Result<(), Fail> {
    let file = public_file(rt.alloc())?;
    assert_refused(
        &rt,
        FileKind::Public,
        file.as_slice(),
        &RESIDUES_OF_THE_MODULUS,
    )
}

#[test]
fn public_keys_that_are_cut(rt: HostRuntime) -> Result<(), Fail> {
    let file = public_file(rt.alloc())?;
    for i in 0..36 {
        let place = 10 + 8 * i;
        assert_refused(
            &rt,
            FileKind::Public,
            file.as_slice(),
            &[
                (Cut(place), place as u64),
                (Cut(place + 1), place as u64),
                (Cut(place + 7), place as u64),
            ],
        )?;
    }
    Ok(())
}
