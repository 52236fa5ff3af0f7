//! Files of ciphertexts.
use crate::damage::Change::{Add, Byte, Cut, Number};
use crate::damage::{Change, assert_read, assert_refused, changed};
use crate::files::{cipher_file, cipher_in, tables};
use he_files::{law_cipher, read_header, write_cipher};
use line_text::FileKind;
use std::test::Fail;

#[test]
fn a_ciphertext_is_read_and_written(rt: HostRuntime) -> Result<(), Fail> {
    law_cipher();
    let tables = tables(rt.alloc())?;
    let file = cipher_file(rt.alloc())?;
    assert_eq!(rt; file.len(), 310);
    let (header, _) = read_header(rt.alloc(), FileKind::Cipher, file.as_slice())?;
    let cipher = cipher_in(rt.alloc(), &tables, file.as_slice())?;
    assert_eq!(rt; cipher.level, 2);
    assert_eq!(rt; (cipher.bound.man, cipher.bound.exp), (1086, 0));
    let written = write_cipher(rt.alloc(), &header, &cipher)?;
    assert_eq!(rt; written.as_slice(), file.as_slice());
    Ok(())
}

/// The residues of the first modulus of c0, and of the last of c1.
#[test]
fn residues_of_a_ciphertext(rt: HostRuntime) -> Result<(), Fail> {
    let tables = tables(rt.alloc())?;
    let file = cipher_file(rt.alloc())?;
    let cipher = cipher_in(rt.alloc(), &tables, file.as_slice())?;
    let c0 = cipher.c0.to_residues(rt.alloc())?;
    let c1 = cipher.c1.to_residues(rt.alloc())?;
    assert_eq!(rt; (c0.len(), c1.len()), (3, 3));
    assert_eq!(rt;
        c0[0].as_slice(),
        [
            23142329, 325989436, 330302628, 402418193, 278495858, 170981455
        ]
        .as_slice()
    );
    assert_eq!(rt;
        c1[2].as_slice(),
        [
            709111352, 81390928, 788524906, 171492682, 88870674, 668630223
        ]
        .as_slice()
    );
    Ok(())
}

/// At a lower level fewer numbers follow.
#[test]
fn ciphertexts_of_lower_levels(rt: HostRuntime) -> Result<(), Fail> {
    let tables = tables(rt.alloc())?;
    let file = cipher_file(rt.alloc())?;
    for (level, len, man, exp) in [
        (0, 118, 1, 0),
        (0, 118, 1 << 31, 4095),
        (0, 118, u32::MAX, 1),
    ] {
        let bytes = changed(rt.alloc(), file.as_slice(), Byte(10, level))?;
        let bound = u64::from(man) + (u64::from(exp) << 32);
        let bytes = changed(rt.alloc(), bytes.as_slice(), Number(14, bound))?;
        let bytes = changed(rt.alloc(), bytes.as_slice(), Cut(len))?;
        let (header, _) = read_header(rt.alloc(), FileKind::Cipher, bytes.as_slice())?;
        let cipher = cipher_in(rt.alloc(), &tables, bytes.as_slice())?;
        assert_eq!(rt;
            (cipher.level, cipher.bound.man, cipher.bound.exp),
            (u32::from(level), man, exp)
        );
        let written = write_cipher(rt.alloc(), &header, &cipher)?;
        assert_eq!(rt; written.as_slice(), bytes.as_slice());
    }
    Ok(())
}

static HEADERS_OF_CIPHERTEXTS: [(Change, u64); 10] = [
    (Byte(3, b'X'), 0),
    (Byte(4, 1), 4),
    (Byte(4, 2), 4),
    (Byte(4, 3), 4),
    (Byte(5, 0), 5),
    (Byte(6, 65), 6),
    (Byte(7, b'\n'), 7),
    (Byte(8, 0), 8),
    (Byte(9, b'.'), 9),
    (Cut(8), 8),
];

#[test]
fn headers_of_ciphertexts(rt: HostRuntime) -> Result<(), Fail> {
    let file = cipher_file(rt.alloc())?;
    assert_refused(
        &rt,
        FileKind::Cipher,
        file.as_slice(),
        &HEADERS_OF_CIPHERTEXTS,
    )
}

static LEVELS_AND_BOUNDS: [(Change, u64); 13] = [
    // above the top level
    (Byte(10, 3), 10),
    (Byte(10, 255), 10),
    (Byte(11, 1), 10),
    (Byte(13, 128), 10),
    // numbers of another modulus, and numbers after the last one of a lower level
    (Byte(10, 1), 118),
    (Byte(10, 0), 118),
    // bounds that are not normal
    (Byte(18, 1), 18),
    (Number(14, 1 << 32), 18),
    (Number(14, (1 << 32) + (1 << 31) - 1), 18),
    (Number(14, (4096 << 32) + (1 << 31)), 18),
    (Number(14, (4096 << 32) + 7), 18),
    (Number(14, u64::MAX), 18),
    (Byte(21, 1), 18),
];

#[test]
fn levels_and_bounds(rt: HostRuntime) -> Result<(), Fail> {
    let file = cipher_file(rt.alloc())?;
    assert_refused(&rt, FileKind::Cipher, file.as_slice(), &LEVELS_AND_BOUNDS)
}

static BOUNDS_AND_RESIDUES_THAT_ARE_ALLOWED: [Change; 6] = [
    Number(14, 0),
    Number(14, (1 << 32) - 1),
    Number(14, (1 << 32) + (1 << 31)),
    Number(14, (4095 << 32) + (1 << 31)),
    Number(22, 469762048),
    Number(302, 998244352),
];

#[test]
fn bounds_and_residues_that_are_allowed(rt: HostRuntime) -> Result<(), Fail> {
    let file = cipher_file(rt.alloc())?;
    assert_read(
        &rt,
        FileKind::Cipher,
        file.as_slice(),
        &BOUNDS_AND_RESIDUES_THAT_ARE_ALLOWED,
    )
}

static RESIDUES_OF_THE_MODULUS: [(Change, u64); 10] = [
    (Number(22, 469762049), 22),
    (Number(62, 469762050), 62),
    (Number(70, 7340033), 70),
    (Number(118, 998244353), 118),
    (Number(158, u64::MAX), 158),
    (Number(166, 469762049), 166),
    (Number(214, 7340033), 214),
    (Number(302, 998244353), 302),
    (Byte(309, 64), 302),
    (Add(0), 310),
];

#[test]
fn residues_of_the_modulus(rt: HostRuntime) -> Result<(), Fail> {
    let file = cipher_file(rt.alloc())?;
    assert_refused(
        &rt,
        FileKind::Cipher,
        file.as_slice(),
        &RESIDUES_OF_THE_MODULUS,
    )
}

static CIPHERTEXTS_THAT_ARE_CUT: [(Change, u64); 7] = [
    (Cut(10), 10),
    (Cut(11), 10),
    (Cut(14), 14),
    (Cut(15), 14),
    (Cut(18), 18),
    (Cut(19), 18),
    (Cut(21), 18),
];

#[test]
fn ciphertexts_that_are_cut(rt: HostRuntime) -> Result<(), Fail> {
    let file = cipher_file(rt.alloc())?;
    assert_refused(
        &rt,
        FileKind::Cipher,
        file.as_slice(),
        &CIPHERTEXTS_THAT_ARE_CUT,
    )
}

#[test]
fn parts_that_are_cut(rt: HostRuntime) -> Result<(), Fail> {
    let file = cipher_file(rt.alloc())?;
    for i in 0..36 {
        let place = 22 + 8 * i;
        assert_refused(
            &rt,
            FileKind::Cipher,
            file.as_slice(),
            &[
                (Cut(place), place as u64),
                (Cut(place + 1), place as u64),
                (Cut(place + 7), place as u64),
            ],
        )?;
    }
    Ok(())
}
