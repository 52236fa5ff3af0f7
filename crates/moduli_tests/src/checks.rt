ghost use Rattle.std.specs.Prelude.{◌≡◌, IfOk, length};

use moduli_table::{ModFault, ModRow, Moduli};
use std::alloc::Global;
use std::test::Fail;

/// A row by its modulus, its two roots and its inverse modulo 2.
fn row(q: u64, zeta: u64, psi: u64, plain_inverse: u64) -> ModRow {
    ModRow {
        q,
        zeta,
        psi,
        plain_inverse,
    }
}

/// The moduli of m = 7 and p = 2 with these two rows and this inverse of the first modulus modulo the second.
fn table(alloc: Global, first: ModRow, second: ModRow, entry: u64) -> Result<Moduli, ModFault>
    ensures { IfOk result (λ moduli. (length moduli.chain ≡ 1) × (length moduli.special ≡ 1)) }
{
    let none = Vec::new(alloc);
    let one = Vec::from_slice(alloc, &[entry])?;
    Moduli::new(alloc, 7, 2, &[first], &[second], &[none, one])
}

/// What the checks say of these rows: `ok`, or the fault.
fn verdict(alloc: Global, first: ModRow, second: ModRow, entry: u64) -> Result<String, Fail> {
    match table(alloc, first, second, entry) {
        Ok(_) => Ok(format!(in alloc; "ok")?),
        Err(fault) => Ok(format!(in alloc; "{fault}")?),
    }
}

#[test]
fn each_fault_has_its_place(rt: HostRuntime) -> Result<(), Fail> {
    let first = row(113, 7, 40, 1);
    let second = row(337, 285, 191, 1);
    let cases = [
        (first, second, 170, "ok"),
        (row(112, 7, 40, 1), second, 170, "size 0"),
        (row(1, 0, 0, 0), second, 170, "size 0"),
        (row(4611686018427387905, 7, 40, 1), second, 170, "size 0"),
        (first, row(337, 337, 191, 1), 170, "size 1"),
        (first, row(337, 285, 337, 1), 170, "size 1"),
        (first, row(115, 7, 40, 1), 170, "residue 1"),
        (row(113, 8, 40, 1), second, 170, "half root 0"),
        (row(113, 1, 40, 1), second, 170, "root 0"),
        // the modulus is 29 * 43, and omega is 1 modulo 29
        (row(1247, 88, 1, 1), second, 170, "root 0"),
        (row(113, 7, 41, 1), second, 170, "two root 0"),
        (first, row(337, 285, 192, 1), 170, "two root 1"),
        (first, second, 171, "inverse 0 1"),
        (first, second, 507, "inverse 0 1"),
        (first, row(337, 285, 191, 0), 170, "plain inverse 1"),
        (row(113, 7, 40, 3), second, 170, "plain inverse 0"),
        // of two faults the earlier check, and of two moduli the earlier one
        (row(113, 7, 40, 0), second, 171, "inverse 0 1"),
        (row(113, 7, 41, 1), row(337, 337, 191, 1), 170, "two root 0"),
    ];
    for (first, second, entry, expected) in cases {
        let verdict = verdict(rt.alloc(), first, second, entry)?;
        assert_eq!(rt; verdict.as_str(), expected);
    }
    Ok(())
}

#[test]
fn accepted_moduli_are_read_back(rt: HostRuntime) -> Result<(), Fail> {
    let first = row(113, 7, 40, 1);
    let second = row(337, 285, 191, 1);
    let moduli = table(rt.alloc(), first, second, 170)?;
    assert_eq!(rt; moduli.m(), 7);
    assert_eq!(rt; moduli.p(), 2);
    assert_eq!(rt; moduli.chain_len(), 1);
    assert_eq!(rt; moduli.special_len(), 1);
    assert_eq!(rt; moduli.row(1).q, 337);
    assert_eq!(rt; moduli.inverse(0, 1), 170);
    assert_eq!(rt; moduli.inverse(1, 0), 56);
    Ok(())
}
