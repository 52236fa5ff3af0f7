//! Values at the units, and the polynomials with given values.
ghost use Rattle.std.specs.Prelude.{◌≡◌, IfOk, true, length, map};
ghost use Rattle.residue_rows.specs.Rows.{AreRows};
ghost use Rattle.residue_rows.specs.Kept.{moduli_kept};

use crate::rings::{RINGS, Ring, polynomial, tables_of};
use crate::value_rows::{CASES, Case};
use double_crt::{Dcrt, RingTables};
use std::alloc::{AllocError, Global};
use std::process::Abort;
use std::rc::Rc;
use std::test::Fail;

/// The residues of the polynomial with these coefficients, modulo all moduli.
fn residues(
    rt: &impl Abort,
    alloc: Global,
    tables: &Rc<RingTables>,
    coeffs: &[i64],
) -> Result<Vec<Vec<u64>>, AllocError>
    requires { length tables.now.value.moduli.chain ≡ 2 }
    ensures { IfOk result (λ rows. AreRows tables.now.value.moduli.m (moduli_kept tables.now.value 2 true) (map (λ row. row.items) rows.items)) }
{
    let a = polynomial(rt, alloc, tables, coeffs)?;
    a.to_residues(alloc)
}

/// Asserts that a polynomial has these values at the units.
fn assert_values(
    rt: &impl Abort,
    alloc: Global,
    found: &Dcrt,
    wanted: &[&[u64]],
) -> Result<(), Fail> {
    let rows = found.to_residues(alloc)?;
    assert!(rt; rows.len() <= 3);
    assert_eq!(rt; rows.len(), wanted.len());
    let n = found.tables().n();
    for (row, values) in wanted.iter().enumerate() {
        assert!(rt; row < rows.len());
        assert_eq!(rt; values.len(), n as usize);
        for (unit, value) in values.iter().enumerate() {
            assert!(rt; unit < n as usize);
            assert_eq!(rt; found.value(row as u32, unit as u32), *value);
        }
    }
    Ok(())
}

/// Asserts that these are the rows wanted.
fn assert_rows(rt: &impl Abort, rows: &[Vec<u64>], wanted: &[&[u64]]) {
    assert_eq!(rt; rows.len(), wanted.len());
    for (row, wanted) in rows.iter().zip(wanted) {
        assert_eq!(rt; row.as_slice(), *wanted);
    }
}

/// The values of a polynomial, and the same polynomial from its residues.
fn check_values(
    rt: &impl Abort,
    alloc: Global,
    tables: &Rc<RingTables>,
    ring: &Ring,
    case: &Case,
) -> Result<(), Fail>
    requires { length tables.now.value.moduli.chain ≡ 2 }
{
    let rows = residues(rt, alloc, tables, ring.a)?;
    let a = Dcrt::from_residues(alloc, tables, 2, true, &rows)?;
    assert_values(rt, alloc, &a, case.values.as_slice())
}

/// The polynomial with given values.
fn check_with_values(
    rt: &impl Abort,
    alloc: Global,
    tables: &Rc<RingTables>,
    ring: &Ring,
    case: &Case,
) -> Result<(), Fail>
    requires { length tables.now.value.moduli.chain ≡ 2 }
{
    let rows = residues(rt, alloc, tables, ring.b)?;
    let found = Dcrt::from_values(alloc, tables, 2, true, &rows)?;
    assert_rows(rt, &found.to_residues(alloc)?, case.with_values.as_slice());
    Ok(())
}

#[test]
fn values_at_the_units(rt: HostRuntime) -> Result<(), Fail> {
    let alloc = rt.alloc();
    for (ring, case) in RINGS.iter().zip(&CASES) {
        let tables = tables_of(&rt, alloc, ring)?;
        check_values(&rt, alloc, &tables, ring, case)?;
        check_with_values(&rt, alloc, &tables, ring, case)?;
    }
    Ok(())
}
