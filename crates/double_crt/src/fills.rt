//! Rows for the moduli that are kept: made, taken to values, and taken back to coefficients.
ghost use Rattle.std.specs.Prelude.{◌≡◌, ℕ, ◌<◌, ◌≤◌, ◌++◌, IfOk, OnOk, [], if◌then◌else◌, length, map, get_or, take, drop};
ghost use Rattle.moduli_table.specs.Chain.{no_row};
ghost use Rattle.residue_rows.specs.Rows.{AreRows, rows_of};
ghost use Rattle.residue_rows.specs.Values.{values_of};
ghost use Rattle.residue_rows.specs.Kept.{IsSetting, rows_kept, moduli_kept, root_of, interpolated_each};
ghost use Rattle.double_crt.specs.Held.{moduli_in, entries_in, AreHeld};
ghost use Rattle.double_crt.specs.ModuloRows.{empty_row};

use crate::row::Row;
use crate::tables::RingTables;
use std::alloc::{AllocError, Global};

/// The residues of whole coefficients.
pub(crate) fn small_rows(
    alloc: Global,
    tables: &RingTables,
    chain_rows: u32,
    special: bool,
    coeffs: &[i64],
) -> Result<Vec<Row>, AllocError>
    requires { chain_rows ≤ length tables.now.moduli.chain }
    ensures setting { IsSetting tables.now }
    ensures moduli { IfOk result (λ rows. moduli_in rows.items ≡ moduli_kept tables.now chain_rows special) }
    ensures entries { IfOk result (λ rows. entries_in rows.items ≡ rows_of (moduli_kept tables.now chain_rows special) coeffs.now) }
{
    let count = tables.row_count(chain_rows, special);
    let mut rows = Vec::with_capacity(alloc, count as usize)?;
    for i in 0..count {
        let ring = tables.line(chain_rows, special, i).ring();
        rows.push(Row::of_small(alloc, ring, coeffs)?)?;
    }
    Ok(rows)
}

/// The residues given.
pub(crate) fn given_rows(
    alloc: Global,
    tables: &RingTables,
    chain_rows: u32,
    special: bool,
    given: &[Vec<u64>],
) -> Result<Vec<Row>, AllocError>
    requires fits { chain_rows ≤ length tables.now.moduli.chain }
    requires given { AreRows tables.now.moduli.m (moduli_kept tables.now chain_rows special) (map (λ row. row.items) given.now) }
    ensures setting { IsSetting tables.now }
    ensures moduli { IfOk result (λ rows. moduli_in rows.items ≡ moduli_kept tables.now chain_rows special) }
    ensures entries { IfOk result (λ rows. entries_in rows.items ≡ map (λ row. row.items) given.now) }
{
    let count = tables.row_count(chain_rows, special);
    let mut rows = Vec::with_capacity(alloc, count as usize)?;
    for i in 0..count {
        let ring = tables.line(chain_rows, special, i).ring();
        rows.push(Row::of(alloc, ring, &given[i as usize])?)?;
    }
    Ok(rows)
}

/// Takes the coefficients of a polynomial to its values at the units.
pub(crate) fn to_values(
    alloc: Global,
    tables: &RingTables,
    chain_rows: u32,
    special: bool,
    rows: &mut [Row],
) -> Result<(), AllocError>
    requires fits { chain_rows ≤ length tables.now.moduli.chain }
    requires held { AreHeld tables.now chain_rows special rows.old }
    ensures { (k : ℕ) → k < length rows.old → OnOk result (get_or rows.new k empty_row
        ≡ record { q = (get_or rows.old k empty_row).q; entries = values_of tables.now.moduli.m (root_of (get_or (rows_kept tables.now chain_rows special) k no_row)) (get_or rows.old k empty_row).entries }) }
{
    let mut buffer = vec![in alloc; 0u64; tables.m() as usize]?;
    for i in 0..rows.len() {
        let line = tables.line(chain_rows, special, i as u32);
        rows[i].to_values(alloc, line, tables.units(), &mut buffer)?;
    }
    Ok(())
}

/// The coefficients of the polynomial with these values at the units.
pub(crate) fn coefficients(
    alloc: Global,
    tables: &RingTables,
    chain_rows: u32,
    special: bool,
    rows: &[Row],
) -> Result<Vec<Vec<u64>>, AllocError>
    requires fits { chain_rows ≤ length tables.now.moduli.chain }
    requires held { AreHeld tables.now chain_rows special rows.now }
    ensures { IfOk result (λ lists. map (λ list. list.items) lists.items ≡ interpolated_each tables.now.moduli.m (rows_kept tables.now chain_rows special) (entries_in rows.now)) }
{
    let m = tables.m() as usize;
    let mut values = vec![in alloc; 0u64; m]?;
    let mut coeffs = vec![in alloc; 0u64; m]?;
    let mut lists = Vec::with_capacity(alloc, rows.len())?;
    for i in 0..rows.len() {
        let line = tables.line(chain_rows, special, i as u32);
        lists.push(rows[i].coefficients(
            alloc,
            line,
            tables.cyclo(),
            tables.places(),
            &mut values,
            &mut coeffs,
        )?)?;
    }
    Ok(lists)
}

/// Adds copies of rows at the end.
pub(crate) fn extend(alloc: Global, to: &mut Vec<Row>, from: &[Row]) -> Result<(), AllocError>
    ensures { OnOk result (to.new.items ≡ to.old.items ++ from.now) }
{
    for row in from {
        to.push(row.copy(alloc)?)?;
    }
    Ok(())
}

/// Copies of the rows of fewer moduli: the first ones of the chain, and the special ones or none.
pub(crate) fn fewer_rows(
    alloc: Global,
    rows: &[Row],
    chain_rows: u32,
    fewer: u32,
    special: bool,
) -> Result<Vec<Row>, AllocError>
    requires fewer_in { fewer ≤ length rows.now }
    requires chain_in { chain_rows ≤ length rows.now }
    ensures { IfOk result (λ copies. copies.items ≡ take fewer rows.now ++ (if special then drop chain_rows rows.now else [])) }
{
    let mut copies = Vec::new(alloc);
    extend(alloc, &mut copies, &rows[..fewer as usize])?;
    if !special {
        return Ok(copies);
    }
    extend(alloc, &mut copies, &rows[chain_rows as usize..])?;
    Ok(copies)
}
