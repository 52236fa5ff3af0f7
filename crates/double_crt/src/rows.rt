//! What is done to lists of rows, row by row.
ghost use Rattle.std.specs.Prelude.{◌≡◌, ℕ, ◌*◌, ◌%◌, ◌<◌, ◌≤◌, length, get_or};
ghost use Rattle.algebra.specs.Divisor.{UnitModulo, units as units_of};
ghost use Rattle.double_crt.specs.ModuloRows.{empty_row, IsAlike, added, subtracted, multiplied, negative, scaled_by, permuted};
ghost use Rattle.double_crt.specs.Places.{ArePlaces};

use crate::row::Row;

/// Adds other rows.
pub(crate) fn add_rows(rows: &mut [Row], others: &[Row])
    requires same { length others.now ≡ length rows.old }
    requires alike { (k : ℕ) → k < length rows.old → IsAlike (get_or rows.old k empty_row) (get_or others.now k empty_row) }
    ensures { (k : ℕ) → k < length rows.old → get_or rows.new k empty_row ≡ added (get_or rows.old k empty_row) (get_or others.now k empty_row) }
{
    for i in 0..rows.len() {
        rows[i].add_in(&others[i]);
    }
}

/// Subtracts other rows.
pub(crate) fn sub_rows(rows: &mut [Row], others: &[Row])
    requires same { length others.now ≡ length rows.old }
    requires alike { (k : ℕ) → k < length rows.old → IsAlike (get_or rows.old k empty_row) (get_or others.now k empty_row) }
    ensures { (k : ℕ) → k < length rows.old → get_or rows.new k empty_row ≡ subtracted (get_or rows.old k empty_row) (get_or others.now k empty_row) }
{
    for i in 0..rows.len() {
        rows[i].sub_in(&others[i]);
    }
}

/// Multiplies by other rows.
pub(crate) fn mul_rows(rows: &mut [Row], others: &[Row])
    requires same { length others.now ≡ length rows.old }
    requires alike { (k : ℕ) → k < length rows.old → IsAlike (get_or rows.old k empty_row) (get_or others.now k empty_row) }
    ensures { (k : ℕ) → k < length rows.old → get_or rows.new k empty_row ≡ multiplied (get_or rows.old k empty_row) (get_or others.now k empty_row) }
{
    for i in 0..rows.len() {
        rows[i].mul_in(&others[i]);
    }
}

/// Turns rows into their negatives.
pub(crate) fn neg_rows(rows: &mut [Row])
    ensures { (k : ℕ) → k < length rows.old → get_or rows.new k empty_row ≡ negative (get_or rows.old k empty_row) }
{
    for i in 0..rows.len() {
        rows[i].neg_in();
    }
}

/// Multiplies rows by a whole number.
pub(crate) fn scale_rows(rows: &mut [Row], k: i64)
    ensures { (i : ℕ) → i < length rows.old → get_or rows.new i empty_row ≡ scaled_by k (get_or rows.old i empty_row) }
{
    for i in 0..rows.len() {
        rows[i].scale_in(k);
    }
}

/// Writes for each unit j the residues at the place of the unit j k modulo m.
pub(crate) fn permute_rows(rows: &[Row], k: u32, units: &[u32], places: &[u32], out: &mut [Row])
    requires m_some { 1 < length places.now }
    requires m_high { length places.now ≤ 65536 }
    requires k_in { k < length places.now }
    requires k_unit { UnitModulo (length places.now) k }
    requires units { units.now ≡ units_of (length places.now) }
    requires places { ArePlaces (length places.now) places.now }
    requires same { length out.old ≡ length rows.now }
    requires long { (i : ℕ) → i < length rows.now → length (get_or rows.now i empty_row).entries ≡ length units.now }
    requires alike { (i : ℕ) → i < length rows.now → IsAlike (get_or rows.now i empty_row) (get_or out.old i empty_row) }
    ensures { (i : ℕ) → i < length rows.now → get_or out.new i empty_row
        ≡ permuted (λ j. get_or places.now ((j * k) % length places.now) 0) (get_or rows.now i empty_row) units.now }
{
    for i in 0..rows.len() {
        rows[i].permute_into(k, units, places, &mut out[i]);
    }
}
