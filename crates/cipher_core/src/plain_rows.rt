//! From residues modulo the moduli of a level to residues modulo p.
ghost use Rattle.std.specs.Prelude.{◌≡◌, ◌*◌, ◌<◌, ◌≤◌, ℤ, false, pos, All, IfOk, get_or, length, map, nat_abs, take};
ghost use Rattle.std.specs.List.{AllZip};
ghost use Rattle.algebra.specs.Whole.{balanced, product_of, residue};
ghost use Rattle.cyclotomic.specs.Cyclotomic.{degree};
ghost use Rattle.mod_ring.specs.Zq.{modulus_of};
ghost use Rattle.mixed_radix.specs.Basis.{IsBasis};
ghost use Rattle.residue_rows.specs.Rows.{AreRows};
ghost use Rattle.residue_rows.specs.Whole.{residues_at, whole};
ghost use Rattle.residue_rows.specs.Kept.{moduli_kept};
ghost use Rattle.slot_laws.specs.Slots.{balanced_row};

use double_crt::RingTables;
use mixed_radix::Radix;
use mod_ring::Zq;
use std::alloc::{AllocError, Global};

/// Reads the residues of one coefficient.
fn read_column(rows: &[Vec<u64>], place: usize, out: &mut [u64])
    requires same { length out.old ≡ length rows.now }
    requires inside { All (λ row. place < length row.items) rows.now }
    ensures { out.new ≡ residues_at place (map (λ row. row.items) rows.now) }
{
    for (j, row) in rows.iter().enumerate() {
        out[j] = row[place];
    }
}

/// The balanced residue modulo p of the whole number that has these residues and is below half of the product of the moduli.
/// The digits are written over.
fn plain_residue(radix: &Radix, plain: &Zq, residues: &[u64], digits: &mut [i64]) -> i64
    requires basis { IsBasis radix.now }
    requires count { length residues.now ≤ length radix.now.moduli }
    requires below { AllZip (λ q r. r < q) (take (length residues.now) radix.now.moduli) residues.now }
    requires room { length digits.old ≡ length residues.now }
    ensures { let qs = take (length residues.now) radix.now.moduli in (x : ℤ) → AllZip (λ q r. residue q x ≡ r) qs residues.now
        → 2 * nat_abs x < product_of qs → result ≡ balanced (modulus_of plain.now) x }
{
    radix.digits(residues, digits);
    let residue = radix.residue_from_digits(digits, 0, plain);
    plain.balanced(residue)
}

/// The balanced residue modulo p of one coefficient of the whole polynomial that has these rows. Both buffers, of as many words
/// as there are rows, are written over.
fn plain_coefficient(
    tables: &RingTables,
    plain: &Zq,
    rows: &[Vec<u64>],
    place: usize,
    residues: &mut [u64],
    digits: &mut [i64],
) -> i64
    requires few { length rows.now ≤ length tables.now.moduli.chain }
    requires rows { AreRows tables.now.moduli.m (moduli_kept tables.now (length rows.now) false) (map (λ row. row.items) rows.now) }
    requires place { place < degree tables.now.moduli.m }
    requires residues { length residues.old ≡ length rows.now }
    requires digits { length digits.old ≡ length rows.now }
    ensures { let whole = whole tables.now.moduli.m (moduli_kept tables.now (length rows.now) false) (map (λ row. row.items) rows.now) in
        result ≡ balanced (modulus_of plain.now) (get_or whole place (pos 0)) }
{
    read_column(rows, place, residues);
    plain_residue(tables.chain_radix(), plain, residues, digits)
}

/// The balanced residues modulo p of the coefficients of the whole polynomial that has these rows.
pub(crate) fn plain_row(
    alloc: Global,
    tables: &RingTables,
    rows: &[Vec<u64>],
) -> Result<Vec<i64>, AllocError>
    requires few { length rows.now ≤ length tables.now.moduli.chain }
    requires rows { AreRows tables.now.moduli.m (moduli_kept tables.now (length rows.now) false) (map (λ row. row.items) rows.now) }
    ensures { let qs = moduli_kept tables.now (length rows.now) false in
        IfOk result (λ a. a.items ≡ balanced_row tables.now.moduli.p (whole tables.now.moduli.m qs (map (λ row. row.items) rows.now))) }
{
    let plain = Zq::new(u64::from(tables.p())).unwrap();
    let mut residues = vec![in alloc; 0; rows.len()]?;
    let mut digits = vec![in alloc; 0; rows.len()]?;
    let residues = residues.as_mut_slice();
    let digits = digits.as_mut_slice();
    let mut list = Vec::new(alloc);
    for place in 0..tables.n() {
        let value = plain_coefficient(tables, &plain, rows, place as usize, residues, digits);
        list.push(value)?;
    }
    Ok(list)
}
