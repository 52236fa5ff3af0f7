//! Powers whose exponents are squares, and the row of them that stands on both sides of its start.
ghost use Rattle.std.specs.Prelude.{◌≡◌, ℕ, ◌+◌, ◌-◌, ◌*◌, ◌%◌, ◌^◌, ◌<◌, ◌≤◌, All, length, get_or, IfOk};
ghost use Rattle.mod_ring.specs.Zq.{modulus_of};
ghost use Rattle.bluestein.specs.Chirps.{AreChirps, IsMirrored};

use mod_ring::Zq;
use std::alloc::{AllocError, Global};

/// Writes the factor times the powers of a residue with the exponents 0, 1, 4, 9 and so on.
pub fn square_powers(ring: &Zq, base: u64, factor: u64, out: &mut [u64])
    requires base_in { base < modulus_of ring.now }
    requires factor_in { factor < modulus_of ring.now }
    ensures powers { AreChirps (modulus_of ring.now) base factor (length out.old) out.new }
    ensures below { All (λ a. a < modulus_of ring.now) out.new }
{
    let square = ring.mul_word(base, base);
    let mut power = factor;
    let mut step = base;
    for i in 0..out.len() {
        out[i] = power;
        power = ring.mul_word(power, step);
        step = ring.mul_word(step, square);
    }
}

/// Copies the entries 1 to count - 1 to the other side of the start, the places taken modulo their number.
fn mirror(row: &mut [u64], count: usize)
    requires some { 0 < count }
    requires room { 2 * count ≤ length row.old + 1 }
    ensures near { (k : ℕ) → k < count → get_or row.new k 0 ≡ get_or row.old k 0 }
    ensures far { (k : ℕ) → 0 < k → k < count → get_or row.new (length row.old - k) 0 ≡ get_or row.old k 0 }
    ensures below { (q : ℕ) → All (λ a. a < q) row.old → All (λ a. a < q) row.new }
{
    let size = row.len();
    for k in 1..count {
        row[size - k] = row[k];
    }
}

/// Fills the start of a row with powers, and copies them to its other side.
fn fill_mirrored(ring: &Zq, base: u64, count: usize, row: &mut [u64])
    requires base_in { base < modulus_of ring.now }
    requires some { 0 < count }
    requires room { 2 * count ≤ length row.old + 1 }
    requires row_in { All (λ a. a < modulus_of ring.now) row.old }
    ensures mirrored { IsMirrored (modulus_of ring.now) base count row.new }
    ensures below { All (λ a. a < modulus_of ring.now) row.new }
{
    let (near, _far) = row.split_at_mut(count);
    square_powers(ring, base, 1, near);
    mirror(row, count);
}

/// A row of powers of a residue with the squares of their places as exponents, on both sides of its start.
pub fn mirrored(
    alloc: Global,
    ring: &Zq,
    base: u64,
    count: usize,
    size: usize,
) -> Result<Vec<u64>, AllocError>
    requires base_in { base < modulus_of ring.now }
    requires some { 0 < count }
    requires room { 2 * count ≤ size + 1 }
    ensures long { IfOk result (λ row. length row.items ≡ size) }
    ensures mirrored { IfOk result (λ row. IsMirrored (modulus_of ring.now) base count row.items) }
    ensures below { IfOk result (λ row. All (λ a. a < modulus_of ring.now) row.items) }
{
    let mut row = vec![in alloc; 0u64; size]?;
    fill_mirrored(ring, base, count, &mut row);
    Ok(row)
}

/// A list of a factor times powers of a residue with the squares of their places as exponents.
pub fn chirps(
    alloc: Global,
    ring: &Zq,
    base: u64,
    factor: u64,
    count: usize,
) -> Result<Vec<u64>, AllocError>
    requires base_in { base < modulus_of ring.now }
    requires factor_in { factor < modulus_of ring.now }
    ensures powers { IfOk result (λ row. AreChirps (modulus_of ring.now) base factor count row.items) }
    ensures below { IfOk result (λ row. All (λ a. a < modulus_of ring.now) row.items) }
{
    let mut row = vec![in alloc; 0u64; count]?;
    square_powers(ring, base, factor, &mut row);
    Ok(row)
}
