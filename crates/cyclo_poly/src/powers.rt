//! The remainders of the powers of X by Phi_m, and their greatest coefficient.
ghost use Rattle.std.specs.Prelude.{◌≡◌, ℕ, ◌+◌, ◌-◌, ◌^◌, ◌<◌, ◌≤◌, max, length, IfOk, IfSome, IfNone, nat_abs, true, false};
ghost use Rattle.algebra.specs.Ring.{whole_numbers};
ghost use Rattle.algebra.specs.Poly.{coeff};
ghost use Rattle.cyclotomic.specs.Cyclotomic.{phi};
ghost use Rattle.cyclotomic.specs.Norm.{height};
ghost use Rattle.cyclo_poly.specs.Powers.{IsLowered, height_from};
ghost use Rattle.cyclo_poly.specs.Tall.{AllSmall, has_large_power};

use crate::members::zero_row;
use crate::words::less_product;
use std::alloc::{AllocError, Global};

/// Takes a multiple of g, all but its last coefficient, from the places of a row from a place on. Answers the greatest of
/// a number and the absolute values that then stand there.
fn less_multiple(g: &[i64], factor: i64, from: usize, most: u64, row: &mut [i64]) -> u64
    requires filled { 0 < length g.now }
    requires within { from + (length g.now - 1) ≤ length row.old }
    requires g_small { AllSmall g.now }
    requires factor_small { nat_abs factor < 2 ^ 31 }
    requires row_small { AllSmall row.old }
    ensures row { IsLowered g.now factor from (length g.now - 1) row.old row.new }
    ensures most { result ≡ max most (height_from row.new from (length g.now - 1)) }
{
    let mut high = most;
    for i in 0..g.len() - 1 {
        let place = less_product(row[from + i], factor, g[i]);
        row[from + i] = place;
        high = high.max(place.unsigned_abs());
    }
    high
}

/// Takes a row in which the remainder of some f by the monic polynomial g begins one place further on to a row in which
/// that of X f begins at this place. Answers the greatest of a bound of the row and the absolute values of X f.
fn next_power(g: &[i64], from: usize, most: u64, row: &mut [i64]) -> u64
    requires filled { 0 < length g.now }
    requires within { from + (length g.now - 1) < length row.old }
    requires g_small { AllSmall g.now }
    requires row_in { (i : ℕ) → nat_abs (coeff whole_numbers row.old i) ≤ most }
    requires most_in { most < 2 ^ 31 }
    ensures row { IsLowered g.now (coeff whole_numbers row.old (from + (length g.now - 1))) from (length g.now - 1)
        row.old row.new }
    ensures most { result ≡ max most (height_from row.new from (length g.now - 1)) }
{
    let factor = row[from + (g.len() - 1)];
    if factor == 0 {
        return most;
    }
    less_multiple(g, factor, from, most, row)
}

/// The height of m, out of Phi_m; none where a power of X has too large a coefficient.
pub fn small_height(alloc: Global, m: usize, g: &[i64]) -> Result<Option<u32>, AllocError>
    requires low { 1 < m }
    requires high { m ≤ 2 ^ 16 }
    requires member { g.now ≡ phi m }
    requires g_small { AllSmall g.now }
    ensures found { IfOk result (λ o. IfSome o (λ h. h ≡ height m)) }
    ensures range { IfOk result (λ o. IfSome o (λ h. (1 ≤ h) × (h < 2 ^ 31))) }
    ensures small { IfOk result (λ o. IfSome o (λ _. has_large_power m ≡ false)) }
    ensures large { IfOk result (λ o. IfNone o (has_large_power m ≡ true)) }
{
    let mut row = zero_row(alloc, m)?;
    row[m - 1] = 1;
    let mut most: u64 = 1;
    for t in g.len() - 1..m {
        most = next_power(g, m - 1 - t, most, &mut row);
        if most >= 1 << 31 {
            return Ok(None);
        }
    }
    Ok(Some(most as u32))
}
