//! Whether the divisions of X^m - 1 by the cyclotomic polynomials stay small.
ghost use Rattle.std.specs.Prelude.{◌≡◌, ℕ, ◌^◌, ◌<◌, ◌≤◌, ◌⊎◌, IfOk, IfSome, IfNone, true, false};
ghost use Rattle.algebra.specs.Ring.{whole_numbers};
ghost use Rattle.algebra.specs.Divisor.{Dvd};
ghost use Rattle.algebra.specs.Poly.{coeff, quotient_by};
ghost use Rattle.cyclotomic.specs.Cyclotomic.{phi, power_less_one};
ghost use Rattle.cyclo_poly.specs.Tall.{AllSmall, is_large, has_large_factor};

use crate::exact::exact_quotient;
use crate::members::{small_member, small_quotient, zero_row};
use std::alloc::{AllocError, Global};

/// X^m - 1.
fn power_less_one(alloc: Global, m: usize) -> Result<Vec<i64>, AllocError>
    requires low { 0 < m }
    requires high { m ≤ 2 ^ 16 }
    ensures value { IfOk result (λ f. f.items ≡ power_less_one m) }
    ensures small { IfOk result (λ f. AllSmall f.items) }
{
    let mut f = zero_row(alloc, m)?;
    f[0] = -1;
    f.push(1)?;
    Ok(f)
}

/// What the division of a list by Phi_d leaves; none where it, or Phi_e for a divisor e of d, has too large a coefficient.
fn divided_by_member(alloc: Global, left: &[i64], d: usize) -> Result<Option<Vec<i64>>, AllocError>
    requires low { 0 < d }
    requires high { d ≤ 2 ^ 16 }
    requires small { AllSmall left.now }
    ensures found { IfOk result
        (λ o. IfSome o (λ c. c.items ≡ quotient_by whole_numbers (phi d) left.now)) }
    ensures small { IfOk result (λ o. IfSome o (λ c. AllSmall c.items)) }
    ensures member_small { IfOk result (λ o. IfSome o (λ _. is_large (phi d) ≡ false)) }
    ensures large { IfOk result (λ o. IfNone o (((e : ℕ) × (0 < e) × Dvd e d × (is_large (phi e) ≡ true))
        ⊎ (is_large (quotient_by whole_numbers (phi d) left.now) ≡ true))) }
{
    let Some(member) = small_member(alloc, d)? else {
        return Ok(None);
    };
    if let Some(exact) = exact_quotient(alloc, left, d, &member)? {
        return Ok(Some(exact));
    }
    let quotient = small_quotient(alloc, left, &member)?;
    Ok(quotient)
}

/// Whether Phi_d, or what is left after the division by it, has too large a coefficient for a divisor d of m.
pub fn has_large_factor(alloc: Global, m: usize) -> Result<bool, AllocError>
    requires low { 0 < m }
    requires high { m ≤ 2 ^ 16 }
    ensures { IfOk result (λ b. b ≡ has_large_factor m) }
{
    let mut left = power_less_one(alloc, m)?;
    for i in 0..m {
        if m % (i + 1) == 0 {
            let Some(quotient) = divided_by_member(alloc, &left, i + 1)? else {
                return Ok(true);
            };
            left = quotient;
        }
    }
    Ok(false)
}
