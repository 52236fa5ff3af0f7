//! Powers, sums and values of polynomials over any ring.
ghost use Rattle.std.specs.Prelude.{◌≡◌, IsTrue, IfOk, All, map};
ghost use Rattle.algebra.specs.Power.{power};
ghost use Rattle.algebra.specs.Poly.{sum, value_at};

use crate::rings::Ring;
use std::alloc::{AllocError, Global};

/// The power `a^e`; one where e is 0.
pub fn power<R: Ring>(alloc: Global, ring: &R, a: &R::Elem, e: u64) -> Result<R::Elem, AllocError>
    requires ring { R.valid ring.now }
    requires a_held { IsTrue (R.held ring.now (R.value a.now)) }
    ensures value { IfOk result (λ r. R.value r ≡ power (R.ops ring.now) (R.value a.now) e) }
    ensures held { IfOk result (λ r. IsTrue (R.held ring.now (R.value r))) }
{
    if e == 0 {
        let one = ring.one(alloc)?;
        return Ok(one);
    }
    let half = power(alloc, ring, a, e / 2)?;
    let square = ring.mul(alloc, &half, &half)?;
    if e % 2 == 0 {
        return Ok(square);
    }
    let odd = ring.mul(alloc, &square, a)?;
    Ok(odd)
}

/// The sum of a list; zero where it is empty.
pub fn sum<R: Ring>(alloc: Global, ring: &R, list: &[R::Elem]) -> Result<R::Elem, AllocError>
    requires ring { R.valid ring.now }
    requires list_held { All (λ a. IsTrue (R.held ring.now (R.value a))) list.now }
    ensures value { IfOk result (λ r. R.value r ≡ sum (R.ops ring.now) (map R.value list.now)) }
    ensures held { IfOk result (λ r. IsTrue (R.held ring.now (R.value r))) }
{
    let mut total = ring.zero(alloc)?;
    for i in (0..list.len()).rev() {
        total = ring.add(alloc, &list[i], &total)?;
    }
    Ok(total)
}

/// The value of a polynomial at a point, by Horner's rule. The coefficients stand with the constant term first; with
/// none the value is zero.
pub fn horner<R: Ring>(
    alloc: Global,
    ring: &R,
    coeffs: &[R::Elem],
    at: &R::Elem,
) -> Result<R::Elem, AllocError>
    requires ring { R.valid ring.now }
    requires coeffs_held { All (λ a. IsTrue (R.held ring.now (R.value a))) coeffs.now }
    requires at_held { IsTrue (R.held ring.now (R.value at.now)) }
    ensures value { IfOk result
        (λ r. R.value r ≡ value_at (R.ops ring.now) (R.value at.now) (map R.value coeffs.now)) }
    ensures held { IfOk result (λ r. IsTrue (R.held ring.now (R.value r))) }
{
    let mut value = ring.zero(alloc)?;
    for i in (0..coeffs.len()).rev() {
        let product = ring.mul(alloc, at, &value)?;
        value = ring.add(alloc, &coeffs[i], &product)?;
    }
    Ok(value)
}
