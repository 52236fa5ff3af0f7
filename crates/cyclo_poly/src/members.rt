//! The cyclotomic polynomials in words, each out of one with fewer prime factors.
ghost use Rattle.std.specs.Prelude.{◌≡◌, ℕ, ◌+◌, ◌-◌, ◌*◌, ◌^◌, ◌<◌, ◌≤◌, min, length, vec_len, replicate, pos, IfOk, IfSome, IfNone, nat_abs, ◌*ℤ◌, true, false};
ghost use Rattle.algebra.specs.Ring.{whole_numbers};
ghost use Rattle.algebra.specs.Range.{total, adds};
ghost use Rattle.algebra.specs.Divisor.{Dvd};
ghost use Rattle.algebra.specs.Poly.{coeff, SameCoeffs, at_power, quotient_by, degree_of, IsMonic};
ghost use Rattle.cyclotomic.specs.Cyclotomic.{phi};
ghost use Rattle.cyclo_poly.specs.Primes.{IsPrime};
ghost use Rattle.cyclo_poly.specs.Tall.{AllSmall, is_large};

use crate::primes::least_prime;
use crate::words::{add_product, small_difference};
use std::alloc::{AllocError, Global};

/// A row of n zeros.
pub fn zero_row(alloc: Global, n: usize) -> Result<Vec<i64>, AllocError>
    ensures { IfOk result (λ row. row.items ≡ replicate n (pos 0)) }
{
    let row = vec![in alloc; 0i64; n]?;
    Ok(row)
}

/// The coefficient of f(X^p) at a place.
fn spread_place(f: &[i64], p: usize, i: usize) -> i64
    requires positive { 0 < p }
    requires filled { 0 < length f.now }
    requires within { i ≤ (length f.now - 1) * p }
    ensures { result ≡ coeff whole_numbers (at_power whole_numbers p f.now) i }
{
    if i % p == 0 {
        return f[i / p];
    }
    0
}

/// The polynomial f(X^p), with no zeros at its end where f has none.
fn spread_out(alloc: Global, f: &[i64], p: usize) -> Result<Vec<i64>, AllocError>
    requires positive { 0 < p }
    requires filled { 0 < length f.now }
    requires fits { (length f.now - 1) * p < 2 ^ 32 }
    ensures long { IfOk result (λ g. vec_len g ≡ (length f.now - 1) * p + 1) }
    ensures equal { IfOk result
        (λ g. SameCoeffs whole_numbers g.items (at_power whole_numbers p f.now)) }
{
    let last = (f.len() - 1) * p;
    let mut g = Vec::with_capacity(alloc, last + 1)?;
    for i in 0..last + 1 {
        let next = spread_place(f, p, i);
        g.push(next)?;
    }
    Ok(g)
}

/// The sum of the products of g, read from the place before its last one down, with c, read from a place on.
fn correlated(g: &[i64], c: &[i64], from: usize) -> i128
    requires filled { 0 < length g.now }
    requires within { from ≤ length c.now }
    requires g_small { AllSmall g.now }
    requires c_small { AllSmall c.now }
    requires short { length g.now ≤ 2 ^ 17 }
    ensures value { result ≡ total (adds whole_numbers) (min (length g.now - 1) (length c.now - from))
        (λ j. coeff whole_numbers g.now (length g.now - 1 - (j + 1)) *ℤ coeff whole_numbers c.now (from + j)) }
    ensures size { nat_abs result ≤ 2 ^ 80 }
{
    let degree = g.len() - 1;
    let mut sum: i128 = 0;
    for j in 0..degree.min(c.len() - from) {
        sum = add_product(sum, g[degree - (j + 1)], c[from + j]);
    }
    sum
}

/// The quotient of a by the monic polynomial g; none where one of its coefficients is too large.
pub fn small_quotient(alloc: Global, a: &[i64], g: &[i64]) -> Result<Option<Vec<i64>>, AllocError>
    requires monic { IsMonic whole_numbers g.now }
    requires short { length g.now ≤ 2 ^ 17 }
    requires a_small { AllSmall a.now }
    requires g_small { AllSmall g.now }
    ensures found { IfOk result
        (λ o. IfSome o (λ c. c.items ≡ quotient_by whole_numbers g.now a.now)) }
    ensures small { IfOk result (λ o. IfSome o (λ c. AllSmall c.items)) }
    ensures large { IfOk result
        (λ o. IfNone o (is_large (quotient_by whole_numbers g.now a.now) ≡ true)) }
{
    let degree = g.len() - 1;
    let count = a.len().saturating_sub(degree);
    let mut c = zero_row(alloc, count)?;
    for t in (0..count).rev() {
        let known = correlated(g, &c, t + 1);
        let Some(digit) = small_difference(a[t + degree], known) else {
            return Ok(None);
        };
        c[t] = digit;
    }
    Ok(Some(c))
}

/// Phi_(k p) out of Phi_k, for a prime p; none where it has too large a coefficient.
fn next_member(
    alloc: Global,
    member: &[i64],
    k: usize,
    p: usize,
) -> Result<Option<Vec<i64>>, AllocError>
    requires positive { 0 < k }
    requires prime { IsPrime p }
    requires short { k * p ≤ 2 ^ 16 }
    requires member { member.now ≡ phi k }
    requires member_small { AllSmall member.now }
    ensures found { IfOk result (λ o. IfSome o (λ f. f.items ≡ phi (k * p))) }
    ensures small { IfOk result (λ o. IfSome o (λ f. AllSmall f.items)) }
    ensures large { IfOk result (λ o. IfNone o (is_large (phi (k * p)) ≡ true)) }
{
    let image = spread_out(alloc, member, p)?;
    if k % p == 0 {
        return Ok(Some(image));
    }
    let quotient = small_quotient(alloc, &image, member)?;
    Ok(quotient)
}

/// Phi_d; none where it, or Phi_e for a divisor e of d, has too large a coefficient.
pub fn small_member(alloc: Global, d: usize) -> Result<Option<Vec<i64>>, AllocError>
    requires low { 0 < d }
    requires high { d ≤ 2 ^ 16 }
    ensures found { IfOk result (λ o. IfSome o (λ f. f.items ≡ phi d)) }
    ensures small { IfOk result (λ o. IfSome o (λ f. AllSmall f.items)) }
    ensures large { IfOk result
        (λ o. IfNone o ((e : ℕ) × (0 < e) × Dvd e d × (is_large (phi e) ≡ true))) }
{
    let mut k = 1;
    let mut rest = d;
    let mut member = vec![in alloc; -1i64, 1]?;
    while rest > 1 {
        let p = least_prime(rest);
        let Some(next) = next_member(alloc, &member, k, p)? else {
            return Ok(None);
        };
        member = next;
        k *= p;
        rest /= p;
    }
    Ok(Some(member))
}
