//! Quotients by Phi_d that leave no remainder, out of passes with its strides.
ghost use Rattle.std.specs.Prelude.{◌≡◌, ℕ, ◌+◌, ◌-◌, ◌^◌, ◌<◌, ◌≤◌, ◌↔◌, IsTrue, IfOk, IfSome, List, length, map, take, drop, pos, nat_abs};
ghost use Rattle.std.specs.List.{All};
ghost use Rattle.algebra.specs.Ring.{whole_numbers};
ghost use Rattle.algebra.specs.Poly.{quotient_by};
ghost use Rattle.algebra.specs.Whole.{residue, balanced};
ghost use Rattle.cyclotomic.specs.Cyclotomic.{phi};
ghost use Rattle.cyclotomic.specs.Norm.{one_norm};
ghost use Rattle.mod_ring.specs.Zq.{modulus_of};
ghost use Rattle.cyclo_poly.specs.Strides.{IsLess};
ghost use Rattle.cyclo_poly.specs.Tall.{AllSmall};

use crate::passes::{lower_all, raise_all};
use crate::strides::{Strides, strides_of};
use mod_ring::Zq;
use std::alloc::{AllocError, Global};

// A modulus that tells apart all numbers from -2^59 to 2^59.
const MODULUS: u64 = (1 << 61) - 1;

/// The residues modulo the large number.
fn large_ring() -> Zq
    ensures { modulus_of result ≡ 2305843009213693951 }
{
    Zq::new(MODULUS).unwrap()
}

/// The residues of whole numbers.
fn residues_of(alloc: Global, zq: &Zq, a: &[i64]) -> Result<Vec<u64>, AllocError>
    ensures value { IfOk result (λ r. r.items ≡ map (residue (modulus_of zq.now)) a.now) }
    ensures below { IfOk result (λ r. All (λ v. v < modulus_of zq.now) r.items) }
{
    let mut list = Vec::with_capacity(alloc, a.len())?;
    for i in 0..a.len() {
        let value = zq.from_signed(a[i]);
        list.push(value)?;
    }
    Ok(list)
}

/// The passes that take a row to the one in which its quotient by Phi_d begins at the place that is the degree of Phi_d.
fn pass(zq: &Zq, strides: &Strides, row: &mut [u64])
    requires above_positive { All (λ j. 0 < j) strides.now.above.items }
    requires below_positive { All (λ j. 0 < j) strides.now.below.items }
    requires row_in { All (λ v. v < modulus_of zq.now) row.old }
    ensures passed { (mid : List ℕ) × (IsLess (modulus_of zq.now) strides.now.below.items row.old mid)
        × (IsLess (modulus_of zq.now) strides.now.above.items row.new mid) }
    ensures row_in { All (λ v. v < modulus_of zq.now) row.new }
{
    lower_all(zq, &strides.below, row);
    raise_all(zq, &strides.above, row);
}

/// Whether each place of a row is 0.
fn is_zero(row: &[u64]) -> bool
    ensures { IsTrue result ↔ All (λ x. x ≡ 0) row.now }
{
    row.iter().all(|x| *x == 0)
}

/// The sum of the absolute coefficients.
fn one_norm(f: &[i64]) -> u64
    requires short { length f.now ≤ 2 ^ 17 }
    requires small { AllSmall f.now }
    ensures { result ≡ one_norm f.now }
{
    let mut sum: u64 = 0;
    for i in (0..f.len()).rev() {
        sum += f[i].unsigned_abs();
    }
    sum
}

/// The balanced residues of a row; none where one of them is too large.
fn small_row(alloc: Global, zq: &Zq, row: &[u64]) -> Result<Option<Vec<i64>>, AllocError>
    requires { All (λ v. v < modulus_of zq.now) row.now }
    ensures value { IfOk result (λ o. IfSome o (λ c. c.items ≡ map (λ x. balanced (modulus_of zq.now) (pos x)) row.now)) }
    ensures small { IfOk result (λ o. IfSome o (λ c. AllSmall c.items)) }
{
    let mut list = Vec::with_capacity(alloc, row.len())?;
    for i in 0..row.len() {
        let value = zq.balanced(row[i]);
        if value.unsigned_abs() >= 1 << 31 {
            return Ok(None);
        }
        list.push(value)?;
    }
    Ok(Some(list))
}

/// The balanced residues of a row from a place on; none where it does not begin with as many zeros, or one of them is too
/// large.
fn small_rest(
    alloc: Global,
    zq: &Zq,
    row: &[u64],
    from: usize,
) -> Result<Option<Vec<i64>>, AllocError>
    requires { All (λ v. v < modulus_of zq.now) row.now }
    ensures value { IfOk result (λ o. IfSome o
        (λ c. c.items ≡ map (λ x. balanced (modulus_of zq.now) (pos x)) (drop from row.now))) }
    ensures small { IfOk result (λ o. IfSome o (λ c. AllSmall c.items)) }
    ensures room { IfOk result (λ o. IfSome o (λ _. from ≤ length row.now)) }
    ensures zeros { IfOk result (λ o. IfSome o (λ _. All (λ x. x ≡ 0) (take from row.now))) }
{
    if row.len() < from || !is_zero(&row[..from]) {
        return Ok(None);
    }
    let rest = small_row(alloc, zq, &row[from..])?;
    Ok(rest)
}

/// The quotient of a by Phi_d, where passes modulo the large number leave no remainder, and the coefficients of the quotient
/// and of Phi_d are so small that their products are known by their residues; otherwise none.
pub fn exact_quotient(
    alloc: Global,
    a: &[i64],
    d: usize,
    member: &[i64],
) -> Result<Option<Vec<i64>>, AllocError>
    requires low { 0 < d }
    requires high { d ≤ 2 ^ 16 }
    requires member { member.now ≡ phi d }
    requires member_small { AllSmall member.now }
    requires a_small { AllSmall a.now }
    ensures found { IfOk result (λ o. IfSome o (λ c. c.items ≡ quotient_by whole_numbers (phi d) a.now)) }
    ensures small { IfOk result (λ o. IfSome o (λ c. AllSmall c.items)) }
{
    if one_norm(member) >= 1 << 28 {
        return Ok(None);
    }
    let zq = large_ring();
    let strides = strides_of(alloc, d)?;
    let mut row = residues_of(alloc, &zq, a)?;
    pass(&zq, &strides, &mut row);
    let degree = member.len() - 1;
    let quotient = small_rest(alloc, &zq, &row, degree)?;
    Ok(quotient)
}
