//! Operations on plaintexts, with balanced residues modulo p as their results.
ghost use Rattle.std.specs.Prelude.{◌≡◌, ◌<◌, ◌≤◌, ◌^◌, IfOk, length};
ghost use Rattle.algebra.specs.Power.{less};
ghost use Rattle.mod_ring.specs.Zq.{modulus_of};
ghost use Rattle.cyclotomic.specs.Cyclotomic.{R, substituted};
ghost use Rattle.slot_laws.specs.Slots.{balanced_row};

use crate::idempotents::{multiplied, substituted};
use crate::rows::{added, balanced_of, negated, residues_of};
use cyclo_poly::Cyclo;
use mod_ring::Zq;
use std::alloc::{AllocError, Global};

/// The sum.
pub(crate) fn add(
    alloc: Global,
    zq: &Zq,
    a: &[i64],
    b: &[i64],
    m: u32,
) -> Result<Vec<i64>, AllocError>
    requires { length a.now ≡ length b.now }
    ensures { IfOk result (λ r. r.items ≡ balanced_row (modulus_of zq.now) ((R m).add a.now b.now)) }
{
    let _m = m;
    let x = residues_of(alloc, zq, a)?;
    let y = residues_of(alloc, zq, b)?;
    let sum = added(alloc, zq, &x, &y)?;
    let row = balanced_of(alloc, zq, &sum)?;
    Ok(row)
}

/// The negative.
pub(crate) fn neg(alloc: Global, zq: &Zq, a: &[i64], m: u32) -> Result<Vec<i64>, AllocError>
    ensures { IfOk result (λ r. r.items ≡ balanced_row (modulus_of zq.now) ((R m).neg a.now)) }
{
    let _m = m;
    let x = residues_of(alloc, zq, a)?;
    let negative = negated(alloc, zq, &x)?;
    let row = balanced_of(alloc, zq, &negative)?;
    Ok(row)
}

/// a(X^k).
pub(crate) fn auto(
    alloc: Global,
    cyclo: &Cyclo,
    zq: &Zq,
    k: u32,
    a: &[i64],
) -> Result<Vec<i64>, AllocError>
    requires k_low { 0 < k }
    requires k_high { k ≤ 65536 }
    requires few { length a.now ≤ 65536 }
    ensures { IfOk result (λ r. r.items ≡ balanced_row (modulus_of zq.now) (substituted cyclo.now k a.now)) }
{
    let _m = cyclo.m();
    let x = residues_of(alloc, zq, a)?;
    let image = substituted(alloc, cyclo, zq, k, &x)?;
    let row = balanced_of(alloc, zq, &image)?;
    Ok(row)
}

/// The difference.
pub(crate) fn sub(
    alloc: Global,
    zq: &Zq,
    a: &[i64],
    b: &[i64],
    m: u32,
) -> Result<Vec<i64>, AllocError>
    requires { length a.now ≡ length b.now }
    ensures { IfOk result (λ r. r.items ≡ balanced_row (modulus_of zq.now) (less (R m) a.now b.now)) }
{
    let minus = neg(alloc, zq, b, m)?;
    let row = add(alloc, zq, a, &minus, m)?;
    Ok(row)
}

/// The product.
pub(crate) fn mul(
    alloc: Global,
    cyclo: &Cyclo,
    zq: &Zq,
    a: &[i64],
    b: &[i64],
) -> Result<Vec<i64>, AllocError>
    requires p_high { modulus_of zq.now < 2 ^ 17 }
    requires a_some { 0 < length a.now }
    requires b_some { 0 < length b.now }
    requires a_few { length a.now ≤ 65536 }
    requires b_few { length b.now ≤ 65536 }
    ensures { IfOk result (λ r. r.items ≡ balanced_row (modulus_of zq.now) ((R cyclo.now).mul a.now b.now)) }
{
    let _m = cyclo.m();
    let x = residues_of(alloc, zq, a)?;
    let y = residues_of(alloc, zq, b)?;
    let product = multiplied(alloc, cyclo, zq, &x, &y)?;
    let row = balanced_of(alloc, zq, &product)?;
    Ok(row)
}
