//! Rows of residues: of whole numbers, their sums and products, and a(X^k) by the places of its coefficients.
ghost use Rattle.std.specs.Prelude.{◌≡◌, ℕ, ◌+◌, ◌*◌, ◌%◌, ◌<◌, ◌≤◌, ◌^◌, All, IfOk, length, map, get_or, pos};
ghost use Rattle.algebra.specs.Ring.{residues};
ghost use Rattle.algebra.specs.Poly.{coeff, plus, negated, times};
ghost use Rattle.algebra.specs.Whole.{residue};
ghost use Rattle.mod_ring.specs.Zq.{modulus_of};
ghost use Rattle.cyclotomic.specs.Cyclotomic.{R, fold, substituted};
ghost use Rattle.slot_laws.specs.Slots.{balanced_row};

use crate::sums::{add_lazily, next_place};
use cyclo_poly::Cyclo;
use mod_ring::Zq;
use std::alloc::{AllocError, Global};

/// The residues of whole numbers.
pub(crate) fn residues_of(alloc: Global, zq: &Zq, a: &[i64]) -> Result<Vec<u64>, AllocError>
    ensures value { IfOk result (λ r. r.items ≡ map (residue (modulus_of zq.now)) a.now) }
    ensures below { IfOk result (λ r. All (λ v. v < modulus_of zq.now) r.items) }
{
    let mut list = Vec::new(alloc);
    for i in 0..a.len() {
        let value = zq.from_signed(a[i]);
        list.push(value)?;
    }
    Ok(list)
}

/// The balanced residues of residues.
pub(crate) fn balanced_of(alloc: Global, zq: &Zq, a: &[u64]) -> Result<Vec<i64>, AllocError>
    requires { All (λ v. v < modulus_of zq.now) a.now }
    ensures { IfOk result (λ r. r.items ≡ balanced_row (modulus_of zq.now) (map pos a.now)) }
{
    let mut list = Vec::new(alloc);
    for i in 0..a.len() {
        let value = zq.balanced(a[i]);
        list.push(value)?;
    }
    Ok(list)
}

/// The sum of two rows of one length.
pub(crate) fn added(alloc: Global, zq: &Zq, a: &[u64], b: &[u64]) -> Result<Vec<u64>, AllocError>
    requires same { length a.now ≡ length b.now }
    requires a_below { All (λ v. v < modulus_of zq.now) a.now }
    requires b_below { All (λ v. v < modulus_of zq.now) b.now }
    ensures value { IfOk result (λ r. r.items ≡ plus (residues (modulus_of zq.now)) a.now b.now) }
    ensures below { IfOk result (λ r. All (λ v. v < modulus_of zq.now) r.items) }
{
    let mut list = Vec::new(alloc);
    for i in 0..a.len() {
        let value = zq.add_word(a[i], b[i]);
        list.push(value)?;
    }
    Ok(list)
}

/// The negative of a row.
pub(crate) fn negated(alloc: Global, zq: &Zq, a: &[u64]) -> Result<Vec<u64>, AllocError>
    requires { All (λ v. v < modulus_of zq.now) a.now }
    ensures value { IfOk result (λ r. r.items ≡ negated (residues (modulus_of zq.now)) a.now) }
    ensures below { IfOk result (λ r. All (λ v. v < modulus_of zq.now) r.items) }
{
    let mut list = Vec::new(alloc);
    for i in 0..a.len() {
        let value = zq.neg_word(a[i]);
        list.push(value)?;
    }
    Ok(list)
}

/// The sum of the terms of coefficient i of a product, not reduced.
fn terms_at(zq: &Zq, a: &[u64], b: &[u64], i: usize) -> u64
    requires p_high { modulus_of zq.now < 2 ^ 17 }
    requires a_few { length a.now ≤ 65537 }
    requires b_few { length b.now ≤ 65537 }
    requires i_in { i < length a.now + length b.now }
    requires a_below { All (λ v. v < modulus_of zq.now) a.now }
    requires b_below { All (λ v. v < modulus_of zq.now) b.now }
    ensures value { result % modulus_of zq.now ≡ coeff (residues (modulus_of zq.now)) (times (residues (modulus_of zq.now)) a.now b.now) i }
    ensures low { result < 2 ^ 62 }
{
    let mut sum: u64 = 0;
    for j in (i + 1).saturating_sub(b.len())..a.len().min(i + 1) {
        sum += a[j] * b[i - j];
    }
    sum
}

/// Coefficient i of a product.
fn product_at(zq: &Zq, a: &[u64], b: &[u64], i: usize) -> u64
    requires p_high { modulus_of zq.now < 2 ^ 17 }
    requires a_few { length a.now ≤ 65537 }
    requires b_few { length b.now ≤ 65537 }
    requires i_in { i < length a.now + length b.now }
    requires a_below { All (λ v. v < modulus_of zq.now) a.now }
    requires b_below { All (λ v. v < modulus_of zq.now) b.now }
    ensures value { result ≡ coeff (residues (modulus_of zq.now)) (times (residues (modulus_of zq.now)) a.now b.now) i }
    ensures below { result < modulus_of zq.now }
{
    terms_at(zq, a, b, i) % zq.modulus()
}

/// The product of two rows.
pub(crate) fn product(alloc: Global, zq: &Zq, a: &[u64], b: &[u64]) -> Result<Vec<u64>, AllocError>
    requires p_high { modulus_of zq.now < 2 ^ 17 }
    requires a_some { 0 < length a.now }
    requires b_some { 0 < length b.now }
    requires a_few { length a.now ≤ 65537 }
    requires b_few { length b.now ≤ 65537 }
    requires a_below { All (λ v. v < modulus_of zq.now) a.now }
    requires b_below { All (λ v. v < modulus_of zq.now) b.now }
    ensures value { IfOk result (λ r. r.items ≡ times (residues (modulus_of zq.now)) a.now b.now) }
    ensures below { IfOk result (λ r. All (λ v. v < modulus_of zq.now) r.items) }
{
    let mut list = Vec::new(alloc);
    for i in 0..a.len() + b.len() - 1 {
        let value = product_at(zq, a, b, i);
        list.push(value)?;
    }
    Ok(list)
}

/// The m sums with a(X^k) added: coefficient i of a goes to the place i * k modulo m.
pub(crate) fn placed(zq: &Zq, m: usize, k: usize, a: &[u64], sums: Vec<u64>) -> Vec<u64>
    requires m_low { 0 < m }
    requires m_high { m ≤ 65536 }
    requires k_low { 0 < k }
    requires long { length sums.items ≡ m }
    requires a_below { All (λ v. v < modulus_of zq.now) a.now }
    requires below { All (λ v. v < modulus_of zq.now) sums.items }
    ensures value { map (residue (modulus_of zq.now)) (fold m (map pos result.items))
        ≡ map (residue (modulus_of zq.now)) ((R m).add (fold m (map pos sums.items)) (substituted m k (map pos a.now))) }
    ensures long { length result.items ≡ m }
    ensures below { All (λ v. v < modulus_of zq.now) result.items }
{
    let step = k % m;
    let mut place = 0;
    let mut sums = sums;
    for i in 0..a.len() {
        sums[place] = zq.add_word(sums[place], a[i]);
        place = next_place(place, step, m);
    }
    sums
}

/// The m sums with (a b)(X^k) added, up to multiples of p: coefficient i of the product goes to the place i * k modulo m.
pub(crate) fn placed_product(
    zq: &Zq,
    m: usize,
    k: usize,
    a: &[u64],
    b: &[u64],
    sums: Vec<u64>,
) -> Vec<u64>
    requires m_low { 0 < m }
    requires m_high { m ≤ 65536 }
    requires p_high { modulus_of zq.now < 2 ^ 17 }
    requires k_low { 0 < k }
    requires a_some { 0 < length a.now }
    requires b_some { 0 < length b.now }
    requires a_few { length a.now ≤ 65537 }
    requires b_few { length b.now ≤ 65537 }
    requires long { length sums.items ≡ m }
    requires a_below { All (λ v. v < modulus_of zq.now) a.now }
    requires b_below { All (λ v. v < modulus_of zq.now) b.now }
    requires room { All (λ v. v < 2 ^ 62) sums.items }
    ensures value { map (residue (modulus_of zq.now)) (fold m (map pos result.items))
        ≡ map (residue (modulus_of zq.now)) ((R m).add (fold m (map pos sums.items))
        (substituted m k (map pos (times (residues (modulus_of zq.now)) a.now b.now)))) }
    ensures long { length result.items ≡ m }
    ensures room { All (λ v. v < 2 ^ 62) result.items }
{
    let step = k % m;
    let mut place = 0;
    let mut sums = sums;
    for i in 0..a.len() + b.len() - 1 {
        let term = terms_at(zq, a, b, i);
        sums[place] = add_lazily(zq.modulus(), sums[place], term);
        place = next_place(place, step, m);
    }
    sums
}

/// The residue of each sum.
pub(crate) fn reduced(zq: &Zq, sums: Vec<u64>) -> Vec<u64>
    ensures value { (i : ℕ) → get_or result.items i 0 ≡ get_or sums.items i 0 % modulus_of zq.now }
    ensures long { length result.items ≡ length sums.items }
{
    let q = zq.modulus();
    let mut sums = sums;
    for i in 0..sums.len() {
        sums[i] %= q;
    }
    sums
}

/// The remainder by Phi_m of m sums.
pub(crate) fn folded(cyclo: &Cyclo, zq: &Zq, sums: Vec<u64>) -> Vec<u64>
    requires m_low { 0 < cyclo.now }
    requires long { length sums.items ≡ cyclo.now }
    requires below { All (λ v. v < modulus_of zq.now) sums.items }
    ensures value { result.items ≡ map (residue (modulus_of zq.now)) (fold cyclo.now (map pos sums.items)) }
    ensures below { All (λ v. v < modulus_of zq.now) result.items }
{
    let mut sums = sums;
    cyclo.fold(zq, &mut sums);
    sums.truncate(cyclo.degree() as usize);
    sums
}
