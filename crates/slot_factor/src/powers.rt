//! The powers of a root of G, and the values of polynomials at them.
ghost use Rattle.std.specs.Prelude.{◌≡◌, ℕ, ◌*◌, ◌%◌, ◌^◌, ◌<◌, ◌≤◌, ◌++◌, All, IfOk, length, map, get_or};
ghost use Rattle.algebra.specs.Range.{total, counts};
ghost use Rattle.mod_ring.specs.Zq.{modulus_of};
ghost use Rattle.ext_field.specs.Element.{IsExtension, IsElement, degree, number, eta, eta_power};
ghost use Rattle.slot_laws.specs.Slots.{inverse_modulo};
ghost use Rattle.slot_factor.specs.Tables.{ArePowers, value_of};

use crate::sums::{add_multiple, next_place, reduce};
use cyclo_poly::{Poly, divide_monic};
use ext_field::{Ext, ExtElem};
use mod_ring::{Ring, Zq};
use moduli_table::inverse_or_zero;
use std::alloc::{AllocError, Global};

/// The remainder of X by G.
pub(crate) fn root(alloc: Global, zq: &Zq, ext: &Ext) -> Result<ExtElem, AllocError>
    requires valid { IsExtension ext.now }
    requires same { modulus_of zq.now ≡ ext.now.p }
    ensures value { IfOk result (λ r. r ≡ eta ext.now) }
    ensures element { IfOk result (λ r. IsElement ext.now r) }
{
    let mut coeffs = Vec::new(alloc);
    coeffs.push(0)?;
    coeffs.push(1)?;
    let factor = Vec::from_slice(alloc, ext.factor())?;
    let (_quotient, rest) = divide_monic(alloc, zq, &Poly { coeffs }, &Poly { coeffs: factor })?;
    let root = ext.element(alloc, &rest.coeffs)?;
    Ok(root)
}

/// A number as an element.
fn number(alloc: Global, zq: &Zq, ext: &Ext, c: u64) -> Result<ExtElem, AllocError>
    requires valid { IsExtension ext.now }
    requires same { modulus_of zq.now ≡ ext.now.p }
    requires below { c < ext.now.p }
    ensures value { IfOk result (λ r. r ≡ number ext.now c) }
    ensures element { IfOk result (λ r. IsElement ext.now r) }
{
    let mut coeffs = Vec::new(alloc);
    coeffs.push(c)?;
    let factor = Vec::from_slice(alloc, ext.factor())?;
    let (_quotient, rest) = divide_monic(alloc, zq, &Poly { coeffs }, &Poly { coeffs: factor })?;
    let number = ext.element(alloc, &rest.coeffs)?;
    Ok(number)
}

/// Each of the numbers as an element.
pub(crate) fn numbers(
    alloc: Global,
    zq: &Zq,
    ext: &Ext,
    a: &[u64],
) -> Result<Vec<ExtElem>, AllocError>
    requires valid { IsExtension ext.now }
    requires same { modulus_of zq.now ≡ ext.now.p }
    requires small { All (λ c. c < ext.now.p) a.now }
    ensures value { IfOk result (λ r. r.items ≡ map (number ext.now) a.now) }
    ensures elements { IfOk result (λ r. All (λ a. IsElement ext.now a) r.items) }
{
    let mut list = Vec::new(alloc);
    for i in 0..a.len() {
        let number = number(alloc, zq, ext, a[i])?;
        list.push(number)?;
    }
    Ok(list)
}

/// Puts the coefficients of an element at the end of a table.
fn appended(table: Vec<u32>, x: &ExtElem) -> Result<Vec<u32>, AllocError>
    requires { All (λ c. c < 2 ^ 17) x.now }
    ensures { IfOk result (λ r. r.items ≡ table.items ++ x.now) }
{
    let mut table = table;
    for i in 0..x.len() {
        table.push(x.coeff(i) as u32)?;
    }
    Ok(table)
}

/// The remainders of 1, X, .., `X^(m - 1)` by G, one after the other in one table.
pub(crate) fn powers(
    alloc: Global,
    ext: &Ext,
    root: &ExtElem,
    m: u32,
) -> Result<Vec<u32>, AllocError>
    requires valid { IsExtension ext.now }
    requires root { root.now ≡ eta ext.now }
    requires root_in { IsElement ext.now root.now }
    ensures { IfOk result (λ r. ArePowers ext.now m r.items) }
{
    let mut table = Vec::new(alloc);
    let mut power = ext.one(alloc)?;
    for _step in 0..m {
        table = appended(table, &power)?;
        power = ext.mul(alloc, root, &power)?;
    }
    Ok(table)
}

/// Adds to d sums the coefficients of the value of a polynomial at `X^t`, each up to a multiple of p.
fn add_terms(ext: &Ext, powers: &[u32], m: u32, t: u32, a: &[u64], sums: &mut [u64])
    requires valid { IsExtension ext.now }
    requires powers { ArePowers ext.now m powers.now }
    requires m_low { 0 < m }
    requires m_high { m ≤ 65536 }
    requires few { length a.now ≤ 65536 }
    requires small { All (λ v. v < ext.now.p) a.now }
    requires long { length sums.old ≡ degree ext.now }
    requires zeros { (j : ℕ) → get_or sums.old j 0 ≡ 0 }
    ensures { (j : ℕ) → get_or sums.new j 0 ≡ total counts (length a.now)
        (λ i. get_or a.now i 0 * get_or (eta_power ext.now ((i * t) % m)) j 0) }
{
    let d = ext.degree() as usize;
    let step = (t % m) as usize;
    let mut place = 0;
    for i in 0..a.len() {
        add_multiple(a[i], &powers[place * d..place * d + d], sums);
        place = next_place(place, step, m as usize);
    }
}

/// The value of a polynomial at `X^t`.
pub(crate) fn value(
    alloc: Global,
    ext: &Ext,
    powers: &[u32],
    m: u32,
    t: u32,
    a: &[u64],
) -> Result<ExtElem, AllocError>
    requires valid { IsExtension ext.now }
    requires powers { ArePowers ext.now m powers.now }
    requires m_low { 0 < m }
    requires m_high { m ≤ 65536 }
    requires few { length a.now ≤ 65536 }
    requires small { All (λ v. v < ext.now.p) a.now }
    ensures value { IfOk result (λ r. r ≡ value_of ext.now m t a.now) }
    ensures element { IfOk result (λ r. IsElement ext.now r) }
{
    let mut sums = vec![in alloc; 0u64; ext.degree() as usize]?;
    add_terms(ext, powers, m, t, a, &mut sums);
    reduce(ext.p(), &mut sums);
    let value = ext.element(alloc, &sums)?;
    Ok(value)
}

/// The least u below n with `a * u = 1` modulo n, or n where there is none.
pub(crate) fn inverse(n: u32, a: u32) -> u32
    requires n_low { 2 ≤ n }
    requires n_high { n ≤ 131071 }
    requires a_high { a ≤ 65536 }
    ensures { result ≡ inverse_modulo n a }
{
    let inverse = inverse_or_zero(a as u64, n as u64);
    if inverse == 0 { n } else { inverse as u32 }
}
