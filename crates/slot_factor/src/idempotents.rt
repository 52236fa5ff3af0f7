//! The idempotent of slot 0, and products and substitutions modulo Phi_m and p.
ghost use Rattle.std.specs.Prelude.{◌≡◌, ◌+◌, ◌*◌, ◌%◌, ◌<◌, ◌≤◌, ◌^◌, All, IfOk, length, map, get_or, pos};
ghost use Rattle.algebra.specs.Whole.{residue};
ghost use Rattle.mod_ring.specs.Zq.{modulus_of};
ghost use Rattle.cyclotomic.specs.Cyclotomic.{R, substituted};
ghost use Rattle.hyper_cube.specs.Torus.{slot_count, T_of, index};
ghost use Rattle.hyper_cube.specs.Tables.{IsFilled};
ghost use Rattle.ext_field.specs.Element.{IsExtension, IsElement, trace};
ghost use Rattle.slot_laws.specs.Slots.{inverse_modulo, eps};
ghost use Rattle.slot_laws.specs.Checks.{IsPhiFactor, residue_row, eps_sum};
ghost use Rattle.slot_factor.specs.Tables.{ArePowers, AreTerms};

use crate::powers::inverse;
use crate::rows::{folded, placed, product};
use cyclo_poly::Cyclo;
use ext_field::Ext;
use hyper_cube::Cube;
use mod_ring::Zq;
use std::alloc::{AllocError, Global};

/// The residues of a(X^k).
pub(crate) fn substituted(
    alloc: Global,
    cyclo: &Cyclo,
    zq: &Zq,
    k: u32,
    a: &[u64],
) -> Result<Vec<u64>, AllocError>
    requires k_low { 0 < k }
    requires below { All (λ v. v < modulus_of zq.now) a.now }
    ensures value { IfOk result (λ r. r.items ≡ map (residue (modulus_of zq.now)) (substituted cyclo.now k (map pos a.now))) }
    ensures below { IfOk result (λ r. All (λ v. v < modulus_of zq.now) r.items) }
{
    let m = cyclo.m() as usize;
    let zeros = vec![in alloc; 0; m]?;
    let sums = placed(zq, m, k as usize, a, zeros);
    let rest = folded(cyclo, zq, sums);
    Ok(rest)
}

/// The residues of a product.
pub(crate) fn multiplied(
    alloc: Global,
    cyclo: &Cyclo,
    zq: &Zq,
    a: &[u64],
    b: &[u64],
) -> Result<Vec<u64>, AllocError>
    requires m_low { 0 < cyclo.now }
    requires p_high { modulus_of zq.now < 2 ^ 17 }
    requires a_some { 0 < length a.now }
    requires b_some { 0 < length b.now }
    requires a_few { length a.now ≤ 65537 }
    requires b_few { length b.now ≤ 65537 }
    requires a_below { All (λ v. v < modulus_of zq.now) a.now }
    requires b_below { All (λ v. v < modulus_of zq.now) b.now }
    ensures value { IfOk result (λ r. r.items
        ≡ map (residue (modulus_of zq.now)) ((R cyclo.now).mul (map pos a.now) (map pos b.now))) }
    ensures below { IfOk result (λ r. All (λ v. v < modulus_of zq.now) r.items) }
{
    let product = product(alloc, zq, a, b)?;
    let rest = substituted(alloc, cyclo, zq, 1, &product)?;
    Ok(rest)
}

/// The constant terms of the traces of 1, X, .., `X^(d - 1)`.
fn constant_terms(alloc: Global, ext: &Ext) -> Result<Vec<u64>, AllocError>
    ensures { IfOk result (λ r. AreTerms ext.now r.items) }
{
    let traces = ext.traces(alloc, ext.degree())?;
    let mut terms = Vec::new(alloc);
    for j in 0..traces.len() {
        let term = traces[j].coeff(0);
        terms.push(term)?;
    }
    Ok(terms)
}

/// The constant term of the trace of an element, given by its coefficients.
fn constant_trace(ext: &Ext, row: &[u32], terms: &[u64]) -> u64
    requires valid { IsExtension ext.now }
    requires terms { AreTerms ext.now terms.now }
    requires row_in { IsElement ext.now row.now }
    ensures value { result ≡ get_or (trace ext.now row.now) 0 0 }
    ensures below { result < ext.now.p }
{
    let mut sum: u64 = 0;
    for j in 0..terms.len() {
        sum += row[j] as u64 * terms[j];
    }
    sum % ext.p()
}

/// The residues of the idempotent.
pub(crate) fn idempotent(
    alloc: Global,
    cyclo: &Cyclo,
    cube: &Cube,
    zq: &Zq,
    ext: &Ext,
    powers: &[u32],
) -> Result<Vec<u64>, AllocError>
    requires valid { IsExtension ext.now }
    requires same_m { cyclo.now ≡ cube.now.m }
    requires same_q { modulus_of zq.now ≡ ext.now.p }
    requires powers { ArePowers ext.now cube.now.m powers.now }
    requires root { IsPhiFactor ext.now cube.now }
    ensures value { IfOk result (λ r. r.items ≡ residue_row ext.now cube.now (eps ext.now cube.now)) }
{
    let m = cube.m();
    let d = ext.degree() as usize;
    let unit = inverse(ext.p() as u32, m) as u64 % ext.p();
    let terms = constant_terms(alloc, ext)?;
    let mut values = Vec::new(alloc);
    for i in 0..m {
        let start = ((m - i) % m) as usize * d;
        let trace = constant_trace(ext, &powers[start..start + d], &terms);
        let value = zq.mul_word(unit, trace);
        values.push(value)?;
    }
    let rest = folded(cyclo, zq, values);
    Ok(rest)
}

/// For each slot e the inverse of T(e) modulo m.
pub(crate) fn inverses(alloc: Global, cube: &Cube) -> Result<Vec<u32>, AllocError>
    ensures { IfOk result (λ r. IsFilled (λ j. inverse_modulo cube.now.m (T_of cube.now (index cube.now.dimensions j)))
        (slot_count cube.now) r.items) }
{
    let mut list = Vec::new(alloc);
    for e in 0..cube.slot_count() {
        let value = inverse(cube.m(), cube.element(e));
        list.push(value)?;
    }
    Ok(list)
}

/// The sum over the slots e of eps(X^k), k the inverse of T(e) modulo m.
pub(crate) fn total(
    alloc: Global,
    cyclo: &Cyclo,
    cube: &Cube,
    zq: &Zq,
    ext: &Ext,
    inverses: &[u32],
    unit: &[u64],
) -> Result<Vec<u64>, AllocError>
    requires same_m { cyclo.now ≡ cube.now.m }
    requires same_q { modulus_of zq.now ≡ ext.now.p }
    requires inverses { IsFilled (λ j. inverse_modulo cube.now.m (T_of cube.now (index cube.now.dimensions j)))
        (slot_count cube.now) inverses.now }
    requires unit { unit.now ≡ residue_row ext.now cube.now (eps ext.now cube.now) }
    requires few { length unit.now ≤ 65536 }
    ensures value { IfOk result (λ r. r.items ≡ residue_row ext.now cube.now (eps_sum ext.now cube.now)) }
{
    let _p = ext.p();
    let m = cyclo.m() as usize;
    let mut sums = vec![in alloc; 0; m]?;
    for e in 0..cube.slot_count() {
        sums = placed(zq, m, inverses[e as usize] as usize, unit, sums);
    }
    let rest = folded(cyclo, zq, sums);
    Ok(rest)
}
