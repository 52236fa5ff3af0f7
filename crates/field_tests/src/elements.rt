//! Extensions and elements out of tables, whose conditions are tested as a test runs, and what is made of them, in numbers.
ghost use Rattle.std.specs.Prelude.{◌≡◌, IfOk};
ghost use Rattle.ext_field.specs.Element.{IsExtension, IsElement};

use ext_field::{Ext, ExtElem, ExtFault};
use mod_ring::{Ring, horner, power, sum};
use std::alloc::{AllocError, Global};
use std::process::Abort;
use std::test::Fail;

// the extension by a polynomial
pub fn extension(rt: &impl Abort, alloc: Global, p: u64, factor: &[u64]) -> Result<Ext, ExtFault> {
    assert!(rt; p >= 2 && p < 131072);
    assert!(rt; factor.len() >= 2 && factor.len() <= 65);
    assert!(rt; factor.iter().all(|c| *c < p));
    assert_eq!(rt; factor[factor.len() - 1], 1);
    Ext::new(alloc, p, factor)
}

// the element with the given coefficients
pub fn element(
    rt: &impl Abort,
    alloc: Global,
    field: &Ext,
    coeffs: &[u64],
) -> Result<ExtElem, AllocError>
    ensures element { IfOk result (λ a. IsElement field.now a) }
    ensures valid { IfOk result (λ _. IsExtension field.now) }
{
    let p = field.p();
    assert_eq!(rt; coeffs.len(), field.degree() as usize);
    assert!(rt; coeffs.iter().all(|c| *c < p));
    let element = field.element(alloc, coeffs)?;
    Ok(element)
}

// elements with the given coefficients
pub fn elements<const N: usize>(
    rt: &impl Abort,
    alloc: Global,
    field: &Ext,
    rows: &[[u64; N]],
) -> Result<Vec<ExtElem>, AllocError>
    ensures { IfOk result (λ _. IsExtension field.now) }
{
    assert!(rt; field.degree() as usize == N);
    let mut list = Vec::new(alloc);
    for row in rows {
        list.push(element(rt, alloc, field, row.as_slice())?)?;
    }
    Ok(list)
}

// the coefficients of an element
pub fn numbers(alloc: Global, a: &ExtElem) -> Result<Vec<u64>, AllocError> {
    let mut list = Vec::new(alloc);
    for i in 0..a.len() {
        list.push(a.coeff(i))?;
    }
    Ok(list)
}

pub fn total_of(
    rt: &impl Abort,
    alloc: Global,
    field: &Ext,
    a: &[u64],
    b: &[u64],
) -> Result<Vec<u64>, AllocError> {
    let a = element(rt, alloc, field, a)?;
    let b = element(rt, alloc, field, b)?;
    let total = field.add(alloc, &a, &b)?;
    numbers(alloc, &total)
}

pub fn product_of(
    rt: &impl Abort,
    alloc: Global,
    field: &Ext,
    a: &[u64],
    b: &[u64],
) -> Result<Vec<u64>, AllocError> {
    let a = element(rt, alloc, field, a)?;
    let b = element(rt, alloc, field, b)?;
    let product = field.mul(alloc, &a, &b)?;
    numbers(alloc, &product)
}

pub fn power_of(
    rt: &impl Abort,
    alloc: Global,
    field: &Ext,
    a: &[u64],
    e: u64,
) -> Result<Vec<u64>, AllocError> {
    let a = element(rt, alloc, field, a)?;
    let raised = power(alloc, field, &a, e)?;
    numbers(alloc, &raised)
}

// the image under frob, taken so many times
pub fn image_of(
    rt: &impl Abort,
    alloc: Global,
    field: &Ext,
    a: &[u64],
    times: u32,
) -> Result<Vec<u64>, AllocError> {
    let a = element(rt, alloc, field, a)?;
    let image = field.frob(alloc, &a, times)?;
    numbers(alloc, &image)
}

pub fn trace_of(
    rt: &impl Abort,
    alloc: Global,
    field: &Ext,
    a: &[u64],
) -> Result<Vec<u64>, AllocError> {
    let a = element(rt, alloc, field, a)?;
    let trace = field.trace(alloc, &a)?;
    numbers(alloc, &trace)
}

pub fn sum_of<const N: usize>(
    rt: &impl Abort,
    alloc: Global,
    field: &Ext,
    rows: &[[u64; N]],
) -> Result<Vec<u64>, AllocError> {
    let list = elements(rt, alloc, field, rows)?;
    assert!(rt; list.iter().all(|x| field.holds(x)));
    let total = sum(alloc, field, &list)?;
    numbers(alloc, &total)
}

// the value at a point of the polynomial with these coefficients
pub fn value_of<const N: usize>(
    rt: &impl Abort,
    alloc: Global,
    field: &Ext,
    rows: &[[u64; N]],
    at: &[u64],
) -> Result<Vec<u64>, AllocError> {
    let list = elements(rt, alloc, field, rows)?;
    let at = element(rt, alloc, field, at)?;
    assert!(rt; list.iter().all(|x| field.holds(x)));
    let value = horner(alloc, field, &list, &at)?;
    numbers(alloc, &value)
}

// the first pair at which these are no dual basis
pub fn fault_of<const N: usize>(
    rt: &impl Abort,
    alloc: Global,
    field: &Ext,
    rows: &[[u64; N]],
) -> Result<Option<(u32, u32)>, AllocError> {
    let dual = elements(rt, alloc, field, rows)?;
    assert_eq!(rt; dual.len(), field.degree() as usize);
    assert!(rt; dual.iter().all(|x| field.holds(x)));
    field.is_dual(alloc, &dual)
}
