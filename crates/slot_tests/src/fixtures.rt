//! Slots out of small tables, whose conditions are tested as a test runs, and arrays out of texts.
ghost use Rattle.std.specs.Prelude.{◌≡◌, ◌<◌, ◌≤◌, IfOk, All, length};
ghost use Rattle.algebra.specs.Divisor.{UnitModulo};
ghost use Rattle.hyper_cube.specs.Tables.{torus};
ghost use Rattle.ext_field.specs.Element.{IsElement, degree};
ghost use Rattle.slot_array.specs.Arrays.{IsArray};
ghost use Rattle.cyclotomic.specs.Cyclotomic as cyclotomic;
ghost use Rattle.slot_laws.specs.Slots.{balanced_row};
ghost use Rattle.slot_program.specs.WellFormed.{IsProgram};

use crate::rows::text_of;
use cyclo_poly::Cyclo;
use ext_field::{Ext, ExtElem};
use hyper_cube::Cube;
use mod_ring::Ring;
use slot_array::{SlotArray, print_slots, read_slots};
use slot_factor::{SlotFault, Slots};
use slot_laws::slots::law_encodes_slots;
use slot_program::{Program, read};
use std::alloc::{AllocError, Global};
use std::process::Abort;
use std::test::Fail;

/// The cyclotomic polynomial of a number.
fn cyclo<R: Abort + AllocGlobal>(rt: &R, m: u32) -> Result<Cyclo, Fail>
    ensures { IfOk result (λ c. c ≡ m) }
{
    assert!(rt; m >= 3 && m <= 65536);
    let cyclo = Cyclo::new(rt.alloc(), m)?;
    Ok(cyclo)
}

/// Asserts that these are in the ranges of a cube.
fn assert_ranges(rt: &impl Abort, m: u32, p: u32, d: u32)
    ensures m_low { 3 ≤ m }
    ensures m_high { m ≤ 65536 }
    ensures p_low { 2 ≤ p }
    ensures p_high { p ≤ 131071 }
    ensures d_low { 1 ≤ d }
    ensures d_high { d ≤ 64 }
{
    assert!(rt; 3 <= m && m <= 65536);
    assert!(rt; 2 <= p && p <= 131071);
    assert!(rt; 1 <= d && d <= 64);
}

/// Asserts that these generators and sizes are in the ranges of a cube.
fn assert_generators(rt: &impl Abort, m: u32, generators: &[(u32, u32)])
    ensures few { length generators.now ≤ 16 }
    ensures generators { All (λ pair. (1 ≤ pair.0) × (pair.0 < m)) generators.now }
    ensures sizes { All (λ pair. (1 ≤ pair.1) × (pair.1 ≤ m)) generators.now }
{
    assert!(rt; generators.len() <= 16);
    assert!(rt; generators.iter().all(|pair| 1 <= pair.0 && pair.0 < m));
    assert!(rt; generators.iter().all(|pair| 1 <= pair.1 && pair.1 <= m));
}

/// The cube of a table.
fn cube<R: Abort + AllocGlobal>(
    rt: &R,
    m: u32,
    p: u32,
    d: u32,
    generators: &[(u32, u32)],
) -> Result<Cube, Fail>
    ensures { IfOk result (λ c. c ≡ torus m p d generators.now) }
{
    assert_ranges(rt, m, p, d);
    assert_generators(rt, m, generators);
    let cube = Cube::new(rt.alloc(), m, p, d, generators)?;
    Ok(cube)
}

/// The extension by a polynomial.
fn extension<R: Abort + AllocGlobal>(rt: &R, p: u32, factor: &[u64]) -> Result<Ext, Fail>
    ensures { IfOk result (λ f. f ≡ record { p = p; factor = factor.now }) }
{
    assert!(rt; p >= 2 && p < 131072);
    assert!(rt; factor.len() >= 2 && factor.len() <= 65);
    assert!(rt; factor.iter().all(|c| *c < p as u64));
    assert_eq!(rt; factor[factor.len() - 1], 1);
    let field = Ext::new(rt.alloc(), p as u64, factor)?;
    Ok(field)
}

/// An element.
fn element<R: Abort + AllocGlobal>(rt: &R, field: &Ext, coeffs: &[u64]) -> Result<ExtElem, Fail>
    ensures { IfOk result (λ a. IsElement field.now a) }
{
    let p = field.p();
    assert_eq!(rt; coeffs.len(), field.degree() as usize);
    assert!(rt; coeffs.iter().all(|c| *c < p));
    let element = field.element(rt.alloc(), coeffs)?;
    Ok(element)
}

/// As many elements as the degree, whose coefficients stand in one list.
fn elements<R: Abort + AllocGlobal>(
    rt: &R,
    field: &Ext,
    coeffs: &[u64],
) -> Result<Vec<ExtElem>, Fail>
    ensures long { IfOk result (λ r. length r.items ≡ degree field.now) }
    ensures held { IfOk result (λ r. All (λ a. IsElement field.now a) r.items) }
{
    let d = field.degree() as usize;
    assert_eq!(rt; coeffs.len(), d * d);
    let mut list = Vec::new(rt.alloc());
    for i in 0..d {
        list.push(element(rt, field, &coeffs[i * d..i * d + d])?)?;
    }
    assert_eq!(rt; list.len(), d);
    assert!(rt; list.iter().all(|a| field.holds(a)));
    Ok(list)
}

/// The slots of a table: m, p, the coefficients of G, those of the dual basis in one list, and the generators with their
/// sizes; or why there are none.
pub fn tried<R: Abort + AllocGlobal>(
    rt: &R,
    m: u32,
    p: u32,
    factor: &[u64],
    dual: &[u64],
    generators: &[(u32, u32)],
) -> Result<Result<Slots, SlotFault>, Fail> {
    let cyclo = cyclo(rt, m)?;
    assert!(rt; factor.len() >= 2 && factor.len() <= 65);
    let cube = cube(rt, m, p, factor.len() as u32 - 1, generators)?;
    let field = extension(rt, p, factor)?;
    let dual = elements(rt, &field, dual)?;
    Ok(Slots::new(rt.alloc(), &cyclo, cube, field, dual))
}

/// The cyclotomic polynomial of slots.
pub fn cyclo_of<R: Abort + AllocGlobal>(rt: &R, slots: &Slots) -> Result<Cyclo, Fail>
    ensures { IfOk result (λ c. c ≡ slots.now.cube.m) }
{
    cyclo(rt, slots.cube().m())
}

/// Asserts that k has this inverse modulo m.
fn assert_inverse(rt: &impl Abort, m: u32, k: u32, inverse: u32)
    requires { 0 < m }
    ensures { UnitModulo m k }
{
    let product = k as u64 * inverse as u64;
    assert!(rt; product % m as u64 == 1);
}

/// Asserts that k is a unit modulo the m of a cube.
pub fn assert_unit(rt: &impl Abort, cube: &Cube, k: u32)
    ensures low { 1 ≤ k }
    ensures high { k < cube.now.m }
    ensures unit { UnitModulo cube.now.m k }
{
    let m = cube.m();
    assert!(rt; 1 <= k && k < m);
    let inverse = (1..m).find(|u| k as u64 * *u as u64 % m as u64 == 1);
    assert_inverse(rt, m, k, inverse.unwrap_or(0));
}

/// The array that a text writes.
pub fn array(alloc: Global, slots: &Slots, text: &str) -> Result<SlotArray, Fail>
    ensures { IfOk result (λ x. IsArray slots.now.field slots.now.cube x) }
{
    let text = text_of(alloc, text)?;
    let array = read_slots(alloc, slots.cube(), slots.ext(), text.as_slice())?;
    Ok(array)
}

/// The arrays that texts write, with `|` between.
pub fn arrays_of(alloc: Global, slots: &Slots, texts: &str) -> Result<Vec<SlotArray>, Fail>
    ensures { IfOk result (λ list. All (λ x. IsArray slots.now.field slots.now.cube x) list.items) }
{
    let mut list = Vec::new(alloc);
    for text in texts.split('|') {
        list.push(array(alloc, slots, text)?)?;
    }
    Ok(list)
}

/// The program that a text writes.
pub fn program(alloc: Global, slots: &Slots, text: &[u8]) -> Result<Program, Fail>
    ensures { IfOk result (λ program. IsProgram slots.now.field slots.now.cube program) }
{
    let program = read(alloc, slots.cube(), slots.ext(), text)?;
    Ok(program)
}

/// The plaintext whose slots a text writes.
pub fn plaintext(alloc: Global, slots: &Slots, text: &str) -> Result<Vec<i64>, Fail>
    ensures long { IfOk result (λ a. length a.items ≡ cyclotomic.degree slots.now.cube.m) }
    ensures own { IfOk result (λ a. balanced_row slots.now.field.p a.items ≡ a.items) }
{
    let array = array(alloc, slots, text)?;
    encoded(alloc, slots, &array)
}

/// The plaintext with these slots.
fn encoded(alloc: Global, slots: &Slots, x: &SlotArray) -> Result<Vec<i64>, Fail>
    requires { IsArray slots.now.field slots.now.cube x.now }
    ensures long { IfOk result (λ a. length a.items ≡ cyclotomic.degree slots.now.cube.m) }
    ensures own { IfOk result (λ a. balanced_row slots.now.field.p a.items ≡ a.items) }
{
    law_encodes_slots();
    let _cube = slots.cube();
    let row = slots.encode(alloc, x)?;
    Ok(row)
}

/// Asserts that bytes are those of a spelling, in a row.
pub fn assert_bytes<R: Abort + AllocGlobal>(
    rt: &R,
    bytes: &[u8],
    spelling: &str,
    row: &str,
) -> Result<(), Fail> {
    let wanted = text_of(rt.alloc(), spelling)?;
    assert_eq!(rt; bytes, wanted.as_slice(), "{row}");
    Ok(())
}

/// Asserts that an array is printed as a spelling, in a row.
pub fn assert_array<R: Abort + AllocGlobal>(
    rt: &R,
    x: &SlotArray,
    spelling: &str,
    row: &str,
) -> Result<(), Fail> {
    let printed = print_slots(rt.alloc(), x)?;
    assert_bytes(rt, &printed, spelling, row)
}
