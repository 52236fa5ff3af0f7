//! What the instructions of a program make of arrays.
ghost use Rattle.std.specs.Prelude.{◌≡◌, ◌<◌, IfOk, All, length};
ghost use Rattle.algebra.specs.Divisor.{UnitModulo};
ghost use Rattle.hyper_cube.specs.Checks.{dimension_count};
ghost use Rattle.hyper_cube.specs.Torus.{slot_count};
ghost use Rattle.ext_field.specs.Element.{Extension, IsExtension};
ghost use Rattle.slot_array.specs.Arrays.{IsArray};
ghost use Rattle.slot_array.specs.Instructions.{add, sub, neg, mul, auto, rotate};
ghost use Rattle.slot_array.specs.Operations.{operand_count, IsAllowed, meaning_of};

use crate::arrays::SlotArray;
use ext_field::Ext;
use hyper_cube::Cube;
use mod_ring::Ring;
use std::alloc::{AllocError, Global};

/// An instruction of a program on arrays.
#[derive(Clone, Copy, PartialEq, Eq, Debug)]
pub enum PlainOp {
    /// The sum of two arrays, slot by slot.
    Add,
    /// The difference of two arrays, slot by slot.
    Sub,
    /// The product of two arrays, slot by slot.
    Mul,
    /// The negative of an array, slot by slot.
    Neg,
    /// The sum of an array and a constant one.
    AddC,
    /// The product of an array and a constant one.
    MulC,
    /// The automorphism by a unit k modulo m, below m.
    Auto {
        /// The unit.
        k: u32,
    },
    /// The rotation by an amount along a dimension.
    Rotate {
        /// The dimension, from 0.
        dim: u32,
        /// By how many places.
        amount: u32,
    },
}

/// What an instruction makes of its operands: arrays of a cube and an extension, as many as it has. A constant one is the
/// second.
///
/// With p = 2, `1 + X + X^3`, m = 7 and one generator 3 of size 2, `Rotate` along dimension 0 by 1 exchanges the two slots,
/// and `Auto` by 3 takes X, 1 to 1, `X^2`.
pub fn apply(
    alloc: Global,
    cube: &Cube,
    ext: &Ext,
    op: &PlainOp,
    args: &[SlotArray],
) -> Result<SlotArray, AllocError>
    requires count { length args.now ≡ operand_count op.now }
    requires arrays { All (λ a. IsArray ext.now cube.now a) args.now }
    requires allowed { IsAllowed cube.now op.now }
    ensures value { IfOk result (λ y. y ≡ meaning_of ext.now cube.now op.now args.now) }
    ensures array { IfOk result (λ y. IsArray ext.now cube.now y) }
{
    let _degree = ext.degree();
    match op {
        PlainOp::Add | PlainOp::AddC => sums(alloc, cube, ext, &args[0], &args[1]),
        PlainOp::Sub => differences(alloc, cube, ext, &args[0], &args[1]),
        PlainOp::Mul | PlainOp::MulC => products(alloc, cube, ext, &args[0], &args[1]),
        PlainOp::Neg => negatives(alloc, cube, ext, &args[0]),
        PlainOp::Auto { k } => automorphism(alloc, cube, ext, *k, &args[0]),
        PlainOp::Rotate { dim, amount } => rotation(alloc, cube, *dim, *amount, &args[0]),
    }
}

/// The sums slot by slot.
fn sums(
    alloc: Global,
    cube: &Cube,
    ext: &Ext,
    a: &SlotArray,
    b: &SlotArray,
) -> Result<SlotArray, AllocError>
    requires field { IsExtension ext.now }
    requires a { IsArray ext.now cube.now a.now }
    requires b { IsArray ext.now cube.now b.now }
    ensures value { IfOk result (λ y. y ≡ add ext.now cube.now a.now b.now) }
    ensures array { IfOk result (λ y. IsArray ext.now cube.now y) }
{
    let mut elems = Vec::new(alloc);
    for slot in 0..cube.slot_count() {
        let next = ext.add(alloc, &a.elems[slot as usize], &b.elems[slot as usize])?;
        elems.push(next)?;
    }
    Ok(SlotArray { elems })
}

/// The differences slot by slot.
fn differences(
    alloc: Global,
    cube: &Cube,
    ext: &Ext,
    a: &SlotArray,
    b: &SlotArray,
) -> Result<SlotArray, AllocError>
    requires field { IsExtension ext.now }
    requires a { IsArray ext.now cube.now a.now }
    requires b { IsArray ext.now cube.now b.now }
    ensures value { IfOk result (λ y. y ≡ sub ext.now cube.now a.now b.now) }
    ensures array { IfOk result (λ y. IsArray ext.now cube.now y) }
{
    let mut elems = Vec::new(alloc);
    for slot in 0..cube.slot_count() {
        let next = ext.sub(alloc, &a.elems[slot as usize], &b.elems[slot as usize])?;
        elems.push(next)?;
    }
    Ok(SlotArray { elems })
}

/// The products slot by slot.
fn products(
    alloc: Global,
    cube: &Cube,
    ext: &Ext,
    a: &SlotArray,
    b: &SlotArray,
) -> Result<SlotArray, AllocError>
    requires field { IsExtension ext.now }
    requires a { IsArray ext.now cube.now a.now }
    requires b { IsArray ext.now cube.now b.now }
    ensures value { IfOk result (λ y. y ≡ mul ext.now cube.now a.now b.now) }
    ensures array { IfOk result (λ y. IsArray ext.now cube.now y) }
{
    let mut elems = Vec::new(alloc);
    for slot in 0..cube.slot_count() {
        let next = ext.mul(alloc, &a.elems[slot as usize], &b.elems[slot as usize])?;
        elems.push(next)?;
    }
    Ok(SlotArray { elems })
}

/// The negatives slot by slot.
fn negatives(alloc: Global, cube: &Cube, ext: &Ext, a: &SlotArray) -> Result<SlotArray, AllocError>
    requires field { IsExtension ext.now }
    requires a { IsArray ext.now cube.now a.now }
    ensures value { IfOk result (λ y. y ≡ neg ext.now cube.now a.now) }
    ensures array { IfOk result (λ y. IsArray ext.now cube.now y) }
{
    let mut elems = Vec::new(alloc);
    for slot in 0..cube.slot_count() {
        let next = ext.neg(alloc, &a.elems[slot as usize])?;
        elems.push(next)?;
    }
    Ok(SlotArray { elems })
}

/// For each index e the image under `frob^u` of the slot f with `T(e) k = T(f) p^u` modulo m.
fn automorphism(
    alloc: Global,
    cube: &Cube,
    ext: &Ext,
    k: u32,
    a: &SlotArray,
) -> Result<SlotArray, AllocError>
    requires field { IsExtension ext.now }
    requires low { k < cube.now.m }
    requires unit { UnitModulo cube.now.m k }
    requires a { IsArray ext.now cube.now a.now }
    ensures value { IfOk result (λ y. y ≡ auto ext.now cube.now k a.now) }
    ensures array { IfOk result (λ y. IsArray ext.now cube.now y) }
{
    let m = cube.m() as u64;
    let mut elems = Vec::new(alloc);
    for slot in 0..cube.slot_count() {
        let product = cube.element(slot) as u64 * k as u64 % m;
        let (from, power) = cube.locate(product as u32);
        let next = ext.frob(alloc, &a.elems[from as usize], power)?;
        elems.push(next)?;
    }
    Ok(SlotArray { elems })
}

/// For each index the slot that stands `amount` places before it along a dimension, round and round.
fn rotation(
    alloc: Global,
    cube: &Cube,
    dim: u32,
    amount: u32,
    a: &SlotArray,
) -> Result<SlotArray, AllocError>
    requires dim { dim < dimension_count cube.now }
    requires a { length a.now ≡ slot_count cube.now }
    ensures value { IfOk result (λ y. (f : Extension) → y ≡ rotate f cube.now dim amount a.now) }
    ensures array { IfOk result (λ y. (f : Extension) → IsArray f cube.now a.now → IsArray f cube.now y) }
{
    let slots = cube.slot_count();
    let size = cube.size(dim);
    let back = size - amount % size;
    let mut elems = Vec::new(alloc);
    for slot in 0..slots {
        let from = cube.moved(slot, dim, (cube.coordinate(slot, dim) + back) % size);
        let next = a.elems[from as usize].copy(alloc)?;
        elems.push(next)?;
    }
    Ok(SlotArray { elems })
}
