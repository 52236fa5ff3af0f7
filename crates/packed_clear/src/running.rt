//! The run of a program, a step after another.
ghost use Rattle.std.specs.Prelude.{◌≡◌, ◌<◌, true, All, IfOk, length};
ghost use Rattle.cyclotomic.specs.Cyclotomic.{degree};
ghost use Rattle.slot_array.specs.Arrays.{IsArray};
ghost use Rattle.slot_array.specs.Instructions.{rotate};
ghost use Rattle.slot_laws.specs.Slots as packing;
ghost use Rattle.slot_program.specs.Kinds.{is_input};
ghost use Rattle.slot_program.specs.Program.{input_count, left_after, meaning, value_of};
ghost use Rattle.slot_program.specs.WellFormed.{IsProgram, IsRotation};
ghost use Rattle.packed_clear.specs.Packed.{IsPacked, Packs, IsOver, arrays_in};

use cyclo_poly::Cyclo;
use hyper_cube::Cube;
use slot_array::{PlainOp, SlotArray, apply};
use slot_factor::Slots;
use slot_program::{Kind, Program};
use std::alloc::{AllocError, Global};

/// The array of the program's output, where the inputs are these arrays, as many as the program takes.
///
/// Each value is held as a polynomial with n coefficients, balanced residues modulo p, whose slots are the value's elements.
/// Inputs and constants are encoded, and the output is decoded. Sums, products and automorphisms are those of polynomials;
/// an instruction that is not basic is run on the array in the slots. The only error is want of memory.
///
/// With p = 2, `1 + X + X^3`, m = 7 and two slots, `input x`, `y = mul x x`, `output y` takes X, 1 to `X^2`, 1.
pub fn run_clear(
    alloc: Global,
    slots: &Slots,
    cyclo: &Cyclo,
    program: &Program,
    inputs: &[SlotArray],
) -> Result<SlotArray, AllocError>
    requires same_m { cyclo.now ≡ slots.now.cube.m }
    requires program { IsProgram slots.now.field slots.now.cube program.now }
    requires count { length inputs.now ≡ input_count program.now }
    requires arrays { All (λ x. IsArray slots.now.field slots.now.cube x) inputs.now }
    ensures value { IfOk result (λ y. y ≡ meaning slots.now.field slots.now.cube program.now inputs.now) }
    ensures array { IfOk result (λ y. IsArray slots.now.field slots.now.cube y) }
{
    let mut values: Vec<Vec<i64>> = Vec::new(alloc);
    let mut left = inputs;
    for step in &program.steps {
        let value = value_of(alloc, slots, cyclo, values.as_slice(), left, &step.kind)?;
        values.push(value)?;
        left = left_after(&step.kind, left);
    }
    let last = values.len() - 1;
    slots.decode(alloc, values[last].as_slice())
}

/// The inputs that are left after an instruction.
fn left_after<'a>(kind: &Kind, inputs: &'a [SlotArray]) -> &'a [SlotArray]
    requires { is_input kind.now ≡ true → 0 < length inputs.now }
    ensures { result.now ≡ left_after kind.now inputs.now }
{
    match kind {
        Kind::Input => &inputs[1..],
        _ => inputs,
    }
}

/// The packed value of an instruction, of the values so far and the inputs that are left.
fn value_of(
    alloc: Global,
    slots: &Slots,
    cyclo: &Cyclo,
    values: &[Vec<i64>],
    inputs: &[SlotArray],
    kind: &Kind,
) -> Result<Vec<i64>, AllocError>
    requires same_m { cyclo.now ≡ slots.now.cube.m }
    requires over { IsOver slots.now.field slots.now.cube (length values.now) kind.now }
    requires packed { All (λ a. IsPacked slots.now.field slots.now.cube a.items) values.now }
    requires input { is_input kind.now ≡ true → 0 < length inputs.now }
    requires arrays { All (λ x. IsArray slots.now.field slots.now.cube x) inputs.now }
    ensures { IfOk result (λ a. Packs slots.now.field slots.now.cube
        (value_of slots.now.field slots.now.cube (arrays_in slots.now.field slots.now.cube values.now) inputs.now kind.now) a.items) }
{
    let cube = slots.cube();
    match kind {
        Kind::Input => slots.encode(alloc, &inputs[0]),
        Kind::Const { elems } => slots.encode(alloc, elems),
        Kind::Add { a, b } => slots.add_packed(alloc, &values[*a as usize], &values[*b as usize]),
        Kind::Sub { a, b } => slots.sub_packed(alloc, &values[*a as usize], &values[*b as usize]),
        Kind::Mul { a, b } => {
            slots.mul_packed(alloc, cyclo, &values[*a as usize], &values[*b as usize])
        }
        Kind::Neg { a } => slots.neg_packed(alloc, &values[*a as usize]),
        Kind::AddC { a, c } => slots.add_packed(alloc, &values[*a as usize], &values[*c as usize]),
        Kind::MulC { a, c } => {
            slots.mul_packed(alloc, cyclo, &values[*a as usize], &values[*c as usize])
        }
        Kind::Auto { k, a } => slots.auto_packed(alloc, cyclo, *k, &values[*a as usize]),
        Kind::Rotate { dim, amount, a } => {
            rotated(alloc, slots, cube, *dim, *amount, &values[*a as usize])
        }
        Kind::Output { a } => values[*a as usize].as_slice().to_vec(alloc),
    }
}

/// The packed value whose slots are those of `a` after a rotation: decoded, rotated as an array, and encoded.
fn rotated(
    alloc: Global,
    slots: &Slots,
    cube: &Cube,
    dim: u32,
    amount: u32,
    a: &[i64],
) -> Result<Vec<i64>, AllocError>
    requires same_cube { cube.now ≡ slots.now.cube }
    requires rotation { IsRotation slots.now.cube dim amount }
    requires packed { length a.now ≡ degree slots.now.cube.m }
    ensures { IfOk result (λ r. Packs slots.now.field slots.now.cube
        (rotate slots.now.field slots.now.cube dim amount (packing.slots slots.now.field slots.now.cube a.now)) r.items) }
{
    let array = slots.decode(alloc, a)?;
    let op = PlainOp::Rotate { dim, amount };
    let turned = apply(alloc, cube, slots.ext(), &op, &[array])?;
    slots.encode(alloc, &turned)
}
