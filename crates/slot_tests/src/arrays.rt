//! What instructions make of arrays.
ghost use Rattle.std.specs.Prelude.{◌≡◌, IfOk};
ghost use Rattle.slot_array.specs.Operations.{operand_count, IsAllowed};

use crate::fixtures::{arrays_of, assert_array, assert_unit};
use crate::rows::{fields_of, pair_of};
use crate::tables::slots_named;
use hyper_cube::Cube;
use slot_array::{PlainOp, SlotArray, apply};
use slot_factor::Slots;
use std::process::Abort;
use std::test::Fail;

/// Instructions: a table, the instruction, its arrays, and what it makes of them.
static INSTRUCTIONS: &str = "\
a:sub:0 1 0;1 0 0;|0 0 1;1 1 1;:0 1 1;0 1 1;
a:neg:0 1 0;1 0 0;:0 1 0;1 0 0;
a:rotate 0 1:0 1 0;1 0 0;:1 0 0;0 1 0;
a:auto 2:0 1 0;1 0 0;:0 0 1;1 0 0;
a:auto 5:0 1 0;1 0 0;:1 0 0;0 0 1;
a3:auto 1:0 1 0;1 0 0;:0 1 0;1 0 0;
a3:auto 3:0 1 0;1 0 0;:1 0 0;0 0 1;
a3:rotate 0 1:0 1 0;1 0 0;:1 0 0;0 1 0;
a3:rotate 0 2:0 1 0;1 0 0;:0 1 0;1 0 0;
c:add:1 1;2 1;3 1;4 1;5 1;6 1;7 1;8 1;|2 5;1 1;0 3;16 16;4 13;9 0;6 2;15 10;:3 6;3 2;3 4;3 0;9 14;15 1;13 3;6 11;
c:sub:1 1;2 1;3 1;4 1;5 1;6 1;7 1;8 1;|2 5;1 1;0 3;16 16;4 13;9 0;6 2;15 10;:16 13;1 0;3 15;5 2;1 5;14 1;1 16;10 8;
c:mul:1 1;2 1;3 1;4 1;5 1;6 1;7 1;8 1;|2 5;1 1;0 3;16 16;4 13;9 0;6 2;15 10;:0 7;5 3;9 9;10 12;8 1;3 9;14 3;14 10;
c:neg:1 1;2 1;3 1;4 1;5 1;6 1;7 1;8 1;:16 16;15 16;14 16;13 16;12 16;11 16;10 16;9 16;
c:addc:1 1;2 1;3 1;4 1;5 1;6 1;7 1;8 1;|2 5;1 1;0 3;16 16;4 13;9 0;6 2;15 10;:3 6;3 2;3 4;3 0;9 14;15 1;13 3;6 11;
c:mulc:1 1;2 1;3 1;4 1;5 1;6 1;7 1;8 1;|2 5;1 1;0 3;16 16;4 13;9 0;6 2;15 10;:0 7;5 3;9 9;10 12;8 1;3 9;14 3;14 10;
c:auto 5:1 1;2 1;3 1;4 1;5 1;6 1;7 1;8 1;:2 1;3 1;4 1;1 16;6 1;7 1;8 1;5 16;
c:auto 31:1 1;2 1;3 1;4 1;5 1;6 1;7 1;8 1;:5 1;6 1;7 1;8 1;1 1;2 1;3 1;4 1;
c:auto 7:1 1;2 1;3 1;4 1;5 1;6 1;7 1;8 1;:7 1;8 1;5 16;6 16;3 1;4 1;1 16;2 16;
c:rotate 0 1:1 1;2 1;3 1;4 1;5 1;6 1;7 1;8 1;:5 1;6 1;7 1;8 1;1 1;2 1;3 1;4 1;
c:rotate 1 3:1 1;2 1;3 1;4 1;5 1;6 1;7 1;8 1;:2 1;3 1;4 1;1 1;6 1;7 1;8 1;5 1;
c:rotate 1 4294967295:1 1;2 1;3 1;4 1;5 1;6 1;7 1;8 1;:2 1;3 1;4 1;1 1;6 1;7 1;8 1;5 1;
d:mul:1 0;2 0;3 0;4 0;|2 1;1 3;0 2;4 4;:2 1;2 1;0 1;1 1;
d:auto 13:1 0;2 0;3 0;4 0;:2 0;1 0;4 0;3 0;
d:auto 5:1 0;2 0;3 0;4 0;:1 0;2 0;3 0;4 0;
d:rotate 0 1:1 0;2 0;3 0;4 0;:3 0;4 0;1 0;2 0;
d:rotate 1 1:1 0;2 0;3 0;4 0;:2 0;1 0;4 0;3 0;
four:mul:0 1 2;3 2 1;|2 2 3;1 0 3;:3 1 2;3 1 3;
four:mulc:0 1 2;3 2 1;|2 2 3;1 0 3;:3 1 2;3 1 3;
four:neg:0 1 2;3 2 1;:0 3 2;1 2 3;
four:auto 6:0 1 2;3 2 1;:3 2 1;0 1 2;
four:auto 3:0 1 2;3 2 1;:3 3 2;2 1 3;
four:rotate 0 3:0 1 2;3 2 1;:3 2 1;0 1 2;
product:addc:13;64;|40;32;:53;31;
product:mul:13;64;|40;32;:0;33;
product:auto 3:13;64;:64;13;
large:add:81644 33481 97227;46993 104227 90498;|123528 110298 96979;85463 120890 69473;:74101 12708 63135;1385 94046 28900;
large:sub:81644 33481 97227;46993 104227 90498;|123528 110298 96979;85463 120890 69473;:89187 54254 248;92601 114408 21025;
large:mul:81644 33481 97227;46993 104227 90498;|123528 110298 96979;85463 120890 69473;:118095 100994 68476;84025 84166 36956;
large:neg:81644 33481 97227;46993 104227 90498;:49427 97590 33844;84078 26844 40573;
large:addc:81644 33481 97227;46993 104227 90498;|123528 110298 96979;85463 120890 69473;:74101 12708 63135;1385 94046 28900;
large:mulc:81644 33481 97227;46993 104227 90498;|123528 110298 96979;85463 120890 69473;:118095 100994 68476;84025 84166 36956;
large:auto 4:81644 33481 97227;46993 104227 90498;:81644 38530 115827;46993 60158 40886;
large:rotate 0 0:81644 33481 97227;46993 104227 90498;:81644 33481 97227;46993 104227 90498;
five:sub:0 1 0 0 0;0 1 1 0 1;0 0 0 0 1;1 0 1 0 0;0 1 0 0 0;0 0 0 0 0;|1 1 0 0 0;0 1 1 0 1;1 0 0 1 0;1 1 0 1 0;1 1 1 1 1;0 1 1 0 0;:1 0 0 0 0;0 0 0 0 0;1 0 0 1 1;0 1 1 1 0;1 0 1 1 1;0 1 1 0 0;
five:mulc:0 1 0 0 0;0 1 1 0 1;0 0 0 0 1;1 0 1 0 0;0 1 0 0 0;0 0 0 0 0;|1 1 0 0 0;0 1 1 0 1;1 0 0 1 0;1 1 0 1 0;1 1 1 1 1;0 1 1 0 0;:0 1 1 0 0;0 1 1 1 0;1 0 1 1 1;0 1 1 1 0;1 1 1 0 1;0 0 0 0 0;
five:auto 6:0 1 0 0 0;0 1 1 0 1;0 0 0 0 1;1 0 1 0 0;0 1 0 0 0;0 0 0 0 0;:0 1 1 1 0;0 1 0 1 1;1 0 0 0 1;0 0 1 0 0;0 0 0 0 0;0 1 0 0 0;
five:rotate 0 1:0 1 0 0 0;0 1 1 0 1;0 0 0 0 1;1 0 1 0 0;0 1 0 0 0;0 0 0 0 0;:0 0 0 0 0;0 1 0 0 0;0 1 1 0 1;0 0 0 0 1;1 0 1 0 0;0 1 0 0 0;
five:rotate 0 4:0 1 0 0 0;0 1 1 0 1;0 0 0 0 1;1 0 1 0 0;0 1 0 0 0;0 0 0 0 0;:0 0 0 0 1;1 0 1 0 0;0 1 0 0 0;0 0 0 0 0;0 1 0 0 0;0 1 1 0 1;";

/// The instructions.
fn instructions() -> &'static str {
    INSTRUCTIONS
}

/// The instruction that a text names.
fn operation<R: Abort + AllocGlobal>(rt: &R, cube: &Cube, text: &str) -> Result<PlainOp, Fail>
    ensures { IfOk result (λ op. IsAllowed cube.now op) }
{
    let (name, numbers) = text.split_once(' ').unwrap_or((text, ""));
    match name {
        "add" => Ok(PlainOp::Add),
        "sub" => Ok(PlainOp::Sub),
        "mul" => Ok(PlainOp::Mul),
        "neg" => Ok(PlainOp::Neg),
        "addc" => Ok(PlainOp::AddC),
        "mulc" => Ok(PlainOp::MulC),
        "auto" => automorphism(rt, cube, numbers),
        _ => rotation(rt, cube, numbers),
    }
}

/// The automorphism by the unit that a text writes.
fn automorphism(rt: &impl Abort, cube: &Cube, text: &str) -> Result<PlainOp, Fail>
    ensures { IfOk result (λ op. IsAllowed cube.now op) }
{
    let k = text.parse::<u32>()?;
    assert_unit(rt, cube, k);
    Ok(PlainOp::Auto { k })
}

/// The rotation by the dimension and the amount that a text writes.
fn rotation(rt: &impl Abort, cube: &Cube, text: &str) -> Result<PlainOp, Fail>
    ensures { IfOk result (λ op. IsAllowed cube.now op) }
{
    let (dim, amount) = pair_of(text)?;
    assert!(rt; dim < cube.dims());
    Ok(PlainOp::Rotate { dim, amount })
}

/// How many arrays an instruction takes.
fn operands_of(op: &PlainOp) -> usize
    ensures { result ≡ operand_count op.now }
{
    match op {
        PlainOp::Neg | PlainOp::Auto { .. } | PlainOp::Rotate { .. } => 1,
        _ => 2,
    }
}

/// What an instruction makes of the arrays of a text.
fn made<R: Abort + AllocGlobal>(
    rt: &R,
    slots: &Slots,
    instruction: &str,
    arrays: &str,
) -> Result<SlotArray, Fail> {
    let args = arrays_of(rt.alloc(), slots, arrays)?;
    let cube = slots.cube();
    let op = operation(rt, cube, instruction)?;
    assert_eq!(rt; args.len(), operands_of(&op));
    let made = apply(rt.alloc(), cube, slots.ext(), &op, &args)?;
    Ok(made)
}

/// Asserts what an instruction of a row makes of its arrays.
fn check_instruction<R: Abort + AllocGlobal>(rt: &R, row: &str) -> Result<(), Fail> {
    let fields = fields_of(rt.alloc(), row)?;
    let [table, instruction, arrays, wanted] = fields.as_slice() else {
        return Err(Fail::from("no instruction"));
    };
    let slots = slots_named(rt, table)?;
    let found = made(rt, &slots, instruction, arrays)?;
    assert_array(rt, &found, wanted, row)
}

#[test]
fn each_instruction(rt: HostRuntime) -> Result<(), Fail> {
    for row in instructions().lines() {
        check_instruction(&rt, row)?;
    }
    Ok(())
}
