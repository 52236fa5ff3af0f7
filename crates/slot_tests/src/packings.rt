//! Encoding and decoding, and the operations on plaintexts: their coefficients, their norms, and the arrays in their slots.
use crate::fixtures::{assert_array, assert_unit, cyclo_of, plaintext};
use crate::rows::{fields_of, integers_of};
use crate::tables::slots_named;
use slot_factor::{Slots, one_norm};
use std::process::Abort;
use std::test::Fail;

/// Plaintexts: a table, an operation, its arrays, the coefficients that it gives, their norm, and the array in the slots.
static PLAINTEXTS: &str = "\
a:encode:1 0 0;0 0 0;:1 1 1 0 1 0:4:1 0 0;0 0 0;
a:encode:0 1 0;1 0 0;:0 0 0 1 1 1:3:0 1 0;1 0 0;
a:sub:0 1 0;1 0 0;|0 0 1;1 1 1;:0 0 1 1 1 1:4:0 1 1;0 1 1;
a:neg:0 1 0;1 0 0;:0 0 0 1 1 1:3:0 1 0;1 0 0;
a:mul:0 1 0;1 0 0;|0 0 1;1 1 1;:0 1 1 1 1 0:4:1 1 0;1 1 1;
a:auto 6:0 1 0;1 0 0;:0 0 1 1 1 0:3:1 0 0;0 1 0;
a3:add:0 1 0;1 0 0;|0 0 1;1 1 1;:0 1 1 0 0 0:2:0 1 1;0 1 1;
a3:mul:0 1 0;1 0 0;|0 0 1;1 1 1;:0 0 1 0 0 1:2:1 1 0;1 1 1;
a3:auto 3:0 1 0;1 0 0;:0 1 1 0 0 1:3:1 0 0;0 0 1;
c:encode:3 16;0 9;12 1;8 8;1 0;0 1;16 5;7 11;:8 0 6 8 -4 5 2 -1 8 0 2 -1 -4 -6 -4 -3:62:3 16;0 9;12 1;8 8;1 0;0 1;16 5;7 11;
c:add:3 16;0 9;12 1;8 8;1 0;0 1;16 5;7 11;|2 5;1 1;0 3;16 16;4 13;9 0;6 2;15 10;:4 3 -8 7 2 2 3 -4 -8 8 -1 -5 -7 6 5 8:81:5 4;1 10;12 4;7 7;5 13;9 1;5 7;5 4;
c:sub:3 16;0 9;12 1;8 8;1 0;0 1;16 5;7 11;|2 5;1 1;0 3;16 16;4 13;9 0;6 2;15 10;:-5 -3 3 -8 7 8 1 2 7 -8 5 3 -1 -1 4 3:69:1 11;16 8;12 15;9 9;14 4;8 1;10 3;9 1;
c:mul:3 16;0 9;12 1;8 8;1 0;0 1;16 5;7 11;|2 5;1 1;0 3;16 16;4 13;9 0;6 2;15 10;:2 -6 1 1 -4 6 3 6 4 5 -5 -2 -8 0 0 0:53:8 13;10 9;9 2;2 1;4 13;0 9;7 11;10 14;
c:neg:3 16;0 9;12 1;8 8;1 0;0 1;16 5;7 11;:-8 0 -6 -8 4 -5 -2 1 -8 0 -2 1 4 6 4 3:62:14 1;0 8;5 16;9 9;16 0;0 16;1 12;10 6;
c:auto 5:3 16;0 9;12 1;8 8;1 0;0 1;16 5;7 11;:8 -6 -2 -1 4 0 -4 1 8 -5 6 -3 4 0 -2 8:62:0 9;12 1;8 8;3 1;0 1;16 5;7 11;1 0;
d:encode:1 2;0 4;3 3;4 0;:-2 1 -2 -2 2 -2 1 2:14:1 2;0 4;3 3;4 0;
d:add:1 2;0 4;3 3;4 0;|2 1;1 3;0 2;4 4;:1 -2 1 -1 2 2 2 -2:13:3 3;1 2;3 0;3 4;
d:mul:1 2;0 4;3 3;4 0;|2 1;1 3;0 2;4 4;:1 0 -1 2 -2 -2 -1 -1:10:3 3;1 2;3 0;1 1;
d:auto 11:1 2;0 4;3 3;4 0;:0 2 -2 -1 -2 0 1 -1:9:0 2;4 0;4 3;1 1;
four:encode:0 1 2;3 2 1;:2 1 2 0 2 2:9:0 1 2;3 2 1;
four:sub:0 1 2;3 2 1;|2 2 3;1 0 3;:1 2 1 -1 2 2:9:2 3 3;2 2 2;
four:mul:0 1 2;3 2 1;|2 2 3;1 0 3;:2 1 -1 1 1 2:8:3 1 2;3 1 3;
four:neg:0 1 2;3 2 1;:2 -1 2 0 2 2:9:0 3 2;1 2 3;
four:auto 3:0 1 2;3 2 1;:0 0 2 -1 2 0:5:3 3 2;2 1 3;
product:encode:13;64;:6 9:15:13;64;
product:add:13;64;|40;32;:-23 -23:46:53;31;
product:sub:13;64;|40;32;:-30 -24:54:38;32;
product:mul:13;64;|40;32;:-16 2:18:0;33;
product:neg:13;64;:-6 -9:15:52;1;
product:auto 3:13;64;:6 -9:15:64;13;
large:encode:81644 33481 97227;46993 104227 90498;:-61646 -28836 -15111 10213 -50580 36936:203322:81644 33481 97227;46993 104227 90498;
large:add:81644 33481 97227;46993 104227 90498;|123528 110298 96979;85463 120890 69473;:-58146 59251 -64156 -60707 -54177 35972:332409:74101 12708 63135;1385 94046 28900;
large:sub:81644 33481 97227;46993 104227 90498;|123528 110298 96979;85463 120890 69473;:-65146 14148 33934 -49938 -46983 37900:248049:89187 54254 248;92601 114408 21025;
large:mul:81644 33481 97227;46993 104227 90498;|123528 110298 96979;85463 120890 69473;:14383 2450 -52917 -42283 -1979 -54783:168795:118095 100994 68476;84025 84166 36956;
large:neg:81644 33481 97227;46993 104227 90498;:61646 28836 15111 -10213 50580 -36936:203322:49427 97590 33844;84078 26844 40573;
large:auto 4:81644 33481 97227;46993 104227 90498;:-61646 50580 52047 10213 21744 15111:211341:81644 38530 115827;46993 60158 40886;
five:encode:0 1 0 0 0;0 1 1 0 1;0 0 0 0 1;1 0 1 0 0;0 1 0 0 0;0 0 0 0 0;:1 1 1 0 1 1 0 0 1 1 0 0 1 0 1 1 0 0 0 1 1 0 1 1 1 1 0 0 0 0:16:0 1 0 0 0;0 1 1 0 1;0 0 0 0 1;1 0 1 0 0;0 1 0 0 0;0 0 0 0 0;
five:sub:0 1 0 0 0;0 1 1 0 1;0 0 0 0 1;1 0 1 0 0;0 1 0 0 0;0 0 0 0 0;|1 1 0 0 0;0 1 1 0 1;1 0 0 1 0;1 1 0 1 0;1 1 1 1 1;0 1 1 0 0;:0 0 0 0 1 0 1 0 1 1 0 1 0 0 0 0 0 0 1 0 0 0 0 1 0 0 0 1 0 1:9:1 0 0 0 0;0 0 0 0 0;1 0 0 1 1;0 1 1 1 0;1 0 1 1 1;0 1 1 0 0;
five:mul:0 1 0 0 0;0 1 1 0 1;0 0 0 0 1;1 0 1 0 0;0 1 0 0 0;0 0 0 0 0;|1 1 0 0 0;0 1 1 0 1;1 0 0 1 0;1 1 0 1 0;1 1 1 1 1;0 1 1 0 0;:0 1 0 1 1 1 1 1 1 1 1 0 0 0 1 1 0 1 1 1 0 0 1 1 0 1 0 1 1 1:20:0 1 1 0 0;0 1 1 1 0;1 0 1 1 1;0 1 1 1 0;1 1 1 0 1;0 0 0 0 0;
five:auto 6:0 1 0 0 0;0 1 1 0 1;0 0 0 0 1;1 0 1 0 0;0 1 0 0 0;0 0 0 0 0;:0 1 1 1 1 1 0 1 0 1 0 1 0 1 0 1 1 0 1 1 0 0 0 0 0 1 0 0 0 1:15:0 1 1 1 0;0 1 0 1 1;1 0 0 0 1;0 0 1 0 0;0 0 0 0 0;0 1 0 0 0;";

/// The plaintexts.
fn plaintexts() -> &'static str {
    PLAINTEXTS
}

/// What an operation makes of the plaintexts of one or two arrays.
fn made<R: Abort + AllocGlobal>(
    rt: &R,
    slots: &Slots,
    operation: &str,
    arrays: &str,
) -> Result<Vec<i64>, Fail> {
    let (x, y) = arrays.split_once('|').unwrap_or((arrays, arrays));
    let a = plaintext(rt.alloc(), slots, x)?;
    let b = plaintext(rt.alloc(), slots, y)?;
    let row = match operation {
        "encode" => Ok(a),
        "add" => slots.add_packed(rt.alloc(), &a, &b),
        "sub" => slots.sub_packed(rt.alloc(), &a, &b),
        "neg" => slots.neg_packed(rt.alloc(), &a),
        "mul" => slots.mul_packed(rt.alloc(), &cyclo_of(rt, slots)?, &a, &b),
        other => return image(rt, slots, other, x),
    };
    Ok(row?)
}

/// The image of the plaintext of an array under an automorphism, `auto` and its unit.
fn image<R: Abort + AllocGlobal>(
    rt: &R,
    slots: &Slots,
    operation: &str,
    x: &str,
) -> Result<Vec<i64>, Fail> {
    let unit = operation.strip_prefix("auto ").ok_or("no operation")?;
    let k = unit.parse::<u32>()?;
    let cyclo = cyclo_of(rt, slots)?;
    let a = plaintext(rt.alloc(), slots, x)?;
    assert_unit(rt, slots.cube(), k);
    let row = slots.auto_packed(rt.alloc(), &cyclo, k, &a)?;
    Ok(row)
}

/// Asserts that coefficients have a norm.
fn assert_norm(rt: &impl Abort, row: &[i64], norm: u64) {
    assert!(rt; row.len() <= 65536);
    assert!(rt; row.iter().all(|c| c.unsigned_abs() <= 131071));
    assert_eq!(rt; one_norm(row), norm);
}

/// Asserts that the slots of a polynomial are those of an array.
fn assert_slots<R: Abort + AllocGlobal>(
    rt: &R,
    slots: &Slots,
    row: &[i64],
    wanted: &str,
) -> Result<(), Fail> {
    let cyclo = cyclo_of(rt, slots)?;
    assert_eq!(rt; row.len(), cyclo.degree() as usize);
    let array = slots.decode(rt.alloc(), row)?;
    assert_array(rt, &array, wanted, wanted)
}

/// Asserts what an operation of a row makes of its arrays.
fn check_plaintext<R: Abort + AllocGlobal>(rt: &R, row: &str) -> Result<(), Fail> {
    let fields = fields_of(rt.alloc(), row)?;
    let [table, operation, arrays, coefficients, norm, wanted] = fields.as_slice() else {
        return Err(Fail::from("no plaintext"));
    };
    let slots = slots_named(rt, table)?;
    let found = made(rt, &slots, operation, arrays)?;
    let coefficients = integers_of(rt.alloc(), coefficients)?;
    assert_eq!(rt; found.as_slice(), coefficients.as_slice(), "{row}");
    assert_norm(rt, &found, norm.parse::<u64>()?);
    assert_slots(rt, &slots, &found, wanted)
}

#[test]
fn each_operation(rt: HostRuntime) -> Result<(), Fail> {
    for row in plaintexts().lines() {
        check_plaintext(&rt, row)?;
    }
    Ok(())
}
