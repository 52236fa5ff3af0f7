//! Runs of programs on arrays.
use crate::fixtures::{arrays_of, assert_array, cyclo_of};
use crate::programs::program_named;
use crate::rows::fields_of;
use packed_clear::run_clear;
use std::process::Abort;
use std::test::Fail;

/// Runs: a program, its arrays, and the array of its output.
static RUNS: &str = "\
squares:0 1 0;1 0 0;|0 0 1;1 1 1;:0 0 1;0 0 1;
turns:1 1;2 1;3 1;4 1;5 1;6 1;7 1;8 1;:4 15;5 14;4 2;6 0;12 9;12 10;10 6;14 0;
halves:13;64;|40;32;:20;18;
each:81644 33481 97227;46993 104227 90498;|123528 110298 96979;85463 120890 69473;:42166 40138 42263;36901 89423 23536;";

/// The runs.
fn runs() -> &'static str {
    RUNS
}

/// Asserts what a program of a row makes of its arrays.
fn check_run<R: Abort + AllocGlobal>(rt: &R, row: &str) -> Result<(), Fail> {
    let fields = fields_of(rt.alloc(), row)?;
    let [name, arrays, wanted] = fields.as_slice() else {
        return Err(Fail::from("no run"));
    };
    let (slots, program) = program_named(rt, name)?;
    let inputs = arrays_of(rt.alloc(), &slots, arrays)?;
    assert_eq!(rt; inputs.len(), program.inputs() as usize);
    let cyclo = cyclo_of(rt, &slots)?;
    let output = run_clear(rt.alloc(), &slots, &cyclo, &program, &inputs)?;
    assert_array(rt, &output, wanted, row)
}

#[test]
fn outputs(rt: HostRuntime) -> Result<(), Fail> {
    for row in runs().lines() {
        check_run(&rt, row)?;
    }
    Ok(())
}
