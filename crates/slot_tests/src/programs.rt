//! Programs: how they are read and printed, and what is told of them.
ghost use Rattle.std.specs.Prelude.{◌≡◌, IfOk, is_some};
ghost use Rattle.slot_program.specs.WellFormed.{IsProgram};

use crate::fixtures::{assert_bytes, program};
use crate::rows::{fields_of, named, numbers_of, pair_of, text_of};
use crate::tables::slots_named;
use slot_factor::Slots;
use slot_program::{Program, ProgramFault, Step, autos_of, print, read};
use std::alloc::{AllocError, Global};
use std::process::Abort;
use std::test::Fail;

/// Programs: a name, a table, and the text.
static PROGRAMS: &str = "\
squares:a:# the squares;;input  x;const c 1,0,0 1,0,0;  input y;const d 0,1,0 1*1,1,1;z = mulc x c;w = addc z d;u = auto 3 w;r = rotate 0 1 u;s = sub r y;t = neg s;q = mul t t;a = add q x;output a;
turns:c:input a;const k 1,0 1,0 0,1 2*0,1 1*1,0 16,16 16,16;b = mulc a k;c = auto 31 b;d = auto 5 c;e = auto 1 d;f = auto 5 e;g = auto 3 f;h = rotate 1 3 g;i = add h a;output i;
halves:product:input b;const half 2*33;input a;x = mul b a;y = mulc x half;z = addc y half;w = sub z b;output w;
each:large:input x;input y;const c 131070,5,77 1,0,131069;a = mul x y;b = addc a c;d = sub b x;e = mulc d c;f = neg e;g = auto 5 f;h = add g y;k = rotate 0 1 h;output k;";

/// Their texts as they are printed.
static PRINTED: &str = "\
squares:input v0;const v1 2*1,0,0;input v2;const v3 0,1,0 1,1,1;v4 = mulc v0 v1;v5 = addc v4 v3;v6 = auto 3 v5;v7 = rotate 0 1 v6;v8 = sub v7 v2;v9 = neg v8;v10 = mul v9 v9;v11 = add v10 v0;output v11;
turns:input v0;const v1 2*1,0 3*0,1 1,0 2*16,16;v2 = mulc v0 v1;v3 = auto 31 v2;v4 = auto 5 v3;v5 = auto 1 v4;v6 = auto 5 v5;v7 = auto 3 v6;v8 = rotate 1 3 v7;v9 = add v8 v0;output v9;
halves:input v0;const v1 2*33;input v2;v3 = mul v0 v2;v4 = mulc v3 v1;v5 = addc v4 v1;v6 = sub v5 v0;output v6;
each:input v0;input v1;const v2 131070,5,77 1,0,131069;v3 = mul v0 v1;v4 = addc v3 v2;v5 = sub v4 v0;v6 = mulc v5 v2;v7 = neg v6;v8 = auto 5 v7;v9 = add v8 v1;v10 = rotate 0 1 v9;output v10;";

/// How many inputs they have, the first line that is not basic, the automorphisms other than 1, and the operands of each step.
static PARTS: &str = "\
squares:2:10:3:,,,,0 1,4 3,5,6,7 2,8,9 9,10 0,11
turns:1:9:3 5 31:,,0 1,2,3,4,5,6,7,8 0,9
halves:2:::,,,0 2,3 1,4 1,5 0,6
each:2:11:5:,,,0 1,3 2,4 0,5 2,6,7,8 1,9,10";

/// Two numbers, and the programs as they are printed with these in place of all first and of all second operands.
static CHANGED: &str = "\
squares:2 3:input v0;const v1 2*1,0,0;input v2;const v3 0,1,0 1,1,1;v4 = mulc v2 v3;v5 = addc v2 v3;v6 = auto 3 v2;v7 = rotate 0 1 v2;v8 = sub v2 v3;v9 = neg v2;v10 = mul v2 v3;v11 = add v2 v3;output v2;
turns:5 1:input v0;const v1 2*1,0 3*0,1 1,0 2*16,16;v2 = mulc v5 v1;v3 = auto 31 v5;v4 = auto 5 v5;v5 = auto 1 v5;v6 = auto 5 v5;v7 = auto 3 v5;v8 = rotate 1 3 v5;v9 = add v5 v1;output v5;
halves:4 1:input v0;const v1 2*33;input v2;v3 = mul v4 v1;v4 = mulc v4 v1;v5 = addc v4 v1;v6 = sub v4 v1;output v4;
each:9 2:input v0;input v1;const v2 131070,5,77 1,0,131069;v3 = mul v9 v2;v4 = addc v9 v2;v5 = sub v9 v2;v6 = mulc v9 v2;v7 = neg v9;v8 = auto 5 v9;v9 = add v9 v2;v10 = rotate 0 1 v9;output v9;";

/// Texts over tables, and the first line that breaks a rule.
static TEXTS: &str = "\
a:input x;output x;input y;:3
a:input x;;z = add x y;output z;:3
a:input x;y = add x y;output y;:2
a:input x;const c 2*1,0,0;y = add x c;output y;:3
a:input x;const c 2*1,0,0;y = mul c x;output y;:3
a:input x;const c 2*1,0,0;output c;:3
a:input x;const x 2*1,0,0;output x;:2
a:input x;y = addc x x;output y;:2
a:input x;const c 2*1,0,0;y = mulc c c;output y;:3
a:input x;const c 1,0,0;output x;:2
a:const c 3*1,0,0;:1
a:const c 0*1,1,1 2*1,0,0;:1
a:const c 2*2,0,0;:1
a:const c 1,0 1,0;:1
a:const c 2*1,0,0,0;:1
a:const c 4294967296*1,0,0;:1
a:const c 4294967297*1,0,0;:1
a:const c 1*1*1,0,0 1,0,0;:1
a:const c;:1
a:input x;y = auto 7 x;output y;:2
a:input x;y = auto 0 x;output y;:2
a:input x;y = auto 8 x;output y;:2
c:input x;y = auto 6 x;output y;:2
a:input x;y = rotate 1 0 x;output y;:2
c:input x;y = rotate 2 0 x;output y;:2
a:input x;y = rotate 0 4294967296 x;output y;:2
a:input x;y = neg x x;output y;:2
a:input x;y = turn x;output y;:2
a:input x y;output x;:1
a:input;output x;:1
a:input a.b;output a.b;:1
a:input x;y add x x;output y;:2
a:# a;;  ;input x;y = add x;output y;:5
a:input x;#;output x;z = neg x;:4
a:# a;input x;;y = neg x;:5
large:input x;const c 2*131071,0,0;output x;:2
product:input x;const c 2*64;y = mulc x c;output y:
a:input x;# = add x x;output x;;:
a:input x~;output x~;:";

/// The programs.
fn programs() -> &'static str {
    PROGRAMS
}

/// Their printed texts.
fn printed() -> &'static str {
    PRINTED
}

/// Their parts.
fn parts() -> &'static str {
    PARTS
}

/// Their texts with other operands.
fn changed() -> &'static str {
    CHANGED
}

/// The texts.
fn texts() -> &'static str {
    TEXTS
}

/// The slots and the program of this name.
pub fn program_named<R: Abort + AllocGlobal>(rt: &R, name: &str) -> Result<(Slots, Program), Fail>
    ensures { IfOk result (λ pair. IsProgram pair.0.field pair.0.cube pair.1) }
{
    let (table, text) = named(programs(), name)?.split_once(':').ok_or("no table")?;
    let slots = slots_named(rt, table)?;
    let text = text_of(rt.alloc(), text)?;
    let program = program(rt.alloc(), &slots, &text)?;
    Ok((slots, program))
}

/// Asserts that a program is printed as a spelling.
fn assert_printed<R: Abort + AllocGlobal>(
    rt: &R,
    program: &Program,
    spelling: &str,
) -> Result<(), Fail> {
    assert!(rt; program.steps.len() <= 100000);
    let printed = print(rt.alloc(), program)?;
    assert_bytes(rt, &printed, spelling, spelling)
}

/// Asserts that the steps stand on lines 1, 2, ..
fn assert_lines(rt: &impl Abort, program: &Program) {
    let mut line = 0u32;
    for step in &program.steps {
        line = line.saturating_add(1);
        assert_eq!(rt; step.line, line);
    }
}

/// Asserts that a program is printed as the text of a row, and that this is read as a program that is printed so, a step a line.
fn check_printed<R: Abort + AllocGlobal>(rt: &R, row: &str) -> Result<(), Fail> {
    let (name, wanted) = row.split_once(':').ok_or("no text")?;
    let (slots, first) = program_named(rt, name)?;
    assert_printed(rt, &first, wanted)?;
    let text = text_of(rt.alloc(), wanted)?;
    let again = program(rt.alloc(), &slots, &text)?;
    assert_printed(rt, &again, wanted)?;
    assert_lines(rt, &again);
    Ok(())
}

#[test]
fn printed_and_read_again(rt: HostRuntime) -> Result<(), Fail> {
    for row in printed().lines() {
        check_printed(&rt, row)?;
    }
    Ok(())
}

/// The numbers of none, one or two operands.
fn operands_of(text: &str) -> (Option<u32>, Option<u32>) {
    let mut words = text.split_whitespace();
    let first = words.next().and_then(|word| word.parse::<u32>().ok());
    let second = words.next().and_then(|word| word.parse::<u32>().ok());
    (first, second)
}

/// Asserts that the steps have these operands, with commas between.
fn assert_operands(rt: &impl Abort, program: &Program, wanted: &str) {
    assert_eq!(rt; program.steps.len(), wanted.split(',').count());
    for (step, text) in program.steps.iter().zip(wanted.split(',')) {
        assert_eq!(rt; step.kind.operands(), operands_of(text), "{wanted}");
    }
}

/// Asserts that a program has these automorphisms.
fn assert_autos(
    alloc: Global,
    rt: &impl Abort,
    program: &Program,
    wanted: &str,
) -> Result<(), Fail> {
    let mut autos = Vec::new(alloc);
    for k in &autos_of(alloc, program)? {
        autos.push(u64::from(*k))?;
    }
    let wanted = numbers_of(alloc, wanted)?;
    assert_eq!(rt; autos.as_slice(), wanted.as_slice());
    Ok(())
}

/// Asserts what a row says of the parts of a program.
fn check_parts<R: Abort + AllocGlobal>(rt: &R, row: &str) -> Result<(), Fail> {
    let fields = fields_of(rt.alloc(), row)?;
    let [name, inputs, source, autos, operands] = fields.as_slice() else {
        return Err(Fail::from("no parts"));
    };
    let (_slots, program) = program_named(rt, name)?;
    assert_eq!(rt; program.inputs(), inputs.parse::<u32>()?, "{row}");
    assert_eq!(rt; program.first_source(), source.parse::<u32>().ok(), "{row}");
    assert_operands(rt, &program, operands);
    assert_autos(rt.alloc(), rt, &program, autos)
}

#[test]
fn parts_of_programs(rt: HostRuntime) -> Result<(), Fail> {
    for row in parts().lines() {
        check_parts(&rt, row)?;
    }
    Ok(())
}

/// The value where there was one.
fn in_place_of(operand: Option<u32>, value: u32) -> Option<u32>
    ensures { is_some result ≡ is_some operand }
{
    match operand {
        Some(_) => Some(value),
        None => None,
    }
}

/// The same program with one value for all first operands, and one for all second ones.
fn redirected(alloc: Global, program: &Program, a: u32, b: u32) -> Result<Program, AllocError> {
    let mut steps = Vec::new(alloc);
    for step in &program.steps {
        let (first, second) = step.kind.operands();
        let first = in_place_of(first, a);
        let second = in_place_of(second, b);
        let kind = step.kind.with_operands(alloc, first, second)?;
        steps.push(Step {
            line: step.line,
            kind,
        })?;
    }
    Ok(Program { steps })
}

/// Asserts what a row says of a program with other operands.
fn check_changed<R: Abort + AllocGlobal>(rt: &R, row: &str) -> Result<(), Fail> {
    let fields = fields_of(rt.alloc(), row)?;
    let [name, numbers, wanted] = fields.as_slice() else {
        return Err(Fail::from("no operands"));
    };
    let (_slots, program) = program_named(rt, name)?;
    let (a, b) = pair_of(numbers)?;
    let other = redirected(rt.alloc(), &program, a, b)?;
    assert_printed(rt, &other, wanted)
}

#[test]
fn other_operands(rt: HostRuntime) -> Result<(), Fail> {
    for row in changed().lines() {
        check_changed(&rt, row)?;
    }
    Ok(())
}

/// The first line of a text that breaks a rule, if it is no program.
fn bad_line(alloc: Global, slots: &Slots, text: &[u8]) -> Result<Option<u32>, Fail> {
    match read(alloc, slots.cube(), slots.ext(), text) {
        Ok(_) => Ok(None),
        Err(ProgramFault::Bad(line)) => Ok(Some(line)),
        Err(ProgramFault::Memory) => Err(Fail::from("memory")),
    }
}

/// Asserts what a row says of its text.
fn check_line<R: Abort + AllocGlobal>(rt: &R, row: &str) -> Result<(), Fail> {
    let fields = fields_of(rt.alloc(), row)?;
    let [table, text, wanted] = fields.as_slice() else {
        return Err(Fail::from("no text"));
    };
    let slots = slots_named(rt, table)?;
    let text = text_of(rt.alloc(), text)?;
    let line = bad_line(rt.alloc(), &slots, &text)?;
    assert_eq!(rt; line, wanted.parse::<u32>().ok(), "{row}");
    Ok(())
}

#[test]
fn bad_lines(rt: HostRuntime) -> Result<(), Fail> {
    for row in texts().lines() {
        check_line(&rt, row)?;
    }
    Ok(())
}
