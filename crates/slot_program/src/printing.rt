//! Printing a program.
ghost use Rattle.std.specs.Prelude.{◌≡◌, ◌≤◌, ◌++◌, [], ◌∷◌, length, map, bytes_eq, codes, decimal, IfOk, OnOk};
ghost use Rattle.std.specs.List.{flat_map, join_with_byte};
ghost use Rattle.slot_program.specs.Printed.{value_name, element_text, item_text, runs_of, line_for, printed, ReadsPrintedPrograms, RunsAreLongest};

use crate::kinds::Kind;
use crate::programs::Program;
use ext_field::ExtElem;
use line_text::put_number;
use slot_array::SlotArray;
use std::alloc::{AllocError, Global};

/// The text of a program of at most 100,000 steps: a line for each step, with value i under the name `v` followed by i, one
/// space between words, and in items the longest runs.
///
/// The product of two inputs is printed as `input v0`, `input v1`, `v2 = mul v0 v1`, `output v2`.
#[tactic(auto, unfolding(crate::specs::Printed::printed))]
pub fn print(alloc: Global, program: &Program) -> Result<Vec<u8>, AllocError>
    requires { length program.now ≤ 100000 }
    ensures { IfOk result (λ text. text.items ≡ printed program.now) }
{
    let mut text = Vec::new(alloc);
    for (i, step) in program.steps.iter().enumerate() {
        put_line(&mut text, i as u32, &step.kind)?;
        text.push(b'\n')?;
    }
    Ok(text)
}

/// Appends the line of an instruction that gives value i, without its newline.
#[tactic(auto, unfolding(crate::specs::Printed::line_for))]
fn put_line(out: &mut Vec<u8>, i: u32, kind: &Kind) -> Result<(), AllocError>
    ensures { OnOk result (out.new.items ≡ out.old.items ++ line_for i kind.now) }
{
    match kind {
        Kind::Input => put_plain(out, b"input", i),
        Kind::Const { elems } => put_const(out, i, elems),
        Kind::Add { a, b } => put_two(out, i, b" = add", *a, *b),
        Kind::Sub { a, b } => put_two(out, i, b" = sub", *a, *b),
        Kind::Mul { a, b } => put_two(out, i, b" = mul", *a, *b),
        Kind::Neg { a } => put_one(out, i, b" = neg", *a),
        Kind::AddC { a, c } => put_two(out, i, b" = addc", *a, *c),
        Kind::MulC { a, c } => put_two(out, i, b" = mulc", *a, *c),
        Kind::Auto { k, a } => put_auto(out, i, *k, *a),
        Kind::Rotate { dim, amount, a } => put_rotate(out, i, *dim, *amount, *a),
        Kind::Output { a } => put_plain(out, b"output", *a),
    }
}

/// Appends a constant.
fn put_const(out: &mut Vec<u8>, i: u32, elems: &SlotArray) -> Result<(), AllocError>
    ensures { OnOk result (out.new.items ≡ out.old.items ++ join_with_byte 32 (codes "const" ∷ value_name i ∷ map item_text (runs_of elems.now))) }
{
    put_plain(out, b"const", i)?;
    put_items(out, elems.elems.as_slice())?;
    Ok(())
}

/// Appends a word and a name.
fn put_plain(out: &mut Vec<u8>, word: &[u8], i: u32) -> Result<(), AllocError>
    ensures { OnOk result (out.new.items ≡ out.old.items ++ word.now ++ 32 ∷ value_name i) }
{
    out.extend_from_slice(word)?;
    put_name(out, i)
}

/// Appends an instruction of one value.
fn put_one(out: &mut Vec<u8>, i: u32, word: &[u8], a: u32) -> Result<(), AllocError>
    ensures { OnOk result (out.new.items ≡ out.old.items ++ value_name i ++ word.now ++ 32 ∷ value_name a) }
{
    put_defined(out, i, word)?;
    put_name(out, a)
}

/// Appends an instruction of two values.
fn put_two(out: &mut Vec<u8>, i: u32, word: &[u8], a: u32, b: u32) -> Result<(), AllocError>
    ensures { OnOk result (out.new.items ≡ out.old.items ++ value_name i ++ word.now ++ 32 ∷ value_name a ++ 32 ∷ value_name b) }
{
    put_one(out, i, word, a)?;
    put_name(out, b)
}

/// Appends an automorphism.
fn put_auto(out: &mut Vec<u8>, i: u32, k: u32, a: u32) -> Result<(), AllocError>
    ensures { OnOk result (out.new.items ≡ out.old.items ++ value_name i ++ codes " = auto" ++ 32 ∷ decimal k ++ 32 ∷ value_name a) }
{
    put_defined(out, i, b" = auto")?;
    put_word(out, k)?;
    put_name(out, a)
}

/// Appends a rotation.
fn put_rotate(out: &mut Vec<u8>, i: u32, dim: u32, amount: u32, a: u32) -> Result<(), AllocError>
    ensures { OnOk result (out.new.items ≡ out.old.items ++ value_name i ++ codes " = rotate" ++ 32 ∷ decimal dim ++ 32 ∷ decimal amount ++ 32 ∷ value_name a) }
{
    put_defined(out, i, b" = rotate")?;
    put_word(out, dim)?;
    put_word(out, amount)?;
    put_name(out, a)
}

/// Appends the name that an instruction defines, and a text.
fn put_defined(out: &mut Vec<u8>, i: u32, word: &[u8]) -> Result<(), AllocError>
    ensures { OnOk result (out.new.items ≡ out.old.items ++ value_name i ++ word.now) }
{
    out.push(b'v')?;
    put_number(out, u64::from(i))?;
    out.extend_from_slice(word)
}

/// Appends a space and the name of a value.
fn put_name(out: &mut Vec<u8>, i: u32) -> Result<(), AllocError>
    ensures { OnOk result (out.new.items ≡ out.old.items ++ 32 ∷ value_name i) }
{
    out.extend_from_slice(b" v")?;
    put_number(out, u64::from(i))
}

/// Appends a space and a number.
fn put_word(out: &mut Vec<u8>, x: u32) -> Result<(), AllocError>
    ensures { OnOk result (out.new.items ≡ out.old.items ++ 32 ∷ decimal x) }
{
    out.push(b' ')?;
    put_number(out, u64::from(x))
}

/// Appends the items of a list of elements, a space before each.
#[tactic(auto, unfolding(crate::specs::Printed::runs_of))]
fn put_items(out: &mut Vec<u8>, elems: &[ExtElem]) -> Result<(), AllocError>
    ensures { OnOk result (out.new.items ≡ out.old.items ++ flat_map (λ run. 32 ∷ item_text run) (runs_of (map (λ elem. elem) elems.now))) }
{
    let Some((first, rest)) = elems.split_first() else {
        return Ok(());
    };
    let mut element = first;
    let mut repeats = 1;
    for next in rest {
        if same(element, next) {
            repeats += 1;
        } else {
            put_item(out, repeats, element)?;
            element = next;
            repeats = 1;
        }
    }
    put_item(out, repeats, element)?;
    Ok(())
}

/// Appends a space and an item.
fn put_item(out: &mut Vec<u8>, repeats: u64, element: &ExtElem) -> Result<(), AllocError>
    ensures { OnOk result (out.new.items ≡ out.old.items ++ 32 ∷ item_text (repeats, element.now)) }
{
    out.push(b' ')?;
    if repeats > 1 {
        put_number(out, repeats)?;
        out.push(b'*')?;
    }
    put_element(out, element)
}

/// Appends an element.
fn put_element(out: &mut Vec<u8>, element: &ExtElem) -> Result<(), AllocError>
    ensures { OnOk result (out.new.items ≡ out.old.items ++ element_text element.now) }
{
    let count = element.len();
    for i in 0..count {
        put_number(out, element.coeff(i))?;
        if i + 1 < count {
            out.push(b',')?;
        }
    }
    Ok(())
}

/// Whether two elements have the same coefficients.
fn same(a: &ExtElem, b: &ExtElem) -> bool
    ensures { result ≡ bytes_eq a.now b.now }
{
    if a.len() != b.len() {
        return false;
    }
    let count = a.len();
    for i in 0..count {
        if a.coeff(i) != b.coeff(i) {
            return false;
        }
    }
    true
}

/// The law that a printed program is read again, with the same instructions, step i on line i + 1.
#[tactic(auto, using(crate::proofs::PrintedPrograms::printed_programs_are_read))]
pub fn law_print()
    ensures { ReadsPrintedPrograms }
{}

/// The law that the runs of a list of elements spell it, that none is empty, and that no two neighbours are of one element.
pub fn law_runs()
    ensures { RunsAreLongest }
{}
