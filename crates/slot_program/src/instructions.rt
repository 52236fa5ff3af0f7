//! The instruction on a line.
ghost use Rattle.std.specs.Prelude.{◌≡◌, map, IfOk};
ghost use Rattle.slot_program.specs.Names.{naming};
ghost use Rattle.slot_program.specs.Text.{assignment_in, const_in, declaration_in, has_output, input_in, instruction_in, new_name, output_in};

use crate::elements::list_of;
use crate::kinds::{Kind, Step};
use crate::operations::{Known, operation_in, value_in};
use ext_field::Ext;
use hyper_cube::Cube;
use line_text::Name;
use std::alloc::{AllocError, Global};

/// An instruction, and the name that it defines, if it defines one.
#[derive(Drop)]
pub(crate) struct Made {
    pub(crate) name: Option<Name>,
    pub(crate) kind: Kind,
}

/// The instruction of these words, if they are one.
#[tactic(auto, unfolding(crate::specs::Text::instruction_in))]
pub(crate) fn instruction_in(
    alloc: Global,
    known: &Known,
    ext: &Ext,
    cube: &Cube,
    words: &[Vec<u8>],
) -> Result<Option<Made>, AllocError>
    ensures { IfOk result (λ found. found ≡ instruction_in (naming known.now.names) known.now.steps.items ext.now cube.now (map (λ word. word.items) words.now)) }
{
    if has_output(known.steps.as_slice()) {
        return Ok(None);
    }
    match words {
        [] => Ok(None),
        [_] => Ok(None),
        [name, sign, words @ ..] if sign.as_slice() == b"=".as_slice() => {
            assignment_in(alloc, known, cube, name.as_slice(), words)
        }
        [word, words @ ..] => declaration_in(alloc, known, ext, cube, word.as_slice(), words),
    }
}

/// The instruction of a line whose second word is `=`, if it is one.
#[tactic(auto, unfolding(crate::specs::Text::assignment_in))]
fn assignment_in(
    alloc: Global,
    known: &Known,
    cube: &Cube,
    name: &[u8],
    words: &[Vec<u8>],
) -> Result<Option<Made>, AllocError>
    ensures { IfOk result (λ found. found ≡ assignment_in (naming known.now.names) known.now.steps.items cube.now name.now (map (λ word. word.items) words.now)) }
{
    let Some(name) = new_name(alloc, known, name)? else {
        return Ok(None);
    };
    let Some(kind) = operation_in(known, cube, words) else {
        return Ok(None);
    };
    let name = Some(name);
    Ok(Some(Made { name, kind }))
}

/// The instruction of a line that is no assignment, if it is one.
#[tactic(auto, unfolding(crate::specs::Text::declaration_in))]
fn declaration_in(
    alloc: Global,
    known: &Known,
    ext: &Ext,
    cube: &Cube,
    word: &[u8],
    words: &[Vec<u8>],
) -> Result<Option<Made>, AllocError>
    ensures { IfOk result (λ found. found ≡ declaration_in (naming known.now.names) known.now.steps.items ext.now cube.now word.now (map (λ word. word.items) words.now)) }
{
    if word == b"input".as_slice() {
        input_in(alloc, known, words)
    } else if word == b"const".as_slice() {
        const_in(alloc, known, ext, cube, words)
    } else if word == b"output".as_slice() {
        Ok(output_in(known, words))
    } else {
        Ok(None)
    }
}

/// An input.
#[tactic(auto, unfolding(crate::specs::Text::input_in))]
fn input_in(alloc: Global, known: &Known, words: &[Vec<u8>]) -> Result<Option<Made>, AllocError>
    ensures { IfOk result (λ found. found ≡ input_in (naming known.now.names) known.now.steps.items (map (λ word. word.items) words.now)) }
{
    let [name] = words else {
        return Ok(None);
    };
    let Some(name) = new_name(alloc, known, name.as_slice())? else {
        return Ok(None);
    };
    let name = Some(name);
    let kind = Kind::Input;
    Ok(Some(Made { name, kind }))
}

/// A constant.
#[tactic(auto, unfolding(crate::specs::Text::const_in))]
fn const_in(
    alloc: Global,
    known: &Known,
    ext: &Ext,
    cube: &Cube,
    words: &[Vec<u8>],
) -> Result<Option<Made>, AllocError>
    ensures { IfOk result (λ found. found ≡ const_in (naming known.now.names) known.now.steps.items ext.now cube.now (map (λ word. word.items) words.now)) }
{
    let [name, items @ ..] = words else {
        return Ok(None);
    };
    let Some(name) = new_name(alloc, known, name.as_slice())? else {
        return Ok(None);
    };
    let Some(elems) = list_of(alloc, ext, cube.slot_count(), items)? else {
        return Ok(None);
    };
    let name = Some(name);
    let kind = Kind::Const { elems };
    Ok(Some(Made { name, kind }))
}

/// The output.
#[tactic(auto, unfolding(crate::specs::Text::output_in))]
fn output_in(known: &Known, words: &[Vec<u8>]) -> Option<Made>
    ensures { result ≡ output_in (naming known.now.names) known.now.steps.items (map (λ word. word.items) words.now) }
{
    let a = value_in(known, words)?;
    let name = None;
    let kind = Kind::Output { a };
    Some(Made { name, kind })
}

/// The name that the word spells, if it spells one that names nothing yet.
#[tactic(auto, unfolding(crate::specs::Text::new_name, line_text::specs::Names::name_of))]
fn new_name(alloc: Global, known: &Known, word: &[u8]) -> Result<Option<Name>, AllocError>
    ensures { IfOk result (λ found. found ≡ new_name (naming known.now.names) known.now.steps.items word.now) }
{
    if known.names.number(word).is_some() {
        return Ok(None);
    }
    Name::read(alloc, word)
}

/// Whether the last step is the output.
#[tactic(auto, unfolding(crate::specs::Text::has_output))]
pub(crate) fn has_output(steps: &[Step]) -> bool
    ensures { result ≡ has_output steps.now }
{
    match steps.last() {
        Some(step) => step.kind.is_output(),
        None => false,
    }
}
