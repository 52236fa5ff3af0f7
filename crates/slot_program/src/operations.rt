//! The instructions that make a value of other values.
ghost use Rattle.std.specs.Prelude.{◌≡◌, ◌<◌, map};
ghost use Rattle.algebra.specs.Divisor.{is_unit};
ghost use Rattle.slot_program.specs.Kinds.{is_constant};
ghost use Rattle.slot_program.specs.Names.{naming};
ghost use Rattle.slot_program.specs.Text.{auto_in, constant_at, operation_in, rotate_in, small_number_of, value_and_constant_in, value_at, value_in, values_in};

use crate::kinds::{Kind, Step};
use crate::names::Names;
use hyper_cube::Cube;
use line_text::number;

/// What a reader knows when it comes to a line: the names so far, and the steps.
#[derive(Drop)]
pub(crate) struct Known {
    pub(crate) names: Names,
    pub(crate) steps: Vec<Step>,
}

/// What the words after `=` ask for, if they are an instruction.
#[tactic(auto, unfolding(crate::specs::Text::operation_in))]
pub(crate) fn operation_in(known: &Known, cube: &Cube, words: &[Vec<u8>]) -> Option<Kind>
    ensures { result ≡ operation_in (naming known.now.names) known.now.steps.items cube.now (map (λ word. word.items) words.now) }
{
    let (word, words) = words.split_first()?;
    let word = word.as_slice();
    if word == b"add".as_slice() {
        let (a, b) = values_in(known, words)?;
        Some(Kind::Add { a, b })
    } else if word == b"sub".as_slice() {
        let (a, b) = values_in(known, words)?;
        Some(Kind::Sub { a, b })
    } else if word == b"mul".as_slice() {
        let (a, b) = values_in(known, words)?;
        Some(Kind::Mul { a, b })
    } else if word == b"neg".as_slice() {
        let a = value_in(known, words)?;
        Some(Kind::Neg { a })
    } else if word == b"addc".as_slice() {
        let (a, c) = value_and_constant_in(known, words)?;
        Some(Kind::AddC { a, c })
    } else if word == b"mulc".as_slice() {
        let (a, c) = value_and_constant_in(known, words)?;
        Some(Kind::MulC { a, c })
    } else if word == b"auto".as_slice() {
        auto_in(known, cube, words)
    } else if word == b"rotate".as_slice() {
        rotate_in(known, cube, words)
    } else {
        None
    }
}

/// An automorphism by a unit.
#[tactic(auto, unfolding(crate::specs::Text::auto_in))]
fn auto_in(known: &Known, cube: &Cube, words: &[Vec<u8>]) -> Option<Kind>
    ensures { result ≡ auto_in (naming known.now.names) known.now.steps.items cube.now (map (λ word. word.items) words.now) }
{
    let [k, a] = words else {
        return None;
    };
    let unit = number(k.as_slice())?;
    let a = value_at(known, a.as_slice())?;
    if 0 < unit && unit < u64::from(cube.m()) && is_unit(cube.m(), unit as u32) {
        Some(Kind::Auto { k: unit as u32, a })
    } else {
        None
    }
}

/// A rotation along a dimension.
#[tactic(auto, unfolding(crate::specs::Text::rotate_in))]
fn rotate_in(known: &Known, cube: &Cube, words: &[Vec<u8>]) -> Option<Kind>
    ensures { result ≡ rotate_in (naming known.now.names) known.now.steps.items cube.now (map (λ word. word.items) words.now) }
{
    let [i, v, a] = words else {
        return None;
    };
    let dim = number(i.as_slice())?;
    let amount = small_number_of(v.as_slice())?;
    let a = value_at(known, a.as_slice())?;
    if dim < u64::from(cube.dims()) {
        let dim = dim as u32;
        Some(Kind::Rotate { dim, amount, a })
    } else {
        None
    }
}

/// The number of the one value that is named.
#[tactic(auto, unfolding(crate::specs::Text::value_in))]
pub(crate) fn value_in(known: &Known, words: &[Vec<u8>]) -> Option<u32>
    ensures { result ≡ value_in (naming known.now.names) known.now.steps.items (map (λ word. word.items) words.now) }
{
    let [a] = words else {
        return None;
    };
    value_at(known, a.as_slice())
}

/// The numbers of two values.
#[tactic(auto, unfolding(crate::specs::Text::values_in))]
fn values_in(known: &Known, words: &[Vec<u8>]) -> Option<(u32, u32)>
    ensures { result ≡ values_in (naming known.now.names) known.now.steps.items (map (λ word. word.items) words.now) }
{
    let [a, b] = words else {
        return None;
    };
    let a = value_at(known, a.as_slice())?;
    let b = value_at(known, b.as_slice())?;
    Some((a, b))
}

/// The numbers of a value and of a constant.
#[tactic(auto, unfolding(crate::specs::Text::value_and_constant_in))]
fn value_and_constant_in(known: &Known, words: &[Vec<u8>]) -> Option<(u32, u32)>
    ensures { result ≡ value_and_constant_in (naming known.now.names) known.now.steps.items (map (λ word. word.items) words.now) }
{
    let [a, c] = words else {
        return None;
    };
    let a = value_at(known, a.as_slice())?;
    let c = constant_at(known, c.as_slice())?;
    Some((a, c))
}

/// The number of the value with this name, if it is no constant.
#[tactic(auto, unfolding(crate::specs::Text::value_at))]
fn value_at(known: &Known, word: &[u8]) -> Option<u32>
    ensures { result ≡ value_at (naming known.now.names) known.now.steps.items word.now }
{
    let n = known.names.number(word)?;
    if is_constant(known.steps.as_slice(), n) {
        None
    } else {
        Some(n)
    }
}

/// The number of the constant with this name.
#[tactic(auto, unfolding(crate::specs::Text::constant_at))]
fn constant_at(known: &Known, word: &[u8]) -> Option<u32>
    ensures { result ≡ constant_at (naming known.now.names) known.now.steps.items word.now }
{
    let n = known.names.number(word)?;
    if is_constant(known.steps.as_slice(), n) {
        Some(n)
    } else {
        None
    }
}

/// Whether the step with this number gives a constant.
#[tactic(auto, unfolding(crate::specs::Kinds::is_constant))]
fn is_constant(steps: &[Step], n: u32) -> bool
    ensures { result ≡ is_constant steps.now n }
{
    match steps.get(n as usize) {
        Some(step) => step.kind.is_const(),
        None => false,
    }
}

/// A number below 2^32, if the word writes one.
#[tactic(auto, unfolding(crate::specs::Text::small_number_of))]
fn small_number_of(word: &[u8]) -> Option<u32>
    ensures { result ≡ small_number_of word.now }
{
    let n = number(word)?;
    if n < 0x1_0000_0000 {
        Some(n as u32)
    } else {
        None
    }
}

/// Whether k and m have no common divisor above 1, by Euclid's algorithm.
fn is_unit(m: u32, k: u32) -> bool
    requires m_in { 0 < m }
    requires k_in { 0 < k }
    ensures { result ≡ is_unit m k }
{
    let mut a = k;
    let mut b = m;
    'euclid: while b != 0 {
        let rest = a % b;
        a = b;
        b = rest;
    }
    a == 1
}
