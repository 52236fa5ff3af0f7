//! The texts of arrays: a line for each slot, in order, with the coefficients of its element, a space between.
ghost use Rattle.std.specs.Prelude.{◌≡◌, ◌++◌, ◌↔◌, ◌≢◌, ℕ, suc, List, IfOk, IfErr, OnOk, Ok, Err, IfSome, All, ◌==◌, ◌&&◌, nat_lt, length, map, option_map};
ghost use Rattle.std.specs.List.{list_all};
ghost use Rattle.line_text.specs.Lines.{lines_of};
ghost use Rattle.hyper_cube.specs.Torus.{Torus, slot_count};
ghost use Rattle.ext_field.specs.Element.{Extension, IsMonicFactor, IsElement};
ghost use Rattle.slot_array.specs.Arrays.{Array, IsArray};
ghost use Rattle.slot_array.specs.SlotsText.{numbers_of, element_of, slots_of, WritesElement, WritesArray, IsFault, AreFirst, element_text, slots_text};
ghost use Rattle.slot_array.specs.declared.texts.SlotsFault.TheVariants.{Bad, Memory};

use crate::arrays::SlotArray;
use ext_field::{Ext, ExtElem};
use hyper_cube::Cube;
use line_text::put_number;
use std::alloc::{AllocError, Global};
use thiserror::Error;

/// Why a text is no array.
#[derive(Debug, Drop, Error)]
pub enum SlotsFault {
    /// This line, from 1, is no line of a slot, or it is one too many or missing.
    #[error("bad slots {0}")]
    Bad(u32),
    /// There is no memory left.
    #[error("memory")]
    Memory,
}

impl From<AllocError> for SlotsFault {
    ghost from_gives = { λ _ e. e ≡ Memory };

    fn from(_e: AllocError) -> SlotsFault {
        SlotsFault::Memory
    }
}

/// The array that a text writes: as many lines as slots, each with d numbers below p, the constant term first.
///
/// A fault names the first line, from 1, that is no such line or is one too many, or the one after the last line where
/// lines are missing. With p = 2, degree 3 and 2 slots the text `"0 1 0\n1 0 0\n"` writes X and 1.
#[tactic(auto, unfolding(crate::specs::SlotsText::slots_of))]
pub fn read_slots(
    alloc: Global,
    cube: &Cube,
    ext: &Ext,
    bytes: &[u8],
) -> Result<SlotArray, SlotsFault>
    ensures value { IfOk result (λ x. slots_of ext.now cube.now bytes.now ≡ Ok x) }
    ensures array { IfOk result (λ x. IsArray ext.now cube.now x) }
    ensures bad { IfErr result (λ e. (line : ℕ) → e ≡ Bad line → slots_of ext.now cube.now bytes.now ≡ Err line) }
{
    let lines = line_text::lines(alloc, bytes)?;
    let slots = cube.slot_count() as usize;
    let elems = first_elements(alloc, ext, slots, lines.as_slice())?;
    if elems.len() < slots || slots < lines.len() {
        return Err(SlotsFault::Bad(elems.len() as u32 + 1));
    }
    Ok(SlotArray { elems })
}

/// The elements that the first lines write, up to a line that writes none, and no more than so many.
fn first_elements(
    alloc: Global,
    ext: &Ext,
    most: usize,
    lines: &[Vec<u8>],
) -> Result<Vec<ExtElem>, AllocError>
    ensures front { IfOk result (λ r. AreFirst ext.now most (map (λ line. line.items) lines.now) r.items) }
    ensures elements { IfOk result (λ r. All (λ a. IsElement ext.now a) r.items) }
{
    let mut elems = Vec::new(alloc);
    for line in lines {
        if elems.len() >= most {
            return Ok(elems);
        }
        let Some(element) = element_of(alloc, ext, line.as_slice())? else {
            return Ok(elems);
        };
        elems.push(element)?;
    }
    Ok(elems)
}

/// The element that a line writes, if it writes one.
#[tactic(auto, unfolding(crate::specs::SlotsText::element_of))]
fn element_of(alloc: Global, ext: &Ext, line: &[u8]) -> Result<Option<ExtElem>, AllocError>
    ensures value { IfOk result (λ found. found ≡ element_of ext.now line.now) }
    ensures element { IfOk result (λ found. IfSome found (λ x. IsElement ext.now x)) }
{
    let words = line_text::words(alloc, line)?;
    let Some(numbers) = numbers_of(alloc, words.as_slice())? else {
        return Ok(None);
    };
    if !are_coeffs(ext.p(), ext.degree(), numbers.as_slice()) {
        return Ok(None);
    }
    let element = ext.element(alloc, numbers.as_slice())?;
    Ok(Some(element))
}

/// Whether these are as many numbers as the degree, each below p.
fn are_coeffs(p: u64, degree: u32, numbers: &[u64]) -> bool
    ensures { result ≡ (length numbers.now == degree && list_all (λ number. nat_lt number p) numbers.now) }
{
    numbers.len() == degree as usize && are_below(p, numbers)
}

/// Whether each number is below p.
fn are_below(p: u64, numbers: &[u64]) -> bool
    ensures { result ≡ list_all (λ number. nat_lt number p) numbers.now }
{
    numbers.iter().all(|number| *number < p)
}

/// The numbers that the words write, if each writes one.
fn numbers_of(alloc: Global, words: &[Vec<u8>]) -> Result<Option<Vec<u64>>, AllocError>
    ensures { IfOk result (λ found. option_map (λ numbers. numbers.items) found
        ≡ numbers_of (map (λ word. word.items) words.now)) }
{
    let mut numbers = Vec::new(alloc);
    for word in words {
        let Some(number) = line_text::number(word.as_slice()) else {
            return Ok(None);
        };
        numbers.push(number)?;
    }
    Ok(Some(numbers))
}

/// The text of an array: a line for each slot, with the coefficients in decimal and one space between, and a newline after
/// each line.
#[tactic(auto, unfolding(crate::specs::SlotsText::slots_text))]
pub fn print_slots(alloc: Global, x: &SlotArray) -> Result<Vec<u8>, AllocError>
    ensures { IfOk result (λ text. text.items ≡ slots_text x.now) }
{
    let mut text = Vec::new(alloc);
    for element in &x.elems {
        put_element(&mut text, element)?;
        text.push(b'\n')?;
    }
    Ok(text)
}

/// Appends the line of an element, without its newline.
fn put_element(text: &mut Vec<u8>, element: &ExtElem) -> Result<(), AllocError>
    ensures { OnOk result (text.new.items ≡ text.old.items ++ element_text element.now) }
{
    let coeffs = element.coeffs();
    for (i, coeff) in coeffs.iter().enumerate() {
        put_number(text, *coeff)?;
        if i + 1 < coeffs.len() {
            text.push(b' ')?;
        }
    }
    Ok(())
}

/// What reading says: a text is read where it writes an array, which is one of the cube and the extension; a line is named
/// where it is at fault; a line is an element exactly where its words write the numbers of one. The printed text of an array
/// is read as that array.
pub fn law_slots_text()
    ensures read { (f : Extension) (c : Torus) (text : List ℕ) (a : Array) → (slots_of f c text ≡ Ok a) ↔ WritesArray f c text a }
    ensures array { (f : Extension) (c : Torus) (text : List ℕ) (a : Array) → WritesArray f c text a → IsArray f c a }
    ensures fault { (f : Extension) (c : Torus) (text : List ℕ) (k : ℕ) →
        (slots_of f c text ≡ Err (suc k)) ↔ IsFault f (slot_count c) (lines_of text) k }
    ensures numbered { (f : Extension) (c : Torus) (text : List ℕ) → slots_of f c text ≢ Err 0 }
    ensures line { (f : Extension) (line x : List ℕ) → (element_of f line ≡ Some x) ↔ WritesElement f line x }
    ensures printed { (f : Extension) (c : Torus) (a : Array) → IsMonicFactor f → IsArray f c a → slots_of f c (slots_text a) ≡ Ok a }
{}
