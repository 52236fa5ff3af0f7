//! The printed summary of a table.
ghost use Rattle.std.specs.Prelude.{◌≡◌, ◌++◌, ◌<◌, IfOk, OnOk, length};
ghost use Rattle.hyper_cube.specs.Torus.{Torus};
ghost use Rattle.noise_bound.specs.Text.{text_of};
ghost use Rattle.noise_bound.specs.Value.{value};
ghost use Rattle.scheme_laws.specs.Scheme.{sizes_of};
ghost use Rattle.table_file.specs.Shown.{setting_of};
ghost use Rattle.table_file.specs.Summary.{bounded, bounds_line, chain_line, chain_lines, dimension_line, dimension_lines, head_line, height_line, labelled, limit_line, limit_lines, newline, quality, summary_of};

use crate::tables::Table;
use cipher_core::Scheme;
use cyclo_poly::Cyclo;
use double_crt::RingTables;
use hyper_cube::Cube;
use line_text::put_number;
use noise_bound::{Bound, BoundTable, law_form};
use slot_factor::Slots;
use std::alloc::{AllocError, Global};

/// The summary of a table, a line each for the ring, for each dimension, and, where the table has moduli, for their
/// numbers, the height and the weight, the bounds, and the limit of each level.
///
/// That of a plain table with m = 7, p = 2 and the generator 6 of size 2 is `m 7 n 6 p 2 d 3 slots 2` and
/// `dim 0 generator 6 size 2 good`.
#[tactic(auto, unfolding(crate::specs::Summary::summary_of))]
pub fn summary(alloc: Global, table: &Table) -> Result<Vec<u8>, AllocError>
    ensures { IfOk result (λ text. text.items ≡ summary_of (setting_of table.now)) }
{
    let mut text = Vec::new(alloc);
    let slots = table.slots.as_ref();
    put_head(&mut text, slots, &table.cyclo)?;
    put_dimensions(&mut text, slots.cube())?;
    put_chain(&mut text, table)?;
    Ok(text)
}

/// Appends a word and a number.
fn put_labelled(text: &mut Vec<u8>, word: &[u8], n: u64) -> Result<(), AllocError>
    ensures { OnOk result (text.new.items ≡ text.old.items ++ labelled word.now n) }
{
    text.extend_from_slice(word)?;
    put_number(text, n)
}

/// Appends a bound: its mantissa, and its power of two where this is not 1, as `3057123754*2^49`.
pub fn put_bound(text: &mut Vec<u8>, bound: Bound) -> Result<(), AllocError>
    ensures { OnOk result (text.new.items ≡ text.old.items ++ text_of bound) }
{
    put_number(text, u64::from(bound.man))?;
    if bound.exp == 0 {
        return Ok(());
    }
    put_labelled(text, b"*2^", u64::from(bound.exp))
}

/// Appends a word and a bound.
#[tactic(auto, using(crate::proofs::BoundTexts::put_two))]
pub fn put_bounded(text: &mut Vec<u8>, word: &[u8], bound: Bound) -> Result<(), AllocError>
    ensures { OnOk result (text.new.items ≡ text.old.items ++ bounded word.now (value bound)) }
{
    law_form();
    text.extend_from_slice(word)?;
    put_bound(text, bound)
}

/// Appends the line of the ring and the slots.
#[tactic(auto, unfolding(crate::specs::Summary::head_line))]
fn put_head(text: &mut Vec<u8>, slots: &Slots, cyclo: &Cyclo) -> Result<(), AllocError>
    requires { cyclo.now ≡ slots.now.cube.m }
    ensures { OnOk result (text.new.items ≡ text.old.items ++ head_line slots.now) }
{
    let cube = slots.cube();
    put_labelled(text, b"m ", u64::from(cube.m()))?;
    put_labelled(text, b" n ", u64::from(cyclo.degree()))?;
    put_labelled(text, b" p ", u64::from(cube.p()))?;
    put_labelled(text, b" d ", u64::from(cube.d()))?;
    put_labelled(text, b" slots ", u64::from(cube.slot_count()))?;
    text.extend_from_slice(b"\n")
}

/// Appends the lines of the dimensions.
#[tactic(auto, unfolding(crate::specs::Summary::dimension_lines))]
fn put_dimensions(text: &mut Vec<u8>, cube: &Cube) -> Result<(), AllocError>
    ensures { OnOk result (text.new.items ≡ text.old.items ++ dimension_lines cube.now) }
{
    for i in 0..cube.dims() {
        put_dimension(text, cube, i)?;
    }
    Ok(())
}

/// Appends the line of a dimension.
#[tactic(auto, unfolding(crate::specs::Summary::dimension_line))]
fn put_dimension(text: &mut Vec<u8>, cube: &Cube, i: u32) -> Result<(), AllocError>
    requires { i < length cube.now.dimensions }
    ensures { OnOk result (text.new.items ≡ text.old.items ++ dimension_line cube.now i) }
{
    put_labelled(text, b"dim ", u64::from(i))?;
    put_labelled(text, b" generator ", u64::from(cube.generator(i)))?;
    put_labelled(text, b" size ", u64::from(cube.size(i)))?;
    put_quality(text, cube.is_good(i))?;
    Ok(())
}

/// Appends whether a dimension is good, and the end of its line.
fn put_quality(text: &mut Vec<u8>, good: bool) -> Result<(), AllocError>
    ensures { OnOk result (text.new.items ≡ text.old.items ++ (quality good ++ newline)) }
{
    if good {
        text.extend_from_slice(b" good\n")
    } else {
        text.extend_from_slice(b" bad\n")
    }
}

/// Appends the lines of the moduli, where there are any.
#[tactic(auto, unfolding(crate::specs::Summary::chain_lines))]
fn put_chain(text: &mut Vec<u8>, table: &Table) -> Result<(), AllocError>
    ensures { OnOk result (text.new.items ≡ text.old.items ++ chain_lines (setting_of table.now).chain) }
{
    match &table.scheme {
        None => Ok(()),
        Some(scheme) => put_scheme(text, scheme),
    }
}

/// Appends the lines of the moduli of a scheme.
fn put_scheme(text: &mut Vec<u8>, scheme: &Scheme) -> Result<(), AllocError>
    ensures { OnOk result (text.new.items ≡ text.old.items ++ (chain_line scheme.now.tables.value ++ height_line (sizes_of scheme.now.tables.value) ++ bounds_line (sizes_of scheme.now.tables.value) ++ limit_lines (sizes_of scheme.now.tables.value))) }
{
    let tables = scheme.tables.as_ref();
    let bounds = scheme.bounds.as_ref();
    put_counts(text, tables)?;
    put_height(text, tables)?;
    put_bounds(text, bounds)?;
    put_limits(text, bounds, tables.chain_len())
}

/// Appends how many moduli and groups there are.
#[tactic(auto, unfolding(crate::specs::Summary::chain_line))]
fn put_counts(text: &mut Vec<u8>, tables: &RingTables) -> Result<(), AllocError>
    ensures { OnOk result (text.new.items ≡ text.old.items ++ chain_line tables.now) }
{
    put_labelled(text, b"chain ", u64::from(tables.chain_len()))?;
    put_labelled(text, b" special ", u64::from(tables.special_len()))?;
    put_labelled(text, b" columns ", tables.digits().len() as u64)?;
    text.extend_from_slice(b"\n")
}

/// Appends the height and the weight.
#[tactic(auto, unfolding(crate::specs::Summary::height_line))]
fn put_height(text: &mut Vec<u8>, tables: &RingTables) -> Result<(), AllocError>
    ensures { OnOk result (text.new.items ≡ text.old.items ++ height_line (sizes_of tables.now)) }
{
    put_labelled(text, b"height ", u64::from(tables.height()))?;
    put_labelled(text, b" weight ", u64::from(tables.weight()))?;
    text.extend_from_slice(b"\n")
}

/// Appends the bounds.
#[tactic(auto, unfolding(crate::specs::Summary::bounds_line))]
fn put_bounds(text: &mut Vec<u8>, bounds: &BoundTable) -> Result<(), AllocError>
    ensures { OnOk result (text.new.items ≡ text.old.items ++ bounds_line bounds.now) }
{
    put_bounded(text, b"fresh ", bounds.fresh())?;
    put_bounded(text, b" switch ", bounds.switch_add())?;
    put_bounded(text, b" settle ", bounds.settle())?;
    text.extend_from_slice(b"\n")
}

/// Appends the limits of the levels.
#[tactic(auto, unfolding(crate::specs::Summary::limit_lines))]
fn put_limits(text: &mut Vec<u8>, bounds: &BoundTable, levels: u32) -> Result<(), AllocError>
    requires { levels ≡ length bounds.now.chain }
    ensures { OnOk result (text.new.items ≡ text.old.items ++ limit_lines bounds.now) }
{
    for level in 0..levels {
        put_limit(text, bounds, level)?;
    }
    Ok(())
}

/// Appends the limit of a level.
#[tactic(auto, unfolding(crate::specs::Summary::limit_line))]
fn put_limit(text: &mut Vec<u8>, bounds: &BoundTable, level: u32) -> Result<(), AllocError>
    requires { level < length bounds.now.chain }
    ensures { OnOk result (text.new.items ≡ text.old.items ++ limit_line bounds.now level) }
{
    put_labelled(text, b"limit ", u64::from(level))?;
    put_bounded(text, b" ", bounds.limit(level))?;
    text.extend_from_slice(b"\n")
}
