//! The writing of a table.
ghost use Rattle.std.specs.Prelude.{◌≡◌, map, All, IfOk, OnOk, string_bytes, true};
ghost use Rattle.std.specs.Str.{is_utf8};
ghost use Rattle.table_keys.specs.Documents.{document_of};
ghost use Rattle.table_keys.specs.Shapes.{IsDocument, IsModuli, IsSmall, IsSmallRow};
ghost use Rattle.table_keys.specs.Written.{numbers_data, pair_words, plain_of, row_words, rows_data, with_key, with_moduli, written};
ghost use Rattle.toml.specs.View.{table_view, view};

use crate::documents::{ModuliDocument, RowDocument, TableDocument};
use crate::values::word;
use line_text::TableKey;
use std::alloc::{AllocError, Global};
use toml::{Table, Value};

/// Writes a table: a text that is read as this table again.
pub fn write_document(alloc: Global, document: &TableDocument) -> Result<Vec<u8>, AllocError>
    requires { IsDocument document.now }
    ensures { IfOk result (λ text. document_of text.items ≡ Ok document.now) }
{
    let members = members_for(alloc, document)?;
    match toml::table_to_string(alloc, &members) {
        Ok(text) => Ok(bytes_of(text)),
        Err(_) => Err(AllocError),
    }
}

/// The bytes of a text.
fn bytes_of(text: String) -> Vec<u8>
    ensures value { result.items ≡ string_bytes text }
    ensures utf8 { is_utf8 result.items ≡ true }
{
    text.into_bytes()
}

/// The document that a table is written as.
#[tactic(auto, unfolding(crate::specs::Written::written))]
fn members_for(alloc: Global, document: &TableDocument) -> Result<Table, AllocError>
    requires { IsDocument document.now }
    ensures { IfOk result (λ members. table_view members ≡ written document.now) }
{
    let mut members = plain_members(alloc, document)?;
    if let Some(moduli) = &document.moduli {
        add_moduli(alloc, &mut members, moduli)?;
    }
    Ok(members)
}

/// The first five keys with their values.
#[tactic(auto, unfolding(crate::specs::Written::plain_of, crate::specs::Written::plain_members))]
fn plain_members(alloc: Global, document: &TableDocument) -> Result<Table, AllocError>
    requires { IsDocument document.now }
    ensures { IfOk result (λ members. table_view members ≡ plain_of document.now) }
{
    let mut members = Table::new(alloc);
    add(alloc, &mut members, TableKey::M, Value::from(document.m))?;
    add(alloc, &mut members, TableKey::P, Value::from(document.p))?;
    let factor = numbers_value(alloc, document.factor.as_slice())?;
    add(alloc, &mut members, TableKey::Factor, factor)?;
    let dual = rows_value(alloc, document.dual.as_slice())?;
    add(alloc, &mut members, TableKey::Dual, dual)?;
    let generators = generators_value(alloc, document.generators.as_slice())?;
    add(alloc, &mut members, TableKey::Generators, generators)?;
    Ok(members)
}

/// Adds the last five keys with their values.
#[tactic(auto, unfolding(crate::specs::Written::with_moduli, crate::specs::Written::moduli_members))]
fn add_moduli(alloc: Global, members: &mut Table, moduli: &ModuliDocument) -> Result<(), AllocError>
    requires { IsModuli moduli.now }
    ensures { OnOk result (table_view members.new ≡ with_moduli moduli.now (table_view members.old)) }
{
    add(alloc, members, TableKey::Weight, Value::from(moduli.weight))?;
    let digits = digits_value(alloc, moduli.digits.as_slice())?;
    add(alloc, members, TableKey::Digits, digits)?;
    let chain = moduli_value(alloc, moduli.chain.as_slice())?;
    add(alloc, members, TableKey::Chain, chain)?;
    let special = moduli_value(alloc, moduli.special.as_slice())?;
    add(alloc, members, TableKey::Special, special)?;
    let inverse = rows_value(alloc, moduli.inverse.as_slice())?;
    add(alloc, members, TableKey::Inverse, inverse)
}

/// Adds a key with its value.
#[tactic(auto, unfolding(crate::specs::Written::with_key))]
fn add(alloc: Global, members: &mut Table, key: TableKey, value: Value) -> Result<(), AllocError>
    ensures { OnOk result (table_view members.new ≡ with_key key (view value) (table_view members.old)) }
{
    let name = String::from_str(alloc, word(key))?;
    match members.insert(name, value) {
        Ok(_) => Ok(()),
        Err(_) => Err(AllocError),
    }
}

/// The list of these numbers.
#[tactic(auto, unfolding(crate::specs::Written::numbers_data))]
fn numbers_value(alloc: Global, numbers: &[u64]) -> Result<Value, AllocError>
    requires small { All IsSmall numbers.now }
    ensures { IfOk result (λ value. view value ≡ numbers_data numbers.now) }
{
    let mut values = Vec::new(alloc);
    for number in numbers {
        values.push(Value::from(*number as i64))?;
    }
    Ok(Value::from(values))
}

/// The list of these numbers of 32 bits.
#[tactic(auto, unfolding(crate::specs::Written::numbers_data))]
fn digits_value(alloc: Global, digits: &[u32]) -> Result<Value, AllocError>
    ensures { IfOk result (λ value. view value ≡ numbers_data digits.now) }
{
    let mut values = Vec::new(alloc);
    for size in digits {
        values.push(Value::from(*size))?;
    }
    Ok(Value::from(values))
}

/// The list of these lists of numbers.
#[tactic(auto, unfolding(crate::specs::Written::rows_data))]
fn rows_value(alloc: Global, rows: &[Vec<u64>]) -> Result<Value, AllocError>
    requires small { All (λ row. All IsSmall row.items) rows.now }
    ensures { IfOk result (λ value. view value ≡ rows_data (map (λ row. row.items) rows.now)) }
{
    let mut values = Vec::new(alloc);
    for row in rows {
        values.push(numbers_value(alloc, row.as_slice())?)?;
    }
    Ok(Value::from(values))
}

/// The list of these generators with their sizes.
#[tactic(auto, unfolding(crate::specs::Written::rows_data))]
fn generators_value(alloc: Global, generators: &[(u32, u32)]) -> Result<Value, AllocError>
    ensures { IfOk result (λ value. view value ≡ rows_data (map pair_words generators.now)) }
{
    let mut values = Vec::new(alloc);
    for generator in generators {
        values.push(digits_value(alloc, &[generator.0, generator.1])?)?;
    }
    Ok(Value::from(values))
}

/// The list of these moduli.
#[tactic(auto, unfolding(crate::specs::Written::rows_data))]
fn moduli_value(alloc: Global, moduli: &[RowDocument]) -> Result<Value, AllocError>
    requires small { All IsSmallRow moduli.now }
    ensures { IfOk result (λ value. view value ≡ rows_data (map row_words moduli.now)) }
{
    let mut values = Vec::new(alloc);
    for modulus in moduli {
        values.push(modulus_value(alloc, modulus)?)?;
    }
    Ok(Value::from(values))
}

/// The list of a modulus.
fn modulus_value(alloc: Global, modulus: &RowDocument) -> Result<Value, AllocError>
    requires { IsSmallRow modulus.now }
    ensures { IfOk result (λ value. view value ≡ numbers_data (row_words modulus.now)) }
{
    let words = [modulus.q, modulus.zeta, modulus.psi, modulus.plain_inverse];
    numbers_value(alloc, &words)
}
