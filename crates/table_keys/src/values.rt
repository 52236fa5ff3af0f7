//! What is read at the keys of a document: numbers, lists of numbers, and lists of such lists.
ghost use Rattle.std.specs.Prelude.{◌≡◌, map, option_map, option_and_then};
ghost use Rattle.line_text.specs.Kinds.{key_word};
ghost use Rattle.table_keys.specs.Values.{count_of, each_of, number_at, number_of, numbers_at, numbers_of, rows_at, rows_of, shaped, value_at, Gives};
ghost use Rattle.toml.specs.View.{table_view, view};

use crate::faults::DocumentFault;
use line_text::TableKey;
use std::alloc::Global;
use toml::{Table, Value};

/// The word of a key, as a document has it.
#[tactic(auto, unfolding(line_text::specs::Kinds::key_word))]
pub fn word(key: TableKey) -> &'static str
    ensures { result.now ≡ key_word key }
{
    match key {
        TableKey::M => "m",
        TableKey::P => "p",
        TableKey::Factor => "factor",
        TableKey::Dual => "dual",
        TableKey::Generators => "generators",
        TableKey::Weight => "weight",
        TableKey::Digits => "digits",
        TableKey::Chain => "chain",
        TableKey::Special => "special",
        TableKey::Inverse => "inverse",
        TableKey::Text => "text",
        TableKey::Other => "other",
    }
}

/// The value at a key.
pub fn value_at(members: &Table, key: TableKey) -> Option<&Value>
    ensures { option_map (λ value. view value.now) result ≡ value_at key (table_view members.now) }
{
    members.get(word(key))
}

/// The number that a value is: an integer that is not below 0.
pub fn number_of(value: &Value) -> Option<u64>
    ensures { result ≡ number_of (view value.now) }
{
    match value.as_integer() {
        Some(n) if n >= 0 => Some(n as u64),
        _ => None,
    }
}

/// How many elements a value has, where it is an array.
#[tactic(auto, using(crate::proofs::ValueLaws::length_of_view))]
pub fn count_of(value: &Value) -> Option<usize>
    ensures { result ≡ count_of (view value.now) }
{
    match value.as_array() {
        Some(values) => Some(values.len()),
        None => None,
    }
}

/// The number at a key.
#[tactic(auto, unfolding(crate::specs::Values::number_at))]
pub fn number_at(members: &Table, key: TableKey) -> Option<u64>
    ensures { result ≡ number_at key (table_view members.now) }
{
    match value_at(members, key) {
        Some(value) => number_of(value),
        None => None,
    }
}

/// The list of numbers at a key.
#[tactic(auto, unfolding(crate::specs::Values::numbers_at))]
pub fn numbers_at(alloc: Global, members: &Table, key: TableKey) -> Result<Vec<u64>, DocumentFault>
    ensures { Gives (λ numbers. numbers.items) result (numbers_at key (table_view members.now)) }
{
    match value_at(members, key) {
        Some(value) => numbers_of(alloc, value, key),
        None => Err(DocumentFault::Shape(key)),
    }
}

/// The list of lists of numbers at a key.
#[tactic(auto, unfolding(crate::specs::Values::rows_at))]
pub fn rows_at(
    alloc: Global,
    members: &Table,
    key: TableKey,
) -> Result<Vec<Vec<u64>>, DocumentFault>
    ensures { Gives (λ rows. map (λ row. row.items) rows.items) result (rows_at key (table_view members.now)) }
{
    match value_at(members, key) {
        Some(value) => rows_of(alloc, value, key),
        None => Err(DocumentFault::Shape(key)),
    }
}

/// The list of numbers that a value is.
#[tactic(auto, unfolding(crate::specs::Values::numbers_of))]
fn numbers_of(alloc: Global, value: &Value, key: TableKey) -> Result<Vec<u64>, DocumentFault>
    ensures { Gives (λ numbers. numbers.items) result (shaped key (numbers_of (view value.now))) }
{
    match value.as_array() {
        Some(values) => all_numbers(alloc, values.as_slice(), key),
        None => Err(DocumentFault::Shape(key)),
    }
}

/// The numbers that the values are.
fn all_numbers(alloc: Global, values: &[Value], key: TableKey) -> Result<Vec<u64>, DocumentFault>
    ensures { Gives (λ numbers. numbers.items) result (shaped key (each_of number_of (map view values.now))) }
{
    let mut numbers = Vec::new(alloc);
    for value in values {
        let Some(number) = number_of(value) else {
            return Err(DocumentFault::Shape(key));
        };
        numbers.push(number)?;
    }
    Ok(numbers)
}

/// The list of lists of numbers that a value is.
#[tactic(auto, unfolding(crate::specs::Values::rows_of))]
fn rows_of(alloc: Global, value: &Value, key: TableKey) -> Result<Vec<Vec<u64>>, DocumentFault>
    ensures { Gives (λ rows. map (λ row. row.items) rows.items) result (shaped key (rows_of (view value.now))) }
{
    match value.as_array() {
        Some(values) => all_rows(alloc, values.as_slice(), key),
        None => Err(DocumentFault::Shape(key)),
    }
}

/// The lists of numbers that the values are.
fn all_rows(alloc: Global, values: &[Value], key: TableKey) -> Result<Vec<Vec<u64>>, DocumentFault>
    ensures { Gives (λ rows. map (λ row. row.items) rows.items) result (shaped key (each_of numbers_of (map view values.now))) }
{
    let mut rows = Vec::new(alloc);
    for value in values {
        rows.push(numbers_of(alloc, value, key)?)?;
    }
    Ok(rows)
}
