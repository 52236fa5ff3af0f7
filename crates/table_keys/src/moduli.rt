//! The last five keys of a table.
ghost use Rattle.std.specs.Prelude.{◌≡◌, ◌<◌, ◌≤◌, ◌^◌, map, IfOk, All};
ghost use Rattle.table_keys.specs.Documents.{all_moduli_of, has_moduli, inverse_of, lengthen_from, moduli_at, moduli_of, modulus_of};
ghost use Rattle.table_keys.specs.Values.{each_of, shaped, Gives};
ghost use Rattle.toml.specs.View.{table_view};

use crate::documents::{ModuliDocument, RowDocument};
use crate::faults::DocumentFault;
use crate::keys::{digits_of, weight_of};
use crate::values::{rows_at, value_at};
use line_text::TableKey;
use std::alloc::{AllocError, Global};
use toml::Table;

/// The last five keys, where one of them is there.
#[tactic(auto, unfolding(crate::specs::Documents::moduli_of))]
pub fn moduli_of(alloc: Global, members: &Table) -> Result<Option<ModuliDocument>, DocumentFault>
    ensures { Gives (λ moduli. moduli) result (moduli_of (table_view members.now)) }
{
    if has_moduli(members) {
        let moduli = all_moduli_of(alloc, members)?;
        Ok(Some(moduli))
    } else {
        Ok(None)
    }
}

/// Whether one of the last five keys is there.
#[tactic(auto, unfolding(crate::specs::Documents::has_moduli))]
fn has_moduli(members: &Table) -> bool
    ensures { result ≡ has_moduli (table_view members.now) }
{
    value_at(members, TableKey::Weight).is_some()
        || value_at(members, TableKey::Digits).is_some()
        || value_at(members, TableKey::Chain).is_some()
        || value_at(members, TableKey::Special).is_some()
        || value_at(members, TableKey::Inverse).is_some()
}

/// The last five keys.
#[tactic(auto, unfolding(crate::specs::Documents::all_moduli_of))]
fn all_moduli_of(alloc: Global, members: &Table) -> Result<ModuliDocument, DocumentFault>
    ensures { Gives (λ moduli. moduli) result (all_moduli_of (table_view members.now)) }
{
    let weight = weight_of(members)?;
    let sizes = digits_of(alloc, members)?;
    let chain = moduli_at(alloc, members, TableKey::Chain, 32)?;
    let digits = narrowed(alloc, sizes.as_slice())?;
    let special = moduli_at(alloc, members, TableKey::Special, 16)?;
    let inverse = inverse_of(alloc, members, chain.len() + special.len())?;
    Ok(ModuliDocument {
        weight,
        digits,
        chain,
        special,
        inverse,
    })
}

/// The same numbers in 32 bits.
pub fn narrowed(alloc: Global, numbers: &[u64]) -> Result<Vec<u32>, AllocError>
    requires small { All (λ n. n < 2 ^ 32) numbers.now }
    ensures { IfOk result (λ narrow. narrow.items ≡ numbers.now) }
{
    let mut narrow = Vec::new(alloc);
    for number in numbers {
        narrow.push(*number as u32)?;
    }
    Ok(narrow)
}

/// The list of 1 to `most` moduli at a key.
#[tactic(auto, unfolding(crate::specs::Documents::moduli_at))]
fn moduli_at(
    alloc: Global,
    members: &Table,
    key: TableKey,
    most: usize,
) -> Result<Vec<RowDocument>, DocumentFault>
    ensures { Gives (λ moduli. moduli.items) result (moduli_at key most (table_view members.now)) }
{
    let rows = rows_at(alloc, members, key)?;
    let moduli = all_moduli(alloc, rows.as_slice(), key)?;
    if 1 <= moduli.len() && moduli.len() <= most {
        Ok(moduli)
    } else {
        Err(DocumentFault::Shape(key))
    }
}

/// The moduli that the lists are.
fn all_moduli(
    alloc: Global,
    rows: &[Vec<u64>],
    key: TableKey,
) -> Result<Vec<RowDocument>, DocumentFault>
    ensures { Gives (λ moduli. moduli.items) result (shaped key (each_of modulus_of (map (λ row. row.items) rows.now))) }
{
    let mut moduli = Vec::new(alloc);
    for row in rows {
        let Some(modulus) = modulus_of(row.as_slice()) else {
            return Err(DocumentFault::Shape(key));
        };
        moduli.push(modulus)?;
    }
    Ok(moduli)
}

/// The modulus that a list is.
#[tactic(auto, unfolding(crate::specs::Documents::modulus_of))]
fn modulus_of(row: &[u64]) -> Option<RowDocument>
    ensures { result ≡ modulus_of row.now }
{
    match row {
        [q, zeta, psi, plain_inverse] => Some(RowDocument {
            q: *q,
            zeta: *zeta,
            psi: *psi,
            plain_inverse: *plain_inverse,
        }),
        _ => None,
    }
}

/// The inverses of so many moduli modulo one another.
#[tactic(auto, unfolding(crate::specs::Documents::inverse_of))]
fn inverse_of(alloc: Global, members: &Table, moduli: usize) -> Result<Vec<Vec<u64>>, DocumentFault>
    ensures { Gives (λ rows. map (λ row. row.items) rows.items) result (inverse_of moduli (table_view members.now)) }
{
    let rows = rows_at(alloc, members, TableKey::Inverse)?;
    if rows.len() == moduli && lengthen(rows.as_slice()) {
        Ok(rows)
    } else {
        Err(DocumentFault::Shape(TableKey::Inverse))
    }
}

/// Whether list j has j elements.
fn lengthen(rows: &[Vec<u64>]) -> bool
    ensures { result ≡ lengthen_from 0 (map (λ row. row.items) rows.now) }
{
    for (j, row) in rows.iter().enumerate() {
        if row.len() != j {
            return false;
        }
    }
    true
}
