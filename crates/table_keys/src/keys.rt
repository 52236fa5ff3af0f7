//! The forms of the keys that tables and templates share.
ghost use Rattle.std.specs.Prelude.{◌≡◌, ◌≤◌, ◌==◌, length, map, nat_le, sum, IfOk, IsTrue};
ghost use Rattle.std.specs.List.{list_all};
ghost use Rattle.line_text.specs.declared.kinds.TableKey.TheVariants.{Generators};
ghost use Rattle.table_keys.specs.Keys.{adds_up, are_below, chain_count, digits_of, dual_of, factor_of, generator_of, generators_of, is_dual, is_dual_row, is_factor, m_of, number_within, p_of, weight_of};
ghost use Rattle.table_keys.specs.Values.{each_of, shaped, Gives};
ghost use Rattle.toml.specs.View.{table_view};

use crate::faults::DocumentFault;
use crate::values::{count_of, number_at, numbers_at, rows_at, value_at};
use line_text::TableKey;
use std::alloc::Global;
use toml::Table;

/// The cyclotomic index.
pub fn m_of(members: &Table) -> Result<u32, DocumentFault>
    ensures { result ≡ m_of (table_view members.now) }
{
    number_within(members, TableKey::M, 3, 65_536)
}

/// The plaintext modulus.
pub fn p_of(members: &Table) -> Result<u32, DocumentFault>
    ensures { result ≡ p_of (table_view members.now) }
{
    number_within(members, TableKey::P, 2, 131_071)
}

/// How many coefficients of a secret are not 0.
pub fn weight_of(members: &Table) -> Result<u32, DocumentFault>
    ensures { result ≡ weight_of (table_view members.now) }
{
    number_within(members, TableKey::Weight, 1, 65_536)
}

/// The number from low to high at a key.
#[tactic(auto, unfolding(crate::specs::Keys::number_within))]
fn number_within(members: &Table, key: TableKey, low: u32, high: u32) -> Result<u32, DocumentFault>
    ensures { result ≡ number_within key low high (table_view members.now) }
{
    match number_at(members, key) {
        Some(n) if low as u64 <= n && n <= high as u64 => Ok(n as u32),
        _ => Err(DocumentFault::Shape(key)),
    }
}

/// The coefficients of the factor.
#[tactic(auto, unfolding(crate::specs::Keys::factor_of))]
pub fn factor_of(alloc: Global, members: &Table, p: u32) -> Result<Vec<u64>, DocumentFault>
    ensures gives { Gives (λ coeffs. coeffs.items) result (factor_of p (table_view members.now)) }
    ensures some { IfOk result (λ coeffs. 2 ≤ length coeffs.items) }
{
    let coeffs = numbers_at(alloc, members, TableKey::Factor)?;
    if is_factor(p, coeffs.as_slice()) {
        Ok(coeffs)
    } else {
        Err(DocumentFault::Shape(TableKey::Factor))
    }
}

/// Whether these are the coefficients of a monic polynomial below p, of degree 1 to 64.
#[tactic(auto, unfolding(crate::specs::Keys::is_factor))]
fn is_factor(p: u32, coeffs: &[u64]) -> bool
    ensures value { result ≡ is_factor p coeffs.now }
    ensures some { IsTrue result → 2 ≤ length coeffs.now }
{
    2 <= coeffs.len() && coeffs.len() <= 65 && are_below(p, coeffs) && coeffs[coeffs.len() - 1] == 1
}

/// Whether each number is below p.
fn are_below(p: u32, numbers: &[u64]) -> bool
    ensures { result ≡ are_below p numbers.now }
{
    numbers.iter().all(|number| *number < p as u64)
}

/// The dual basis of d elements.
#[tactic(auto, unfolding(crate::specs::Keys::dual_of))]
pub fn dual_of(
    alloc: Global,
    members: &Table,
    p: u32,
    d: usize,
) -> Result<Vec<Vec<u64>>, DocumentFault>
    ensures { Gives (λ rows. map (λ row. row.items) rows.items) result (dual_of p d (table_view members.now)) }
{
    let rows = rows_at(alloc, members, TableKey::Dual)?;
    if is_dual(p, d, rows.as_slice()) {
        Ok(rows)
    } else {
        Err(DocumentFault::Shape(TableKey::Dual))
    }
}

/// Whether these are d lists of d numbers below p.
#[tactic(auto, unfolding(crate::specs::Keys::is_dual))]
fn is_dual(p: u32, d: usize, rows: &[Vec<u64>]) -> bool
    ensures { result ≡ is_dual p d (map (λ row. row.items) rows.now) }
{
    if rows.len() != d {
        return false;
    }
    for row in rows {
        if !is_dual_row(p, d, row.as_slice()) {
            return false;
        }
    }
    true
}

/// Whether these are d numbers below p.
fn is_dual_row(p: u32, d: usize, row: &[u64]) -> bool
    ensures { result ≡ is_dual_row p d row.now }
{
    row.len() == d && are_below(p, row)
}

/// The generators with their sizes.
#[tactic(auto, unfolding(crate::specs::Keys::generators_of))]
pub fn generators_of(
    alloc: Global,
    members: &Table,
    m: u32,
) -> Result<Vec<(u32, u32)>, DocumentFault>
    ensures { Gives (λ pairs. pairs.items) result (generators_of m (table_view members.now)) }
{
    let rows = rows_at(alloc, members, TableKey::Generators)?;
    let pairs = all_generators(alloc, rows.as_slice(), m)?;
    if pairs.len() <= 16 {
        Ok(pairs)
    } else {
        Err(DocumentFault::Shape(TableKey::Generators))
    }
}

/// The generators that the lists are.
fn all_generators(
    alloc: Global,
    rows: &[Vec<u64>],
    m: u32,
) -> Result<Vec<(u32, u32)>, DocumentFault>
    ensures { Gives (λ pairs. pairs.items) result (shaped Generators (each_of (generator_of m) (map (λ row. row.items) rows.now))) }
{
    let mut pairs = Vec::new(alloc);
    for row in rows {
        let Some(pair) = generator_of(row.as_slice(), m) else {
            return Err(DocumentFault::Shape(TableKey::Generators));
        };
        pairs.push(pair)?;
    }
    Ok(pairs)
}

/// The generator with its size that a list is.
#[tactic(auto, unfolding(crate::specs::Keys::generator_of))]
fn generator_of(row: &[u64], m: u32) -> Option<(u32, u32)>
    ensures { result ≡ generator_of m row.now }
{
    match row {
        [g, size] if 1 <= *g && *g < m as u64 && 1 <= *size && *size <= m as u64 => {
            Some((*g as u32, *size as u32))
        }
        _ => None,
    }
}

/// How many elements the list at `chain` has, where a list is there.
#[tactic(auto, unfolding(crate::specs::Keys::chain_count))]
fn chain_count(members: &Table) -> Option<usize>
    ensures { result ≡ chain_count (table_view members.now) }
{
    match value_at(members, TableKey::Chain) {
        Some(value) => count_of(value),
        None => None,
    }
}

/// The sizes of the groups.
#[tactic(auto, unfolding(crate::specs::Keys::digits_of))]
pub fn digits_of(alloc: Global, members: &Table) -> Result<Vec<u64>, DocumentFault>
    ensures { Gives (λ sizes. sizes.items) result (digits_of (table_view members.now)) }
{
    let sizes = numbers_at(alloc, members, TableKey::Digits)?;
    if are_positive(sizes.as_slice()) && adds_up(chain_count(members), sizes.as_slice()) {
        Ok(sizes)
    } else {
        Err(DocumentFault::Shape(TableKey::Digits))
    }
}

/// Whether no number is 0.
fn are_positive(numbers: &[u64]) -> bool
    ensures { result ≡ list_all (nat_le 1) numbers.now }
{
    numbers.iter().all(|number| 1 <= *number)
}

/// Whether the numbers add up to the count, where there is one.
fn adds_up(count: Option<usize>, sizes: &[u64]) -> bool
    ensures { result ≡ adds_up count sizes.now }
{
    match count {
        Some(count) => is_total(count as u64, sizes),
        None => true,
    }
}

/// Whether the numbers add up to the total.
fn is_total(total: u64, sizes: &[u64]) -> bool
    ensures { result ≡ (sum sizes.now == total) }
{
    let mut left = total;
    for size in sizes {
        if *size > left {
            return false;
        }
        left -= *size;
    }
    left == 0
}
