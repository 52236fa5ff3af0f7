//! The moduli of a template with their roots and inverses.
ghost use Rattle.std.specs.Prelude.{◌≡◌, ◌<◌, ◌≤◌, ◌^◌, ◌%◌, ◌++◌, All, Ok, IfOk, length, map, take, slice_index, None, Some, OnSome, option_map};
ghost use Rattle.std.specs.List.{position};
ghost use Rattle.moduli_table.specs.Search.{inverse_or_zero, roots_of};
ghost use Rattle.table_maker.specs.Faults.{unless_rootless, Gives};
ghost use Rattle.table_maker.specs.Filled.{inverses_of, is_rootless, row_for};
ghost use Rattle.table_maker.specs.Ranges.{IsModulus};

use crate::faults::MakeFault;
use moduli_table::{find_roots, inverse_or_zero};
use std::alloc::{AllocError, Global};
use table_keys::RowDocument;

/// The row of each modulus, or the fault of the first that has no roots.
pub(crate) fn rows(
    alloc: Global,
    m: u32,
    p: u32,
    moduli: &[u64],
) -> Result<Vec<RowDocument>, MakeFault>
    requires m_low { 3 ≤ m }
    requires m_high { m ≤ 65536 }
    requires p_low { 2 ≤ p }
    requires moduli { All IsModulus moduli.now }
    requires count { length moduli.now ≤ 48 }
    ensures { Gives (λ rows. rows.items) result (unless_rootless (position (is_rootless m) moduli.now) (map (row_for m p) moduli.now)) }
{
    let mut rows = Vec::with_capacity(alloc, moduli.len())?;
    for (i, q) in moduli.iter().enumerate() {
        let Some(row) = row(m, p, *q) else {
            return Err(MakeFault::NoRoot(i as u32));
        };
        rows.push(row)?;
    }
    Ok(rows)
}

/// The row of a modulus, where a base passes.
#[tactic(auto, unfolding(crate::specs::Filled::row_for))]
fn row(m: u32, p: u32, q: u64) -> Option<RowDocument>
    requires m_low { 3 ≤ m }
    requires m_high { m ≤ 65536 }
    requires p_low { 2 ≤ p }
    requires modulus { IsModulus q }
    ensures { result ≡ option_map (λ _. row_for m p q) (roots_of m q) }
{
    let (zeta, psi) = find_roots(m, q)?;
    Some(RowDocument {
        q,
        zeta,
        psi,
        plain_inverse: inverse_or_zero(q, p as u64),
    })
}

/// For each modulus the inverses modulo it of the moduli before it, 0 where there is none.
#[tactic(auto, unfolding(crate::specs::Filled::inverses_of))]
pub(crate) fn inverses(alloc: Global, moduli: &[u64]) -> Result<Vec<Vec<u64>>, AllocError>
    requires { All IsModulus moduli.now }
    ensures { IfOk result (λ lists. map (λ list. list.items) lists.items ≡ inverses_of moduli.now) }
{
    let mut lists = Vec::with_capacity(alloc, moduli.len())?;
    for (j, q) in moduli.iter().enumerate() {
        lists.push(inverses_modulo(alloc, *q, &moduli[..j])?)?;
    }
    Ok(lists)
}

/// The inverses of numbers modulo q, 0 where there is none.
fn inverses_modulo(alloc: Global, q: u64, numbers: &[u64]) -> Result<Vec<u64>, AllocError>
    requires { IsModulus q }
    ensures { IfOk result (λ list. list.items ≡ map (inverse_or_zero q) numbers.now) }
{
    let mut list = Vec::with_capacity(alloc, numbers.len())?;
    for number in numbers {
        list.push(inverse_or_zero(*number, q))?;
    }
    Ok(list)
}
