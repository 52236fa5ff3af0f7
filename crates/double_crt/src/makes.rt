//! What the tables of a ring are made of.
ghost use Rattle.std.specs.Prelude.{◌≡◌, ℕ, ◌+◌, ◌<◌, ◌≤◌, ◌++◌, All, IfOk, length, map, take, drop, get_or, []};
ghost use Rattle.algebra.specs.Divisor.{units as units_of};
ghost use Rattle.mixed_radix.specs.Basis.{IsBasis};
ghost use Rattle.moduli_table.specs.Chain.{count, modulus_at, entry_at};
ghost use Rattle.moduli_table.specs.Accepted.{IsInverse};
ghost use Rattle.double_crt.specs.Bases.{basis_from};
ghost use Rattle.double_crt.specs.Places.{ArePlaces};
ghost use Rattle.double_crt.specs.Roots.{roots_of_row};

use crate::line::Line;
use mixed_radix::Radix;
use moduli_table::Moduli;
use std::alloc::{AllocError, Global};

/// Writes at each unit its place in the list of the units.
fn fill_places(units: &[u32], places: &mut [u32])
    requires some { 1 < length places.old }
    requires few { length places.old ≤ 65536 }
    requires units { units.now ≡ units_of (length places.old) }
    ensures { ArePlaces (length places.old) places.new }
{
    for i in 0..units.len() {
        places[units[i] as usize] = i as u32;
    }
}

/// For each unit modulo m its place in the list of the units.
pub(crate) fn places_of(alloc: Global, m: u32, units: &[u32]) -> Result<Vec<u32>, AllocError>
    requires low { 3 ≤ m }
    requires high { m ≤ 65536 }
    requires units { units.now ≡ units_of m }
    ensures { IfOk result (λ places. ArePlaces m places.items) }
{
    let mut places = vec![in alloc; 0u32; m as usize]?;
    fill_places(units, &mut places);
    Ok(places)
}

/// The lines of all moduli of a table.
pub(crate) fn lines_of(alloc: Global, moduli: &Moduli) -> Result<Vec<Line>, AllocError>
    ensures { IfOk result (λ lines. lines.items ≡ map (roots_of_row moduli.now.m) (moduli.now.chain ++ moduli.now.special)) }
{
    let m = moduli.m();
    let count = moduli.chain_len() + moduli.special_len();
    let mut lines = Vec::with_capacity(alloc, count as usize)?;
    for i in 0..count {
        lines.push(Line::new(alloc, m, moduli.row(i))?)?;
    }
    Ok(lines)
}

/// Some moduli of a table, as many as given, from the first given.
fn some_moduli(
    alloc: Global,
    moduli: &Moduli,
    first: u32,
    many: u32,
) -> Result<Vec<u64>, AllocError>
    requires { first + many ≤ count moduli.now }
    ensures { IfOk result (λ list. list.items ≡ map (λ r. r.q) (take many (drop first (moduli.now.chain ++ moduli.now.special)))) }
{
    let _count = moduli.chain_len() + moduli.special_len();
    let mut list = vec![in alloc; 0u64; many as usize]?;
    for i in 0..many {
        list[i as usize] = moduli.row(first + i).q;
    }
    Ok(list)
}

/// The inverses modulo a modulus of those before it from the first on.
fn inverses_before(
    alloc: Global,
    moduli: &Moduli,
    first: u32,
    many: u32,
) -> Result<Vec<u64>, AllocError>
    requires { first + many < count moduli.now }
    ensures { IfOk result (λ list. list.items ≡ drop first (get_or moduli.now.inverse (first + many) [])) }
{
    let _count = moduli.chain_len() + moduli.special_len();
    let mut list = vec![in alloc; 0u64; many as usize]?;
    for i in 0..many {
        list[i as usize] = moduli.inverse(first + i, first + many);
    }
    Ok(list)
}

/// For each of some moduli the inverses modulo it of those before it.
fn some_inverses(
    alloc: Global,
    moduli: &Moduli,
    first: u32,
    many: u32,
) -> Result<Vec<Vec<u64>>, AllocError>
    requires { first + many ≤ count moduli.now }
    ensures { IfOk result (λ lists. map (λ list. list.items) lists.items ≡ map (drop first) (take many (drop first moduli.now.inverse))) }
{
    let _count = moduli.chain_len() + moduli.special_len();
    let mut lists = Vec::with_capacity(alloc, many as usize)?;
    for i in 0..many {
        lists.push(inverses_before(alloc, moduli, first, i)?)?;
    }
    Ok(lists)
}

/// The radix of some moduli of a table, as many as given, from the first given.
pub(crate) fn radix_of(
    alloc: Global,
    moduli: &Moduli,
    first: u32,
    many: u32,
) -> Result<Radix, AllocError>
    requires { first + many ≤ count moduli.now }
    ensures value { IfOk result (λ radix. radix ≡ basis_from moduli.now first many) }
    ensures basis { IfOk result IsBasis }
{
    let _count = moduli.chain_len();
    let list = some_moduli(alloc, moduli, first, many)?;
    let inverses = some_inverses(alloc, moduli, first, many)?;
    Radix::new(alloc, &list, &inverses)
}
