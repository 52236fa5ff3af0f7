//! The moduli of a table before they are checked, and their checks.
ghost use Rattle.std.specs.Prelude.{◌≡◌, ◌≢◌, ◌+◌, ◌<◌, ◌≤◌, IfOk, map, length};
ghost use Rattle.moduli_table.specs.Chain.{IsShaped, count, row_at, entry_at};
ghost use Rattle.moduli_table.specs.First.{first_below};
ghost use Rattle.moduli_table.specs.Checks.{is_size, is_inverse, row_fault, inverse_fault, first_row_fault, first_inverse_fault, first_plain_fault, first_fault};

use crate::faults::ModFault;
use crate::roots::{is_half_root, is_root, is_two_root};
use crate::rows::ModRow;
use mod_ring::Zq;
use std::alloc::{AllocError, Global};

/// The moduli of a table as they were read, numbered from 0, those of the chain first.
#[derive(Drop)]
pub(crate) struct Unchecked {
    pub(crate) m: u32,
    pub(crate) p: u32,
    pub(crate) chain: Vec<ModRow>,
    pub(crate) special: Vec<ModRow>,
    // list j has the inverses modulo modulus j of the moduli before it
    pub(crate) inverse: Vec<Vec<u64>>,
}

/// Whether a modulus and its roots are in range.
fn is_size(row: ModRow) -> bool
    ensures { result ≡ is_size row }
{
    row.q % 2 == 1 && row.q >= 3 && row.q < 1 << 62 && row.zeta < row.q && row.psi < row.q
}

/// Whether e is below q and the inverse of k modulo q.
fn is_inverse(q: u64, k: u64, e: u64) -> bool
    ensures { result ≡ is_inverse q k e }
{
    e < q && k as u128 * e as u128 % q as u128 == 1
}

/// The first check that row i fails.
fn row_fault(m: u32, i: u32, row: ModRow) -> Option<ModFault>
    requires m_low { 1 ≤ m }
    requires m_high { m ≤ 65536 }
    ensures { result ≡ row_fault m i row }
{
    if !is_size(row) {
        return Some(ModFault::Size(i));
    }
    if row.q % m as u64 != 1 {
        return Some(ModFault::Residue(i));
    }
    let ring = Zq::new(row.q).unwrap();
    if !is_half_root(&ring, m, row.zeta) {
        return Some(ModFault::HalfRoot(i));
    }
    if !is_root(&ring, m, row.zeta) {
        return Some(ModFault::Root(i));
    }
    if !is_two_root(&ring, m, row.psi) {
        return Some(ModFault::TwoRoot(i));
    }
    None
}

/// Copies of some lists, in order.
pub(crate) fn copies(alloc: Global, lists: &[Vec<u64>]) -> Result<Vec<Vec<u64>>, AllocError>
    ensures { IfOk result (λ r. map (λ list. list.items) r.items ≡ map (λ list. list.items) lists.now) }
{
    let mut all = Vec::with_capacity(alloc, lists.len())?;
    for list in lists {
        let copy = Vec::from_slice(alloc, list)?;
        all.push(copy)?;
    }
    Ok(all)
}

impl Unchecked {
    ghost use Rattle.moduli_table.specs.Inside.{chain_of};

    /// How many moduli there are.
    pub(crate) fn count(&self) -> u32
        requires { IsShaped (chain_of self.now) }
        ensures { result ≡ count (chain_of self.now) }
    {
        (self.chain.len() + self.special.len()) as u32
    }

    /// The row of modulus i.
    pub(crate) fn row(&self, i: u32) -> ModRow
        requires { i < count (chain_of self.now) }
        ensures { result ≡ row_at (chain_of self.now) i }
    {
        let i = i as usize;
        if i < self.chain.len() {
            self.chain[i]
        } else {
            self.special[i - self.chain.len()]
        }
    }

    /// The table's inverse of modulus i modulo modulus j, for i below j.
    pub(crate) fn entry(&self, i: u32, j: u32) -> u64
        requires shaped { IsShaped (chain_of self.now) }
        requires i_in { i < j }
        requires j_in { j < count (chain_of self.now) }
        ensures { result ≡ entry_at (chain_of self.now) i j }
    {
        let list = &self.inverse[j as usize];
        list[i as usize]
    }

    /// The first row that fails, with its first check that fails.
    fn first_row_fault(&self) -> Option<ModFault>
        requires { IsShaped (chain_of self.now) }
        ensures { result ≡ first_row_fault (chain_of self.now) }
    {
        for i in 0..self.count() {
            let fault = row_fault(self.m, i, self.row(i));
            if fault.is_some() {
                return fault;
            }
        }
        None
    }

    /// The first wrong inverse modulo modulus j.
    fn inverse_fault(&self, j: u32) -> Option<ModFault>
        requires shaped { IsShaped (chain_of self.now) }
        requires j_in { j < count (chain_of self.now) }
        ensures { result ≡ first_below j (inverse_fault (chain_of self.now) j) }
    {
        let q = self.row(j).q;
        for i in 0..j {
            if !is_inverse(q, self.row(i).q, self.entry(i, j)) {
                return Some(ModFault::Inverse(i, j));
            }
        }
        None
    }

    /// The first wrong inverse of one modulus modulo a later one.
    fn first_inverse_fault(&self) -> Option<ModFault>
        requires { IsShaped (chain_of self.now) }
        ensures { result ≡ first_inverse_fault (chain_of self.now) }
    {
        for j in 0..self.count() {
            let fault = self.inverse_fault(j);
            if fault.is_some() {
                return fault;
            }
        }
        None
    }

    /// The first wrong inverse modulo p.
    fn first_plain_fault(&self) -> Option<ModFault>
        requires { IsShaped (chain_of self.now) }
        ensures { result ≡ first_plain_fault (chain_of self.now) }
    {
        for i in 0..self.count() {
            let row = self.row(i);
            if !is_inverse(self.p as u64, row.q, row.plain_inverse) {
                return Some(ModFault::PlainInverse(i));
            }
        }
        None
    }

    /// The first check that fails.
    pub(crate) fn first_fault(&self) -> Option<ModFault>
        requires { IsShaped (chain_of self.now) }
        ensures { result ≡ first_fault (chain_of self.now) }
    {
        let fault = self.first_row_fault();
        if fault.is_some() {
            return fault;
        }
        let fault = self.first_inverse_fault();
        if fault.is_some() {
            return fault;
        }
        self.first_plain_fault()
    }
}
