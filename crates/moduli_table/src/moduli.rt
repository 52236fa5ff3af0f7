//! The moduli of a table that passed their checks.
ghost use Rattle.std.specs.Prelude.{◌≡◌, ◌≢◌, ℕ, ◌+◌, ◌<◌, ◌≤◌, IfOk, IfErr, None, Some, [], map, length, slice_index_or};

use crate::faults::ModFault;
use crate::rows::ModRow;
use crate::unchecked::{Unchecked, copies};
use std::alloc::Global;
use std::marker::Model;

/// The moduli of a table, numbered from 0, those of the chain first, with roots of unity and inverses that were checked.
/// Contracts see m, p, the rows, and the inverses of the table.
#[derive(Drop)]
pub struct Moduli {
    numbers: Unchecked,
}

impl Model for Moduli {
    ghost use Rattle.moduli_table.specs.Chain.{Chain};
    ghost use Rattle.moduli_table.specs.Accepted.{IsAccepted};
    ghost use Rattle.moduli_table.specs.Inside.{chain_of};

    ghost Value = { Chain };

    ghost view = { λ s. chain_of s.numbers };

    ghost invariant = { λ s. IsAccepted (chain_of s.numbers) };
}

impl Moduli {
    ghost use Rattle.moduli_table.specs.Chain.{Chain, count, row_at, modulus_at};
    ghost use Rattle.moduli_table.specs.Checks.{first_fault};
    ghost use Rattle.moduli_table.specs.Accepted.{IsAccepted, IsInverse};
    ghost use Rattle.moduli_table.specs.declared.faults.ModFault.TheVariants.{Memory};

    /// The moduli of a table. List j of the inverses has the inverses modulo modulus j of the j moduli before it.
    ///
    /// It is refused with the first check that fails, and for no other cause than want of memory. The checks are, modulus
    /// by modulus, `Size`, `Residue`, `HalfRoot`, `Root` and `TwoRoot`; then `Inverse i j`, by j and then by i; then
    /// `PlainInverse`. With m = 7, p = 2, the chain `[113, 7, 40, 1]`, the special row `[337, 285, 191, 1]` and the
    /// inverses `[[], [170]]` all pass.
    pub fn new(
        alloc: Global,
        m: u32,
        p: u32,
        chain: &[ModRow],
        special: &[ModRow],
        inverse: &[Vec<u64>],
    ) -> Result<Moduli, ModFault>
        requires m_low { 3 ≤ m }
        requires m_high { m ≤ 65536 }
        requires p_low { 2 ≤ p }
        requires p_high { p ≤ 131071 }
        requires chain_low { 1 ≤ length chain.now }
        requires chain_high { length chain.now ≤ 32 }
        requires special_low { 1 ≤ length special.now }
        requires special_high { length special.now ≤ 16 }
        requires lists { length inverse.now ≡ length chain.now + length special.now }
        requires entries { (j : ℕ) → j < length inverse.now
            → length (slice_index_or (map (λ list. list.items) inverse.now) j []) ≡ j }

        // With the moduli that were given, all checks pass, or the error is the first that fails.
        ensures value { let given : Chain = record { m = m; p = p; chain = chain.now; special = special.now; inverse = map (λ list. list.items) inverse.now } in
            IfOk result (λ moduli. moduli ≡ given) }
        ensures accepted { let given : Chain = record { m = m; p = p; chain = chain.now; special = special.now; inverse = map (λ list. list.items) inverse.now } in
            IfOk result (λ _. first_fault given ≡ None) }
        ensures valid { IfOk result IsAccepted }
        ensures refused { let given : Chain = record { m = m; p = p; chain = chain.now; special = special.now; inverse = map (λ list. list.items) inverse.now } in
            IfErr result (λ fault. fault ≢ ModFault.Memory → first_fault given ≡ Some fault) }
    {
        let numbers = Unchecked {
            m,
            p,
            chain: Vec::from_slice(alloc, chain)?,
            special: Vec::from_slice(alloc, special)?,
            inverse: copies(alloc, inverse)?,
        };
        if let Some(fault) = numbers.first_fault() {
            return Err(fault);
        }
        Ok(Moduli { numbers })
    }

    /// How many moduli the chain has.
    pub fn chain_len(&self) -> u32
        ensures value { result ≡ length self.now.chain }
        ensures valid { IsAccepted self.now }
    {
        self.numbers.chain.len() as u32
    }

    /// How many special moduli there are.
    pub fn special_len(&self) -> u32
        ensures value { result ≡ length self.now.special }
        ensures valid { IsAccepted self.now }
    {
        self.numbers.special.len() as u32
    }

    /// The number m.
    pub fn m(&self) -> u32
        ensures value { result ≡ self.now.m }
        ensures valid { IsAccepted self.now }
    {
        self.numbers.m
    }

    /// The modulus p.
    pub fn p(&self) -> u32
        ensures value { result ≡ self.now.p }
        ensures valid { IsAccepted self.now }
    {
        self.numbers.p
    }

    /// The row of modulus i.
    pub fn row(&self, i: u32) -> ModRow
        requires { i < count self.now }
        ensures value { result ≡ row_at self.now i }
        ensures valid { IsAccepted self.now }
    {
        self.numbers.row(i)
    }

    /// The inverse of modulus i modulo modulus j, for i other than j: an entry of the table for i below j, and otherwise
    /// found from the entry for j and i.
    ///
    /// The inverse of 113 modulo 337 is 170, and that of 337 modulo 113 is 56.
    pub fn inverse(&self, i: u32, j: u32) -> u64
        requires i_in { i < count self.now }
        requires j_in { j < count self.now }
        requires apart { i ≢ j }
        ensures { IsInverse (modulus_at self.now j) (modulus_at self.now i) result }
    {
        if i < j {
            return self.numbers.entry(i, j);
        }
        let modulus = self.numbers.row(i).q;
        let target = self.numbers.row(j).q;
        let entry = self.numbers.entry(j, i);
        let quotient = (target as u128 * entry as u128 - 1) / modulus as u128;
        target - quotient as u64
    }
}
