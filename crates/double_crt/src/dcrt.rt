//! Polynomials of R modulo moduli of a table.
ghost use Rattle.std.specs.Prelude.{◌≡◌, ◌<◌, ◌≤◌, IfOk, IsTrue, [], get_or, length, map};
ghost use Rattle.algebra.specs.Divisor.{UnitModulo};
ghost use Rattle.cyclotomic.specs.Cyclotomic.{degree};
ghost use Rattle.residue_rows.specs.Rows.{AreRows, rows_of, multiple_each, substituted_each};
ghost use Rattle.residue_rows.specs.Kept.{IsKept, AreAlike, moduli_kept, moduli_of, ring_of, with_rows, polynomial_values};
ghost use Rattle.double_crt.specs.Restricted.{restricted};

use crate::fills::{coefficients, extend, fewer_rows, given_rows, small_rows, to_values};
use crate::row::Row;
use crate::rows::{add_rows, mul_rows, neg_rows, permute_rows, scale_rows, sub_rows};
use crate::tables::RingTables;
use std::alloc::{AllocError, Global};
use std::marker::Model;
use std::rc::Rc;

/// A polynomial of R modulo the first moduli of the chain of a table, with its special moduli or without them. Contracts see
/// the tables, which moduli these are, and for each of them the n residues of the coefficients.
#[derive(Drop)]
pub struct Dcrt {
    tables: Rc<RingTables>,
    chain_rows: u32,
    special: bool,
    // the values at the units
    rows: Vec<Row>,
}

impl Model for Dcrt {
    ghost use Rattle.residue_rows.specs.Kept.{Residues};
    ghost use Rattle.double_crt.specs.Held.{polynomial_of, IsHeld};

    ghost Value = { Residues };

    ghost view = { λ s. polynomial_of s.tables.value s.chain_rows s.special s.rows.items };

    ghost invariant = { λ s. IsHeld s.tables.value s.chain_rows s.special s.rows.items };
}

impl Dcrt {
    /// The polynomial with these n coefficients. The one cause to fail is want of memory.
    pub fn from_small(
        alloc: Global,
        tables: &Rc<RingTables>,
        chain_rows: u32,
        special: bool,
        coeffs: &[i64],
    ) -> Result<Dcrt, AllocError>
        requires fits { chain_rows ≤ length tables.now.value.moduli.chain }
        requires long { length coeffs.now ≡ degree tables.now.value.moduli.m }
        ensures value { IfOk result (λ a. a ≡ record { tables = tables.now.value; chain_rows = chain_rows; special = special; rows = rows_of (moduli_kept tables.now.value chain_rows special) coeffs.now }) }
        ensures kept { IfOk result IsKept }
    {
        let mut rows = small_rows(alloc, tables, chain_rows, special, coeffs)?;
        to_values(alloc, tables, chain_rows, special, &mut rows)?;
        Ok(Dcrt {
            tables: tables.clone()?,
            chain_rows,
            special,
            rows,
        })
    }

    /// The polynomial with these rows of n residues, one for each modulus. The one cause to fail is want of memory.
    pub fn from_residues(
        alloc: Global,
        tables: &Rc<RingTables>,
        chain_rows: u32,
        special: bool,
        rows: &[Vec<u64>],
    ) -> Result<Dcrt, AllocError>
        requires fits { chain_rows ≤ length tables.now.value.moduli.chain }
        requires rows { AreRows tables.now.value.moduli.m (moduli_kept tables.now.value chain_rows special) (map (λ row. row.items) rows.now) }
        ensures value { IfOk result (λ a. a ≡ record { tables = tables.now.value; chain_rows = chain_rows; special = special; rows = map (λ row. row.items) rows.now }) }
        ensures kept { IfOk result IsKept }
    {
        let mut rows = given_rows(alloc, tables, chain_rows, special, rows)?;
        to_values(alloc, tables, chain_rows, special, &mut rows)?;
        Ok(Dcrt {
            tables: tables.clone()?,
            chain_rows,
            special,
            rows,
        })
    }

    /// The one polynomial that has these values at the units: for each modulus, for each unit j in ascending order, the value
    /// at `omega^j`. The one cause to fail is want of memory.
    pub fn from_values(
        alloc: Global,
        tables: &Rc<RingTables>,
        chain_rows: u32,
        special: bool,
        rows: &[Vec<u64>],
    ) -> Result<Dcrt, AllocError>
        requires fits { chain_rows ≤ length tables.now.value.moduli.chain }
        requires rows { AreRows tables.now.value.moduli.m (moduli_kept tables.now.value chain_rows special) (map (λ row. row.items) rows.now) }
        ensures tables { IfOk result (λ a. a.tables ≡ tables.now.value) }
        ensures chain_rows { IfOk result (λ a. a.chain_rows ≡ chain_rows) }
        ensures special { IfOk result (λ a. a.special ≡ special) }
        ensures values { IfOk result (λ a. polynomial_values a ≡ map (λ row. row.items) rows.now) }
        ensures kept { IfOk result IsKept }
    {
        let rows = given_rows(alloc, tables, chain_rows, special, rows)?;
        Ok(Dcrt {
            tables: tables.clone()?,
            chain_rows,
            special,
            rows,
        })
    }

    /// For each modulus the n residues of the coefficients. The one cause to fail is want of memory.
    pub fn to_residues(&self, alloc: Global) -> Result<Vec<Vec<u64>>, AllocError>
        ensures value { IfOk result (λ rows. map (λ row. row.items) rows.items ≡ self.now.rows) }
        ensures kept { IsKept self.now }
    {
        coefficients(
            alloc,
            &self.tables,
            self.chain_rows,
            self.special,
            &self.rows,
        )
    }

    /// The same polynomial modulo fewer moduli: the first ones of the chain, with the special ones or without them. The one
    /// cause to fail is want of memory.
    pub fn restrict(
        &self,
        alloc: Global,
        chain_rows: u32,
        special: bool,
    ) -> Result<Dcrt, AllocError>
        requires chain_fits { chain_rows ≤ self.now.chain_rows }
        requires special_there { IsTrue special → IsTrue self.now.special }
        ensures value { IfOk result (λ a. a ≡ restricted self.now chain_rows special) }
        ensures kept { IfOk result IsKept }
    {
        let rows = fewer_rows(alloc, &self.rows, self.chain_rows, chain_rows, special)?;
        Ok(Dcrt {
            tables: self.tables.clone()?,
            chain_rows,
            special,
            rows,
        })
    }

    /// The same polynomial once more. The one cause to fail is want of memory.
    pub fn copy(&self, alloc: Global) -> Result<Dcrt, AllocError>
        ensures value { IfOk result (λ a. a ≡ self.now) }
        ensures kept { IsKept self.now }
    {
        let mut rows = Vec::new(alloc);
        extend(alloc, &mut rows, &self.rows)?;
        Ok(Dcrt {
            tables: self.tables.clone()?,
            chain_rows: self.chain_rows,
            special: self.special,
            rows,
        })
    }

    /// Adds another polynomial of the same tables and moduli. Takes no memory.
    pub fn add_in(&mut self, b: &Dcrt)
        requires alike { AreAlike self.old b.now }
        ensures value { self.new ≡ with_rows self.old ((ring_of self.old).add self.old.rows b.now.rows) }
        ensures kept { IsKept self.new }
    {
        add_rows(&mut self.rows, &b.rows);
    }

    /// Subtracts another polynomial of the same tables and moduli. Takes no memory.
    pub fn sub_in(&mut self, b: &Dcrt)
        requires alike { AreAlike self.old b.now }
        ensures value { self.new ≡ with_rows self.old ((ring_of self.old).add self.old.rows ((ring_of self.old).neg b.now.rows)) }
        ensures kept { IsKept self.new }
    {
        sub_rows(&mut self.rows, &b.rows);
    }

    /// Turns the polynomial into its negative. Takes no memory.
    pub fn neg_in(&mut self)
        ensures value { self.new ≡ with_rows self.old ((ring_of self.old).neg self.old.rows) }
        ensures kept { IsKept self.new }
    {
        neg_rows(&mut self.rows);
    }

    /// Multiplies by another polynomial of the same tables and moduli. Takes no memory.
    pub fn mul_in(&mut self, b: &Dcrt)
        requires alike { AreAlike self.old b.now }
        ensures value { self.new ≡ with_rows self.old ((ring_of self.old).mul self.old.rows b.now.rows) }
        ensures kept { IsKept self.new }
    {
        mul_rows(&mut self.rows, &b.rows);
    }

    /// Multiplies by a whole number. Takes no memory.
    pub fn scale_in(&mut self, k: i64)
        ensures value { self.new ≡ with_rows self.old (multiple_each (moduli_of self.old) k self.old.rows) }
        ensures kept { IsKept self.new }
    {
        scale_rows(&mut self.rows, k);
    }

    /// Writes the polynomial with X^k put for X, for a unit k. Takes no memory.
    pub fn permute_into(&self, k: u32, out: &mut Dcrt)
        requires low { 1 ≤ k }
        requires high { k < self.now.tables.moduli.m }
        requires unit { UnitModulo self.now.tables.moduli.m k }
        requires alike { AreAlike self.now out.old }
        ensures value { out.new ≡ with_rows self.now (substituted_each self.now.tables.moduli.m (moduli_of self.now) k self.now.rows) }
        ensures kept { IsKept out.new }
    {
        permute_rows(
            &self.rows,
            k,
            self.tables.units(),
            self.tables.places(),
            &mut out.rows,
        );
    }

    /// The value of one row at `omega^j`, where j is the unit with this place, from 0, in the ascending list of units. Takes no
    /// memory.
    pub fn value(&self, row: u32, unit: u32) -> u64
        requires row_in { row < length self.now.rows }
        requires unit_in { unit < degree self.now.tables.moduli.m }
        ensures value { result ≡ get_or (get_or (polynomial_values self.now) row []) unit 0 }
        ensures below { result < get_or (moduli_of self.now) row 0 }
        ensures kept { IsKept self.now }
    {
        self.rows[row as usize].word(unit as usize)
    }

    /// How many moduli of the chain there are. Takes no memory.
    pub fn chain_rows(&self) -> u32
        ensures value { result ≡ self.now.chain_rows }
        ensures kept { IsKept self.now }
    {
        self.chain_rows
    }

    /// Whether the special moduli are there. Takes no memory.
    pub fn has_special(&self) -> bool
        ensures value { result ≡ self.now.special }
        ensures kept { IsKept self.now }
    {
        self.special
    }

    /// The tables. Takes no memory.
    pub fn tables(&self) -> &Rc<RingTables>
        ensures value { result.now.value ≡ self.now.tables }
        ensures kept { IsKept self.now }
    {
        &self.tables
    }
}
