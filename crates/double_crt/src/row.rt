//! Lists of residues modulo one modulus: the values of a polynomial at the units, or its coefficients.
ghost use Rattle.std.specs.Prelude.{◌≡◌, ◌*◌, ◌%◌, ◌<◌, ◌≤◌, All, IfOk, OnOk, length, map, get_or};
ghost use Rattle.algebra.specs.Divisor.{UnitModulo, units as units_of};
ghost use Rattle.algebra.specs.Whole.{residue};
ghost use Rattle.cyclotomic.specs.Cyclotomic.{degree};
ghost use Rattle.mod_ring.specs.Zq.{modulus_of};
ghost use Rattle.residue_rows.specs.Values.{values_of, interpolated};
ghost use Rattle.double_crt.specs.ModuloRows.{ModuloRow, IsAlike, added, subtracted, multiplied, negative, scaled_by, permuted};
ghost use Rattle.double_crt.specs.Places.{ArePlaces};
ghost use Rattle.double_crt.specs.Roots.{point_of};

use crate::line::Line;
use crate::words::{
    add_words, mul_words, neg_words, permute_words, residues_into, scale_words, sub_words,
};
use cyclo_poly::Cyclo;
use mod_ring::Zq;
use std::alloc::{AllocError, Global};
use std::marker::Model;

/// Residues modulo one modulus. Contracts see the modulus and the residues.
#[derive(Drop)]
pub(crate) struct Row {
    ring: Zq,
    words: Vec<u64>,
}

impl Model for Row {
    ghost use Rattle.std.specs.Prelude.{◌<◌, All};
    ghost use Rattle.mod_ring.specs.Zq.{modulus_of};
    ghost use Rattle.double_crt.specs.ModuloRows.{ModuloRow};

    ghost Value = { ModuloRow };

    ghost view = { λ s. record { q = modulus_of s.ring; entries = s.words.items } };

    ghost invariant = { λ s. All (λ c. c < modulus_of s.ring) s.words.items };
}

impl Row {
    /// The residues given.
    pub(crate) fn of(alloc: Global, ring: Zq, words: &[u64]) -> Result<Row, AllocError>
        requires { All (λ c. c < modulus_of ring) words.now }
        ensures { IfOk result (λ row. row ≡ record { q = modulus_of ring; entries = words.now }) }
    {
        Ok(Row {
            ring,
            words: Vec::from_slice(alloc, words)?,
        })
    }

    /// The residues of whole numbers.
    pub(crate) fn of_small(alloc: Global, ring: Zq, coeffs: &[i64]) -> Result<Row, AllocError>
        ensures { IfOk result (λ row. row ≡ record { q = modulus_of ring; entries = map (residue (modulus_of ring)) coeffs.now }) }
    {
        let mut words = vec![in alloc; 0u64; coeffs.len()]?;
        residues_into(&ring, coeffs, &mut words);
        Ok(Row { ring, words })
    }

    /// The same row once more.
    pub(crate) fn copy(&self, alloc: Global) -> Result<Row, AllocError>
        ensures { IfOk result (λ row. row ≡ self.now) }
    {
        Ok(Row {
            ring: self.ring,
            words: Vec::from_slice(alloc, &self.words)?,
        })
    }

    /// The residue at one place.
    pub(crate) fn word(&self, unit: usize) -> u64
        requires { unit < length self.now.entries }
        ensures value { result ≡ get_or self.now.entries unit 0 }
        ensures below { result < self.now.q }
    {
        self.words[unit]
    }

    pub(crate) fn add_in(&mut self, other: &Row)
        requires { IsAlike self.old other.now }
        ensures { self.new ≡ added self.old other.now }
    {
        add_words(&self.ring, &mut self.words, &other.words);
    }

    pub(crate) fn sub_in(&mut self, other: &Row)
        requires { IsAlike self.old other.now }
        ensures { self.new ≡ subtracted self.old other.now }
    {
        sub_words(&self.ring, &mut self.words, &other.words);
    }

    pub(crate) fn mul_in(&mut self, other: &Row)
        requires { IsAlike self.old other.now }
        ensures { self.new ≡ multiplied self.old other.now }
    {
        mul_words(&self.ring, &mut self.words, &other.words);
    }

    pub(crate) fn neg_in(&mut self)
        ensures { self.new ≡ negative self.old }
    {
        neg_words(&self.ring, &mut self.words);
    }

    pub(crate) fn scale_in(&mut self, k: i64)
        ensures { self.new ≡ scaled_by k self.old }
    {
        let factor = self.ring.from_signed(k);
        scale_words(&self.ring, factor, &mut self.words);
    }

    /// Writes for each unit j the residue at the place of the unit j k modulo m.
    pub(crate) fn permute_into(&self, k: u32, units: &[u32], places: &[u32], out: &mut Row)
        requires m_some { 1 < length places.now }
        requires m_high { length places.now ≤ 65536 }
        requires k_in { k < length places.now }
        requires k_unit { UnitModulo (length places.now) k }
        requires units { units.now ≡ units_of (length places.now) }
        requires places { ArePlaces (length places.now) places.now }
        requires long { length self.now.entries ≡ length units.now }
        requires alike { IsAlike self.now out.old }
        ensures { out.new ≡ permuted (λ j. get_or places.now ((j * k) % length places.now) 0) self.now units.now }
    {
        permute_words(k, units, places, &self.words, &mut out.words);
    }

    /// Takes the coefficients of a polynomial to its values at the units.
    pub(crate) fn to_values(
        &mut self,
        alloc: Global,
        line: &Line,
        units: &[u32],
        buffer: &mut [u64],
    ) -> Result<(), AllocError>
        requires modulus { self.old.q ≡ line.now.q }
        requires long { length self.old.entries ≡ degree line.now.m }
        requires units { units.now ≡ units_of line.now.m }
        requires room { length buffer.old ≡ line.now.m }
        ensures { OnOk result (self.new ≡ record { q = self.old.q; entries = values_of line.now.m (point_of line.now) self.old.entries }) }
    {
        let mut scratch = line.scratch(alloc)?;
        line.to_values(&mut scratch, units, buffer, &mut self.words);
        Ok(())
    }

    /// The coefficients of the polynomial with these values at the units.
    pub(crate) fn coefficients(
        &self,
        alloc: Global,
        line: &Line,
        cyclo: &Cyclo,
        places: &[u32],
        values: &mut [u64],
        coeffs: &mut [u64],
    ) -> Result<Vec<u64>, AllocError>
        requires modulus { self.now.q ≡ line.now.q }
        requires same_m { cyclo.now ≡ line.now.m }
        requires long { length self.now.entries ≡ degree line.now.m }
        requires places { ArePlaces line.now.m places.now }
        requires values_room { length values.old ≡ line.now.m }
        requires coeffs_room { length coeffs.old ≡ line.now.m }
        ensures { IfOk result (λ row. row.items ≡ interpolated line.now.m (point_of line.now) self.now.entries) }
    {
        let mut scratch = line.scratch(alloc)?;
        line.coefficients(&mut scratch, cyclo, places, &self.words, values, coeffs);
        Vec::from_slice(alloc, &coeffs[..self.words.len()])
    }
}
