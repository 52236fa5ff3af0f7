//! What the tables keep of one modulus: its residues, and the plan of its transforms.
ghost use Rattle.std.specs.Prelude.{◌≡◌, ◌^◌, ◌<◌, ◌≤◌, All, IfOk, length, take};
ghost use Rattle.algebra.specs.Divisor.{units as units_of};
ghost use Rattle.cyclotomic.specs.Cyclotomic.{degree};
ghost use Rattle.mod_ring.specs.Zq.{modulus_of};
ghost use Rattle.moduli_table.specs.Accepted.{IsAcceptedRow};
ghost use Rattle.residue_rows.specs.Values.{values_of, interpolated};
ghost use Rattle.double_crt.specs.Places.{ArePlaces};
ghost use Rattle.double_crt.specs.Roots.{roots_of_row, point_of};

use crate::words::{pick_words, spread_words};
use bluestein::{Plan, Scratch};
use cyclo_poly::Cyclo;
use mod_ring::Zq;
use moduli_table::ModRow;
use std::alloc::{AllocError, Global};
use std::marker::Model;

/// A modulus with the plan of its transforms. Contracts see its roots.
#[derive(Drop)]
pub(crate) struct Line {
    ring: Zq,
    plan: Plan,
}

impl Model for Line {
    ghost use Rattle.bluestein.specs.Plan.{Roots};

    ghost Value = { Roots };

    ghost use Rattle.double_crt.specs.Lines.{IsLine};

    ghost view = { λ s. s.plan };

    ghost invariant = { IsLine };
}

/// The residues modulo q.
pub(crate) fn residues_modulo(q: u64) -> Zq
    requires low { 3 ≤ q }
    requires high { q < 2 ^ 62 }
    ensures { modulus_of result ≡ q }
{
    Zq::new(q).unwrap()
}

impl Line {
    /// The line of an accepted row.
    pub(crate) fn new(alloc: Global, m: u32, row: ModRow) -> Result<Line, AllocError>
        requires low { 3 ≤ m }
        requires high { m ≤ 65536 }
        requires accepted { IsAcceptedRow m row }
        ensures { IfOk result (λ line. line ≡ roots_of_row m row) }
    {
        Ok(Line {
            ring: residues_modulo(row.q),
            plan: Plan::new(alloc, row.q, m, row.zeta, row.psi)?,
        })
    }

    /// The residues modulo this modulus.
    pub(crate) fn ring(&self) -> Zq
        ensures { modulus_of result ≡ self.now.q }
    {
        self.ring
    }

    /// Room for the transforms.
    pub(crate) fn scratch(&self, alloc: Global) -> Result<Scratch, AllocError>
        ensures { IfOk result (λ scratch. scratch ≡ record { q = self.now.q; m = self.now.m }) }
    {
        Scratch::new(alloc, &self.plan)
    }

    /// Turns the n coefficients of a polynomial into its values at the units. Takes no memory.
    pub(crate) fn to_values(
        &self,
        scratch: &mut Scratch,
        units: &[u32],
        buffer: &mut [u64],
        words: &mut [u64],
    )
        requires scratch_modulus { scratch.old.q ≡ self.now.q }
        requires scratch_count { scratch.old.m ≡ self.now.m }
        requires units { units.now ≡ units_of self.now.m }
        requires room { length buffer.old ≡ self.now.m }
        requires long { length words.old ≡ degree self.now.m }
        requires words_in { All (λ c. c < self.now.q) words.old }
        ensures value { words.new ≡ values_of self.now.m (point_of self.now) words.old }
        ensures below { All (λ c. c < self.now.q) words.new }
    {
        self.plan.forward(scratch, words, buffer);
        pick_words(units, buffer, words);
    }

    /// Writes the n coefficients of the polynomial with these values at the units, and then zeros. Takes no memory.
    pub(crate) fn coefficients(
        &self,
        scratch: &mut Scratch,
        cyclo: &Cyclo,
        places: &[u32],
        words: &[u64],
        values: &mut [u64],
        out: &mut [u64],
    )
        requires scratch_modulus { scratch.old.q ≡ self.now.q }
        requires scratch_count { scratch.old.m ≡ self.now.m }
        requires same_m { cyclo.now ≡ self.now.m }
        requires places { ArePlaces self.now.m places.now }
        requires long { length words.now ≡ degree self.now.m }
        requires words_in { All (λ c. c < self.now.q) words.now }
        requires values_room { length values.old ≡ self.now.m }
        requires out_room { length out.old ≡ self.now.m }
        ensures value { take (length words.now) out.new ≡ interpolated self.now.m (point_of self.now) words.now }
        ensures fits { length words.now ≤ length out.new }
    {
        spread_words(places, words, values);
        self.plan.inverse(scratch, values, out);
        cyclo.fold(&self.ring, out);
    }
}
