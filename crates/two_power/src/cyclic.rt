//! Cyclic convolutions with a fixed row.
ghost use Rattle.std.specs.Prelude.{◌≡◌, ℕ, ◌+◌, ◌-◌, ◌*◌, ◌%◌, ◌^◌, ◌<◌, ◌≤◌, All, List, length, get_or, IfOk};
ghost use Rattle.mod_ring.specs.Zq.{modulus_of};
ghost use Rattle.two_power.specs.Tree.{value, root, IsTree, AreFactors, EachBelow, AreValues, AreMultiples};
ghost use Rattle.two_power.specs.Convolution.{convolved};

use crate::transforms::{ascend, descend};
use crate::tree::{grow, quotients_of};
use mod_ring::Zq;
use mod_ring::lazy::{mul_lazy, reduce_double, reduce_once};
use std::alloc::{AllocError, Global};
use std::marker::Model;

/// Multiplies each entry of a row by its own constant factor; what comes is below 2q.
fn multiply(row: &mut [u64], factors: &[u64], quotients: &[u64], q: u64)
    requires same { length factors.now ≡ length row.old }
    requires some { 0 < q }
    requires small { q < 2 ^ 62 }
    requires factors { AreFactors q factors.now quotients.now }
    ensures value { (i : ℕ) → i < length row.old
        → get_or row.new i 0 % q ≡ (get_or factors.now i 0 * get_or row.old i 0) % q }
    ensures below { EachBelow (2 * q) row.new }
{
    for i in 0..row.len() {
        row[i] = mul_lazy(factors[i], quotients[i], row[i], q);
    }
}

/// Brings each entry of a row below q.
fn reduce(row: &mut [u64], q: u64)
    requires some { 0 < q }
    requires small { q < 2 ^ 62 }
    requires row_in { EachBelow (4 * q) row.old }
    ensures value { (i : ℕ) → get_or row.new i 0 % q ≡ get_or row.old i 0 % q }
    ensures below { All (λ a. a < q) row.new }
{
    for i in 0..row.len() {
        row[i] = reduce_once(reduce_double(row[i], q), q);
    }
}

/// Makes of the coefficients of a polynomial its values at the roots of the leaves of a tree.
fn to_values(row: &mut [u64], levels: u32, ws: &[u64], quotients: &[u64], q: u64)
    requires size { length row.old ≡ 2 ^ levels }
    requires tree_size { 2 ^ levels ≤ 2 * length ws.now }
    requires some { 0 < q }
    requires small { q < 2 ^ 62 }
    requires factors { AreFactors q ws.now quotients.now }
    requires tree { IsTree q ws.now }
    requires row_in { All (λ a. a < q) row.old }
    ensures values { AreValues q ws.now levels 0 row.old row.new }
    ensures below { All (λ a. a < q) row.new }
{
    descend(row, levels, 0, ws, quotients, q);
    reduce(row, q);
}

/// The residues modulo q.
fn residues_modulo(q: u64) -> Zq
    requires above { 2 ≤ q }
    requires small { q < 2 ^ 62 }
    ensures { modulus_of result ≡ q }
{
    Zq::new(q).unwrap()
}

/// The tables for the cyclic convolution with one row of 2^levels entries modulo q.
#[derive(Drop)]
pub struct Cyclic {
    q: u64,
    levels: u32,
    ws: Vec<u64>,
    ws_quotients: Vec<u64>,
    vs: Vec<u64>,
    vs_quotients: Vec<u64>,
    values: Vec<u64>,
    values_quotients: Vec<u64>,
}

impl Model for Cyclic {
    ghost use Rattle.two_power.specs.Convolution.{Convolver};

    ghost Value = { Convolver };

    ghost use Rattle.two_power.specs.Tables.{convolver_of, AreTables};

    ghost view = { convolver_of };

    ghost invariant = { AreTables };
}

impl Cyclic {
    ghost use Rattle.two_power.specs.Convolution.{HasRow};

    /// The tables for the row given, where psi is a root of order 2^levels. The one cause to fail is want of memory.
    pub fn new(
        alloc: Global,
        q: u64,
        levels: u32,
        psi: u64,
        row: Vec<u64>,
    ) -> Result<Cyclic, AllocError>
        requires above { 2 ≤ q }
        requires small { q < 2 ^ 62 }
        requires some { 1 ≤ levels }
        requires size { length row.items ≡ 2 ^ levels }
        requires psi_in { psi < q }
        requires psi_half { psi ^ (2 ^ (levels - 1)) % q ≡ q - 1 }
        requires row_in { All (λ a. a < q) row.items }
        ensures modulus { IfOk result (λ cyclic. cyclic.q ≡ q) }
        ensures levels { IfOk result (λ cyclic. cyclic.levels ≡ levels) }
        ensures row { IfOk result (λ cyclic. HasRow cyclic row.items) }
    {
        let ring = residues_modulo(q);
        let half = row.len() / 2;
        let mut ws = vec![in alloc; 0u64; half]?;
        let mut vs = vec![in alloc; 0u64; half]?;
        let inverse = ring.power_word(psi, row.len() as u64 - 1);
        grow(&ring, &mut ws, &mut vs, levels - 1, psi, inverse);
        let ws_quotients = quotients_of(alloc, &ws, q)?;
        let vs_quotients = quotients_of(alloc, &vs, q)?;
        let mut values = row;
        to_values(&mut values, levels, &ws, &ws_quotients, q);
        let values_quotients = quotients_of(alloc, &values, q)?;
        Ok(Cyclic {
            q,
            levels,
            ws,
            ws_quotients,
            vs,
            vs_quotients,
            values,
            values_quotients,
        })
    }

    /// Makes of the coefficients of a polynomial those of its product with the fixed row below one node of the first
    /// level, times their number.
    fn convolve_below(&self, a: &mut [u64], node: usize, values: &[u64], quotients: &[u64])
        requires size { length a.old ≡ 2 ^ (self.now.levels - 1) }
        requires node_in { node < 2 }
        requires same { length values.now ≡ length a.old }
        requires factors { AreFactors self.now.q values.now quotients.now }
        requires a_in { EachBelow (4 * self.now.q) a.old }
        ensures product { (p : List ℕ) → length p ≡ 2 ^ (self.now.levels - 1)
            → ((j : ℕ) → j < 2 ^ (self.now.levels - 1)
            → value p (root self.now.q self.now.ws (node * 2 ^ (self.now.levels - 1) + j)) % self.now.q
            ≡ (get_or values.now j 0
            * value a.old (root self.now.q self.now.ws (node * 2 ^ (self.now.levels - 1) + j))) % self.now.q)
            → AreMultiples self.now.q (2 ^ (self.now.levels - 1)) p a.new }
        ensures below { EachBelow (2 * self.now.q) a.new }
    {
        descend(
            a,
            self.levels - 1,
            node,
            &self.ws,
            &self.ws_quotients,
            self.q,
        );
        multiply(a, values, quotients, self.q);
        ascend(
            a,
            self.levels - 1,
            node,
            &self.vs,
            &self.vs_quotients,
            self.q,
        );
    }

    /// Convolves the row in `lo`, half as long as the fixed one, with the fixed one. The sums of the entries of `lo` and
    /// `hi` are then the first half of the convolution, times the length of the fixed row. What stands in `hi` before
    /// does not count. Takes no memory.
    pub fn convolve(&self, lo: &mut [u64], hi: &mut [u64])
        requires lo_size { length lo.old ≡ 2 ^ (self.now.levels - 1) }
        requires hi_size { length hi.old ≡ 2 ^ (self.now.levels - 1) }
        requires lo_in { EachBelow (4 * self.now.q) lo.old }
        ensures value { (f : List ℕ) → HasRow self.now f → (j : ℕ) → j < length lo.old
            → (get_or lo.new j 0 + get_or hi.new j 0) % self.now.q
            ≡ (2 ^ self.now.levels * convolved f lo.old j) % self.now.q }
        ensures lo_below { EachBelow (2 * self.now.q) lo.new }
        ensures hi_below { EachBelow (2 * self.now.q) hi.new }
    {
        hi.copy_from_slice(lo);
        let (lo_values, hi_values) = self.values.split_at(lo.len());
        let (lo_quotients, hi_quotients) = self.values_quotients.split_at(lo.len());
        self.convolve_below(lo, 0, lo_values, lo_quotients);
        self.convolve_below(hi, 1, hi_values, hi_quotients);
    }
}
