//! Plans and the room that they work in.
ghost use Rattle.std.specs.Prelude.{◌≡◌, ℕ, ◌+◌, ◌-◌, ◌*◌, ◌/◌, ◌%◌, ◌^◌, ◌<◌, ◌≤◌, All, length, get_or, IfOk};
ghost use Rattle.mod_ring.specs.Zq.{modulus_of};
ghost use Rattle.bluestein.specs.Plan.{IsLeastPower};

use crate::chirps::{chirps, mirrored};
use crate::rows::{finish, start, turn_back};
use mod_ring::Zq;
use std::alloc::{AllocError, Global};
use std::marker::Model;
use two_power::{Cyclic, quotients_of};

/// The tables for the values of polynomials at the m powers of zeta^2 modulo q, and back. Contracts see q, m, zeta and
/// psi.
///
/// With `2ij = i^2 + j^2 - (i - j)^2` the m values are one cyclic convolution, whose length is a power of two.
#[derive(Drop)]
pub struct Plan {
    q: u64,
    count: u32,
    zeta: u64,
    psi: u64,
    cyclic: Cyclic,
    chirps: Vec<u64>,
    chirp_quotients: Vec<u64>,
    forth: Vec<u64>,
    forth_quotients: Vec<u64>,
    back: Vec<u64>,
    back_quotients: Vec<u64>,
}

impl Model for Plan {
    ghost use Rattle.bluestein.specs.Plan.{Roots};

    ghost Value = { Roots };

    ghost use Rattle.bluestein.specs.Fields.{roots_of, HasTables};

    ghost view = { roots_of };

    ghost invariant = { HasTables };
}

/// The room that the calls of a plan work in. Contracts see q and m.
#[derive(Drop)]
pub struct Scratch {
    q: u64,
    count: u32,
    lo: Vec<u64>,
    hi: Vec<u64>,
}

impl Model for Scratch {
    ghost use Rattle.bluestein.specs.Plan.{Room};

    ghost Value = { Room };

    ghost use Rattle.bluestein.specs.RoomFields.{room_of, HasRoom};

    ghost view = { room_of };

    ghost invariant = { HasRoom };
}

/// The residues modulo q.
fn residues_modulo(q: u64) -> Zq
    requires above { 2 ≤ q }
    requires small { q < 2 ^ 62 }
    ensures { modulus_of result ≡ q }
{
    Zq::new(q).unwrap()
}

/// The exponent of the least power of two that is at least 2m - 1.
fn levels_for(count: u32) -> u32
    requires some { 3 ≤ count }
    requires few { count ≤ 65536 }
    ensures size { IsLeastPower (2 * count - 1) (2 ^ result) }
    ensures low { 1 ≤ result }
    ensures high { result ≤ 17 }
{
    32 - (2 * count - 2).leading_zeros()
}

/// Half of a power of two.
fn half_size(levels: u32) -> usize
    requires low { 1 ≤ levels }
    requires high { levels ≤ 17 }
    ensures { 2 * result ≡ 2 ^ levels }
{
    1usize << (levels - 1)
}

impl Scratch {
    /// Room for the calls of this plan, and of each other one with its q and m. The one cause to fail is want of memory.
    pub fn new(alloc: Global, plan: &Plan) -> Result<Scratch, AllocError>
        ensures { IfOk result (λ scratch. scratch ≡ record { q = plan.now.q; m = plan.now.m }) }
    {
        let half = half_size(levels_for(plan.count));
        let lo = vec![in alloc; 0u64; half]?;
        let hi = vec![in alloc; 0u64; half]?;
        Ok(Scratch {
            q: plan.q,
            count: plan.count,
            lo,
            hi,
        })
    }
}

impl Plan {
    ghost use Rattle.two_power.specs.Tree.{AreFactors};
    ghost use Rattle.bluestein.specs.Plan.{Roots, AreRoots, IsRow, value_of, values_of};
    ghost use Rattle.bluestein.specs.Chirps.{AreChirps};

    /// The plan for m values modulo q, where `zeta^(2m)` is 1 and `psi^(n/2)` is -1, n being the least power of two that is
    /// at least 2m - 1. It takes about as long as seven calls of `forward`. The one cause to fail is want of memory.
    pub fn new(alloc: Global, q: u64, m: u32, zeta: u64, psi: u64) -> Result<Plan, AllocError>
        requires { AreRoots q m zeta psi }
        ensures { IfOk result (λ plan. plan ≡ record { q = q; m = m; zeta = zeta; psi = psi }) }
    {
        let ring = residues_modulo(q);
        let levels = levels_for(m);
        let inverse_zeta = ring.power_word(zeta, 2 * m as u64 - 1);
        let row = mirrored(
            alloc,
            &ring,
            inverse_zeta,
            m as usize,
            2 * half_size(levels),
        )?;
        let cyclic = Cyclic::new(alloc, q, levels, psi, row)?;
        let forth_scale = ring.power_word((q + 1) / 2, levels as u64);
        let back_scale = ring.mul_word(forth_scale, q - (q - 1) / m as u64);
        let before = chirps(alloc, &ring, zeta, 1, m as usize)?;
        let forth = chirps(alloc, &ring, zeta, forth_scale, m as usize)?;
        let back = chirps(alloc, &ring, zeta, back_scale, m as usize)?;
        let chirp_quotients = quotients_of(alloc, &before, q)?;
        let forth_quotients = quotients_of(alloc, &forth, q)?;
        let back_quotients = quotients_of(alloc, &back, q)?;
        Ok(Plan {
            q,
            count: m,
            zeta,
            psi,
            cyclic,
            chirps: before,
            chirp_quotients,
            forth,
            forth_quotients,
            back,
            back_quotients,
        })
    }

    /// Writes the m values of the polynomial with these coefficients, each times the scale of the factors and the length
    /// of the convolution.
    fn transform(
        &self,
        lo: &mut [u64],
        hi: &mut [u64],
        coeffs: &[u64],
        factors: &[u64],
        quotients: &[u64],
        out: &mut [u64],
    )
        requires lo_size { IsLeastPower (2 * self.now.m - 1) (2 * length lo.old) }
        requires hi_size { length hi.old ≡ length lo.old }
        requires few { length coeffs.now ≤ self.now.m }
        requires coeffs_in { All (λ c. c < self.now.q) coeffs.now }
        requires factors { AreFactors self.now.q factors.now quotients.now }
        requires factors_long { length factors.now ≡ self.now.m }
        requires room { length out.old ≡ self.now.m }
        ensures values { (s : ℕ) → AreChirps self.now.q self.now.zeta s self.now.m factors.now
            → (j : ℕ) → j < self.now.m
            → get_or out.new j 0 ≡ (s * (2 * length lo.old) * value_of self.now coeffs.now j) % self.now.q }
        ensures below { All (λ v. v < self.now.q) out.new }
    {
        start(coeffs, &self.chirps, &self.chirp_quotients, self.q, lo);
        self.cyclic.convolve(lo, hi);
        finish(lo, hi, factors, quotients, self.q, out);
    }

    /// Writes the m values, at the powers 0 to m - 1 of zeta^2, of the polynomial with these coefficients, at most m of
    /// them, the constant one first. Takes no memory.
    ///
    /// For q = 113, m = 7 and zeta = 7 the values of X are 1, 49, 28, 16, 106, 109 and 30.
    pub fn forward(&self, scratch: &mut Scratch, coeffs: &[u64], out: &mut [u64])
        requires same_modulus { scratch.old.q ≡ self.now.q }
        requires same_count { scratch.old.m ≡ self.now.m }
        requires few { length coeffs.now ≤ self.now.m }
        requires coeffs_in { All (λ c. c < self.now.q) coeffs.now }
        requires room { length out.old ≡ self.now.m }
        ensures values { out.new ≡ values_of self.now coeffs.now }
        ensures below { All (λ v. v < self.now.q) out.new }
        ensures scratch { scratch.new ≡ scratch.old }
    {
        self.transform(
            &mut scratch.lo,
            &mut scratch.hi,
            coeffs,
            &self.forth,
            &self.forth_quotients,
            out,
        );
    }

    /// Writes the m coefficients, the constant one first, of the polynomial with these m values at the powers 0 to m - 1
    /// of zeta^2. Takes no memory.
    pub fn inverse(&self, scratch: &mut Scratch, values: &[u64], out: &mut [u64])
        requires same_modulus { scratch.old.q ≡ self.now.q }
        requires same_count { scratch.old.m ≡ self.now.m }
        requires all { length values.now ≡ self.now.m }
        requires values_in { All (λ v. v < self.now.q) values.now }
        requires room { length out.old ≡ self.now.m }
        ensures row { IsRow self.now out.new }
        ensures values { values_of self.now out.new ≡ values.now }
        ensures scratch { scratch.new ≡ scratch.old }
    {
        self.transform(
            &mut scratch.lo,
            &mut scratch.hi,
            values,
            &self.back,
            &self.back_quotients,
            out,
        );
        turn_back(out);
    }
}
