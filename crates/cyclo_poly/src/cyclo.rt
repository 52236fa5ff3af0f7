//! The cyclotomic polynomial Phi_m with its tables: its coefficients, the height of m, and the strides of its passes.
ghost use Rattle.std.specs.Prelude.{◌≡◌, ◌+◌, ◌-◌, ◌^◌, ◌<◌, ◌≤◌, ◌++◌, IfOk, IsErrOf, length, map, replicate, true, false};
ghost use Rattle.std.specs.List.{All};
ghost use Rattle.algebra.specs.Ring.{residues};
ghost use Rattle.algebra.specs.Divisor.{number_of_units};
ghost use Rattle.algebra.specs.Poly.{remainder};
ghost use Rattle.algebra.specs.Whole.{residue};
ghost use Rattle.cyclotomic.specs.Cyclotomic.{phi, degree};
ghost use Rattle.cyclotomic.specs.Norm.{height};
ghost use Rattle.mod_ring.specs.Zq.{modulus_of};
ghost use Rattle.cyclo_poly.specs.Tall.{is_tall};
ghost use Rattle.cyclo_poly.specs.declared.cyclo.CycloFault.TheVariants.{Memory};

use crate::factors::has_large_factor;
use crate::members::small_member;
use crate::passes::{clear, lower_all, raise_all};
use crate::powers::small_height;
use crate::strides::{Strides, strides_of};
use mod_ring::Zq;
use std::alloc::{AllocError, Global};
use std::marker::Model;
use thiserror::Error;

/// Why there are no tables for m.
#[derive(Debug, Drop, Error)]
pub enum CycloFault {
    /// A coefficient on the way to Phi_m has an absolute value of 2^31 or more.
    #[error("tall")]
    Tall,
    /// There is no memory left.
    #[error("memory")]
    Memory,
}

impl From<AllocError> for CycloFault {
    ghost from_gives = { λ _ e. e ≡ Memory };

    fn from(_e: AllocError) -> CycloFault {
        CycloFault::Memory
    }
}

/// The polynomial Phi_m of degree n. Contracts see it as the number m, which is from 3 to 65536 and not tall.
#[derive(Drop)]
pub struct Cyclo {
    m: u32,
    member: Vec<i64>,
    high: u32,
    strides: Strides,
}

impl Model for Cyclo {
    ghost use Rattle.std.specs.Prelude.{ℕ};
    ghost use Rattle.cyclo_poly.specs.Kept.{IsKept};

    ghost Value = { ℕ };

    ghost view = { λ s. s.m };

    ghost invariant = { λ s. IsKept s.m s.member.items s.high s.strides.above.items s.strides.below.items };
}

impl Cyclo {
    /// Phi_m with its tables, for m from 3 to 65536.
    ///
    /// It is refused exactly where m is tall: where X^m - 1 is divided by Phi_d for its divisors d, one after another, and
    /// a coefficient of some Phi_d or of what is left, or one of the remainder by Phi_m of X^t for some t below m, has an
    /// absolute value of 2^31 or more.
    pub fn new(alloc: Global, m: u32) -> Result<Cyclo, CycloFault>
        requires low { 3 ≤ m }
        requires high { m ≤ 2 ^ 16 }
        ensures value { IfOk result (λ c. c ≡ m) }
        ensures fits { IfOk result (λ _. is_tall m ≡ false) }
        ensures refused { IsErrOf result CycloFault.Tall → is_tall m ≡ true }
    {
        if has_large_factor(alloc, m as usize)? {
            return Err(CycloFault::Tall);
        }
        let Some(member) = small_member(alloc, m as usize)? else {
            return Err(CycloFault::Tall);
        };
        let Some(high) = small_height(alloc, m as usize, &member)? else {
            return Err(CycloFault::Tall);
        };
        let strides = strides_of(alloc, m as usize)?;
        Ok(Cyclo {
            m,
            member,
            high,
            strides,
        })
    }

    /// The number m.
    pub fn m(&self) -> u32
        ensures value { result ≡ self.now }
        ensures low { 3 ≤ self.now }
        ensures high { self.now ≤ 2 ^ 16 }
        ensures fits { is_tall self.now ≡ false }
    {
        let _member = &self.member;
        self.m
    }

    /// The n + 1 coefficients of Phi_m, the constant one first. Those of Phi_12 are 1, 0, -1, 0, 1.
    pub fn phi(&self) -> &[i64]
        ensures value { result.now ≡ phi self.now }
        ensures long { length result.now ≡ degree self.now + 1 }
    {
        &self.member
    }

    /// The degree n of Phi_m: the number of units modulo m.
    pub fn degree(&self) -> u32
        ensures value { result ≡ degree self.now }
        ensures units { result ≡ number_of_units self.now }
        ensures positive { 0 < result }
        ensures less { result < self.now }
    {
        (self.member.len() - 1) as u32
    }

    /// The height of m: the greatest absolute value among the coefficients of the remainders by Phi_m of X^t for t < m.
    pub fn height(&self) -> u32
        ensures value { result ≡ height self.now }
        ensures low { 1 ≤ result }
        ensures high { result < 2 ^ 31 }
    {
        self.high
    }

    /// Takes m residues modulo q, the coefficients of a polynomial, to the n coefficients of its remainder by Phi_m, and the
    /// places from n on to 0. Takes no memory.
    ///
    /// For m = 12 and q = 113 the coefficients of X^4 become 112, 0, 1, 0, as `X^4 = X^2 - 1` there.
    pub fn fold(&self, zq: &Zq, values: &mut [u64])
        requires long { length values.old ≡ self.now }
        requires below { All (λ c. c < modulus_of zq.now) values.old }
        ensures value { values.new ≡ remainder (residues (modulus_of zq.now))
            (map (residue (modulus_of zq.now)) (phi self.now)) values.old ++ replicate (self.now - degree self.now) 0 }
        ensures below { All (λ c. c < modulus_of zq.now) values.new }
    {
        lower_all(zq, &self.strides.below, values);
        raise_all(zq, &self.strides.above, values);
        let (low, high) = values.split_at_mut(self.member.len() - 1);
        lower_all(zq, &self.strides.above, low);
        raise_all(zq, &self.strides.below, low);
        clear(high);
    }

    /// The same polynomial once more.
    pub fn copy(&self, alloc: Global) -> Result<Cyclo, AllocError>
        ensures { IfOk result (λ c. c ≡ self.now) }
    {
        Ok(Cyclo {
            m: self.m,
            member: Vec::from_slice(alloc, &self.member)?,
            high: self.high,
            strides: Strides {
                above: Vec::from_slice(alloc, &self.strides.above)?,
                below: Vec::from_slice(alloc, &self.strides.below)?,
            },
        })
    }
}
