//! The residues modulo q as a ring.
ghost use Rattle.std.specs.Prelude.{ℕ, nat_lt};
ghost use Rattle.algebra.specs.Ring.{residues};
ghost use Rattle.mod_ring.specs.Laws.{word_laws};
ghost use Rattle.mod_ring.specs.Zq.{modulus_of};

use crate::rings::Ring;
use crate::words::Zq;
use std::alloc::{AllocError, Global};

impl Ring for Zq {
    type Elem = u64;

    ghost Val = { ℕ };

    ghost value = { λ a. a };

    ghost valid = { λ _. Unit {0} };

    ghost held = { λ s a. nat_lt a (modulus_of s) };

    ghost ops = { λ s. residues (modulus_of s) };

    ghost laws = { λ s _. word_laws (modulus_of s) s.in_range.0 };

    fn holds(&self, a: &u64) -> bool {
        *a < self.modulus()
    }

    fn zero(&self, _alloc: Global) -> Result<u64, AllocError> {
        Ok(0)
    }

    fn one(&self, _alloc: Global) -> Result<u64, AllocError> {
        Ok(1)
    }

    fn add(&self, _alloc: Global, a: &u64, b: &u64) -> Result<u64, AllocError> {
        Ok(self.add_word(*a, *b))
    }

    fn sub(&self, _alloc: Global, a: &u64, b: &u64) -> Result<u64, AllocError> {
        Ok(self.sub_word(*a, *b))
    }

    fn mul(&self, _alloc: Global, a: &u64, b: &u64) -> Result<u64, AllocError> {
        Ok(self.mul_word(*a, *b))
    }

    fn neg(&self, _alloc: Global, a: &u64) -> Result<u64, AllocError> {
        Ok(self.neg_word(*a))
    }

    fn equal(&self, a: &u64, b: &u64) -> bool {
        a == b
    }
}
