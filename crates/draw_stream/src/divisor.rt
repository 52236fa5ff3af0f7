//! Residues of 128-bit numbers by one modulus, from products by constants in place of a long division.
ghost use Rattle.std.specs.Prelude.{◌≡◌, ◌+◌, ◌*◌, ◌/◌, ◌%◌, ◌^◌, ◌<◌};

use mod_ring::lazy;

/// A modulus below 2^62 and what residues by it take: 2^64 and 1 modulo it, each with its quotient
/// for products by it.
#[derive(Clone, Copy)]
pub struct Divisor {
    pub modulus: u64,
    high: u64,
    high_quotient: u64,
    unit: u64,
    unit_quotient: u64,
    ghost in_range: { (0 < modulus) × (modulus < 2 ^ 62) },
    ghost high_is: { high ≡ 2 ^ 64 % modulus },
    ghost high_quotient_is: { high_quotient ≡ high * 2 ^ 64 / modulus },
    ghost unit_is: { unit ≡ 1 % modulus },
    ghost unit_quotient_is: { unit_quotient ≡ unit * 2 ^ 64 / modulus },
}

impl Divisor {
    /// What residues by this modulus take.
    pub fn new(modulus: u64) -> Divisor
        requires { (0 < modulus) × (modulus < 2 ^ 62) }
        ensures { result.modulus ≡ modulus }
    {
        let high = (u64::MAX % modulus + 1) % modulus;
        let unit = 1 % modulus;
        Divisor {
            modulus,
            high,
            high_quotient: lazy::quotient_of(high, modulus),
            unit,
            unit_quotient: lazy::quotient_of(unit, modulus),
        }
    }

    /// Makes this the divisor by a modulus, at no cost where it is that already.
    pub fn set_modulus(&mut self, modulus: u64)
        requires { (0 < modulus) × (modulus < 2 ^ 62) }
        ensures { self.new.modulus ≡ modulus }
    {
        if self.modulus != modulus {
            *self = Divisor::new(modulus);
        }
    }

    /// The residue of the number whose 64-bit halves are `high` and `low`.
    pub fn residue(&self, high: u64, low: u64) -> u64
        ensures value { result ≡ (2 ^ 64 * high + low) % self.now.modulus }
        ensures below { result < self.now.modulus }
    {
        let from_high = lazy::mul_lazy(self.high, self.high_quotient, high, self.modulus);
        let from_low = lazy::mul_lazy(self.unit, self.unit_quotient, low, self.modulus);
        let double = lazy::reduce_double(from_high + from_low, self.modulus);
        lazy::reduce_once(double, self.modulus)
    }
}
