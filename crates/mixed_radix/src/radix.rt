//! Digits from residues by Garner's steps on words, and residues from digits by Horner's rule.
ghost use Rattle.std.specs.Prelude.{◌≡◌, ℕ, ◌+◌, ◌*◌, ◌%◌, ◌<◌, ◌≤◌, All, List, length, take, drop, map, pos, ◌+ℤ◌, ◌*ℤ◌, nat_abs, vec_len, IfOk};
ghost use Rattle.std.specs.List.{AllZip};

use mod_ring::Zq;
use std::alloc::{AllocError, Global};
use std::marker::Model;

/// A modulus, and the inverses modulo it of the moduli before it.
#[derive(Drop)]
struct Place {
    ring: Zq,
    inverse: Vec<u64>,
}

impl Place {
    ghost use Rattle.algebra.specs.Whole.{residue, product_of};
    ghost use Rattle.mod_ring.specs.Zq.{modulus_of};
    ghost use Rattle.mixed_radix.specs.Mixed.{mixed};

    /// The digit at this place of a number with this remainder, from the digits at the places before.
    fn digit(&self, earlier: &[i64], remainder: u64) -> i64
        requires odd { modulus_of self.now.ring % 2 ≡ 1 }
        requires places { length earlier.now ≡ vec_len self.now.inverse }
        requires inverse_in { All (λ e. e < modulus_of self.now.ring) self.now.inverse.items }
        requires remainder_in { remainder < modulus_of self.now.ring }
        ensures balanced { 2 * nat_abs result < modulus_of self.now.ring }
        ensures value { (qs : List ℕ) → AllZip (λ k e. (k * e) % modulus_of self.now.ring ≡ 1) qs self.now.inverse.items
            → residue (modulus_of self.now.ring) (mixed qs earlier.now +ℤ pos (product_of qs) *ℤ result) ≡ remainder }
    {
        let mut rest = remainder;
        for (i, digit) in earlier.iter().enumerate() {
            let less = self.ring.sub_word(rest, self.ring.from_signed(*digit));
            rest = self.ring.mul_word(less, self.inverse[i]);
        }
        self.ring.balanced(rest)
    }
}

/// Odd moduli q_0, q_1, .. with the inverse of each modulo each later one. Contracts see it as these.
#[derive(Drop)]
pub struct Radix {
    places: Vec<Place>,
}

impl Model for Radix {
    ghost use Rattle.mixed_radix.specs.Basis.{Basis, IsBasis};

    ghost Value = { Basis };

    ghost use Rattle.mixed_radix.specs.Places.{basis_of};

    ghost view = { basis_of };

    ghost invariant = { λ radix. IsBasis (basis_of radix) };
}

impl Radix {
    ghost use Rattle.algebra.specs.Whole.{residue};
    ghost use Rattle.mod_ring.specs.Zq.{modulus_of};
    ghost use Rattle.mixed_radix.specs.Basis.{Basis, IsBasis};
    ghost use Rattle.mixed_radix.specs.Mixed.{mixed, AreDigits};

    /// The radix of odd moduli from 3 to 2^62 - 1, in order. List j of the inverses has j entries, each below modulus j;
    /// entry i is the inverse of modulus i modulo modulus j. The one cause to fail is want of memory.
    pub fn new(alloc: Global, moduli: &[u64], inverse: &[Vec<u64>]) -> Result<Radix, AllocError>
        requires { IsBasis (record { moduli = moduli.now; inverse = map (λ list. list.items) inverse.now }) }
        ensures { IfOk result
            (λ radix. radix ≡ record { moduli = moduli.now; inverse = map (λ list. list.items) inverse.now }) }
    {
        let mut places = Vec::with_capacity(alloc, moduli.len())?;
        for (j, modulus) in moduli.iter().enumerate() {
            places.push(Place {
                ring: Zq::new(*modulus).unwrap(),
                inverse: Vec::from_slice(alloc, &inverse[j])?,
            })?;
        }
        Ok(Radix { places })
    }

    /// Writes the balanced digits of a number with these residues modulo the first moduli, as many as there are residues.
    /// Takes no memory.
    ///
    /// For the moduli 113 and 337 the digits of 19000 are 16 and 168, and those of -1 are -1 and 0.
    pub fn digits(&self, residues: &[u64], out: &mut [i64])
        requires count { length residues.now ≤ length self.now.moduli }
        requires below { AllZip (λ q r. r < q) (take (length residues.now) self.now.moduli) residues.now }
        requires room { length out.old ≡ length residues.now }
        ensures { AreDigits (take (length residues.now) self.now.moduli) residues.now out.new }
    {
        for (j, residue) in residues.iter().enumerate() {
            let digit = self.places[j].digit(&out[..j], *residue);
            out[j] = digit;
        }
    }

    /// The residue modulo the target of `v_0 + v_1*q_first + v_2*q_first*q_(first+1) + ..`, where `v_0`, `v_1`, .. are
    /// the digits given; of 0 where there are none. Takes no memory.
    pub fn residue_from_digits(&self, digits: &[i64], first: u32, target: &Zq) -> u64
        requires { first + length digits.now ≤ length self.now.moduli }
        ensures value { result ≡ residue (modulus_of target.now) (mixed (drop first self.now.moduli) digits.now) }
        ensures below { result < modulus_of target.now }
    {
        let mut sum = 0;
        for i in (0..digits.len()).rev() {
            let modulus = self.places[first as usize + i].ring.modulus();
            let base = modulus % target.modulus();
            sum = target.add_word(target.from_signed(digits[i]), target.mul_word(base, sum));
        }
        sum
    }
}
