//! Inverses modulo q by Euclid's algorithm on words.
ghost use Rattle.std.specs.Prelude.{◌≡◌, ◌*◌, ◌%◌, ◌^◌, ◌<◌, ◌≤◌};
ghost use Rattle.algebra.specs.Divisor.{HasInverse, is_unit};
ghost use Rattle.moduli_table.specs.Search.{inverse_or_zero};

use mod_ring::Zq;

/// The number below q that is the inverse of a modulo q, or 0 where there is none. Takes no memory.
///
/// The inverse of 113 modulo 337 is 170; 6 has none modulo 15.
pub fn inverse_or_zero(a: u64, q: u64) -> u64
    requires low { 2 ≤ q }
    requires high { q < 2 ^ 62 }
    ensures value { result ≡ inverse_or_zero q a }
    ensures below { result < q }
    ensures inverse { 0 < result → a * result % q ≡ 1 }
    ensures none { result ≡ 0 → HasInverse q a → ⊥ }
{
    let ring = Zq::new(q).unwrap();
    // Each remainder is its factor times a, up to a multiple of q.
    let mut larger = q;
    let mut larger_factor = 0;
    let mut smaller = a % q;
    let mut smaller_factor = 1;
    while smaller > 0 {
        let quotient = larger / smaller;
        let rest = larger % smaller;
        let product = ring.mul_word(quotient % q, smaller_factor);
        let factor = ring.sub_word(larger_factor, product);
        larger = smaller;
        larger_factor = smaller_factor;
        smaller = rest;
        smaller_factor = factor;
    }
    if larger == 1 { larger_factor } else { 0 }
}

/// Whether a and q have no common divisor above 1; for a = 0 the common divisor is q.
pub(crate) fn is_coprime(a: u64, q: u64) -> bool
    requires low { 2 ≤ q }
    requires high { q < 2 ^ 62 }
    ensures { result ≡ is_unit q a }
{
    inverse_or_zero(a, q) != 0
}
