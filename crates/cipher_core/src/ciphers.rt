//! Ciphertexts.
ghost use Rattle.std.specs.Prelude.{◌≡◌, ◌+◌, false};
ghost use Rattle.residue_rows.specs.Kept.{AreAlike};

use double_crt::Dcrt;
use noise_bound::Bound;

/// A ciphertext of a level: two polynomials modulo the first level + 1 moduli of the chain, c0 and c1, and a bound.
///
/// Under a secret s the ciphertext holds the polynomial that `c0 + c1*s` is up to multiples of the moduli; the bound is one
/// of its size.
#[derive(Drop)]
pub struct Cipher {
    /// The level: one less than the number of moduli.
    pub level: u32,
    /// The bound.
    pub bound: Bound,
    /// The part that stands alone.
    pub c0: Dcrt,
    /// The part that the secret is multiplied by.
    pub c1: Dcrt,
    pub ghost rows: { c0.chain_rows ≡ level + 1 },
    pub ghost no_special: { c0.special ≡ false },
    pub ghost alike: { AreAlike c0 c1 },
}
