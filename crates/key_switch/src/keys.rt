//! Secret and public keys.
ghost use Rattle.std.specs.Prelude.{◌≤◌, All, nat_abs};

use double_crt::Dcrt;

/// A secret key: a polynomial s with n coefficients from -1 to 1, the constant one first.
#[derive(Drop)]
pub struct Secret {
    /// The coefficients.
    pub coeffs: Vec<i64>,
    pub ghost small: { All (λ x. nat_abs x ≤ 1) coeffs.items },
}

/// A public key: a uniform polynomial a, and `b = -a*s + p*e` for a secret s and a small polynomial e, both modulo all moduli
/// of the chain and without the special ones.
#[derive(Drop)]
pub struct Public {
    /// `-a*s + p*e`.
    pub b: Dcrt,
    /// The uniform polynomial.
    pub a: Dcrt,
}
