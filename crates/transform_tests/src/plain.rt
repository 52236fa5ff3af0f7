//! The values at the powers of a point, each by Horner's rule.
ghost use Rattle.std.specs.Prelude.{◌≡◌, ◌<◌, All, length, map};
ghost use Rattle.algebra.specs.Ring.{residues};
ghost use Rattle.algebra.specs.Power.{power};
ghost use Rattle.algebra.specs.Poly.{value_at};
ghost use Rattle.algebra.specs.Whole.{below};
ghost use Rattle.mod_ring.specs.Zq.{modulus_of};

use mod_ring::Zq;

/// The value of a polynomial at a point.
fn value(ring: &Zq, coeffs: &[u64], at: u64) -> u64
    requires coeffs_in { All (λ c. c < modulus_of ring.now) coeffs.now }
    requires at_in { at < modulus_of ring.now }
    ensures value { result ≡ value_at (residues (modulus_of ring.now)) at coeffs.now }
    ensures below { result < modulus_of ring.now }
{
    let mut sum = 0;
    for i in (0..coeffs.len()).rev() {
        sum = ring.add_word(coeffs[i], ring.mul_word(at, sum));
    }
    sum
}

/// Writes the values at the first powers of a point, as many as there is room for.
pub fn values_at_powers(ring: &Zq, coeffs: &[u64], at: u64, out: &mut [u64])
    requires coeffs_in { All (λ c. c < modulus_of ring.now) coeffs.now }
    requires at_in { at < modulus_of ring.now }
    ensures values { out.new ≡ map (λ j. value_at (residues (modulus_of ring.now)) (power (residues (modulus_of ring.now)) at j) coeffs.now) (below (length out.old)) }
    ensures below { All (λ v. v < modulus_of ring.now) out.new }
{
    let mut point = 1;
    for j in 0..out.len() {
        out[j] = value(ring, coeffs, point);
        point = ring.mul_word(at, point);
    }
}
