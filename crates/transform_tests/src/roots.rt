//! Roots of unity that are tested as the program runs.
ghost use Rattle.std.specs.Prelude.{◌≡◌, ℕ, ◌-◌, ◌*◌, ◌^◌, ◌<◌, ◌≤◌, IsTrue, nat_lt};
ghost use Rattle.algebra.specs.Ring.{residues};
ghost use Rattle.algebra.specs.Power.{less, power};
ghost use Rattle.algebra.specs.Divisor.{Dvd};
ghost use Rattle.cyclotomic.specs.RootLaws.{HasHeldInverse};
ghost use Rattle.mod_ring.specs.Zq.{modulus_of};
ghost use Rattle.bluestein.specs.Plan.{AreRoots, IsLeastPower};

use mod_ring::Zq;

/// Whether the powers of w at the divisors of m below m differ from 1 by residues that the power given inverts.
fn differ(ring: &Zq, w: u64, m: u32, inverting: u64) -> bool
    requires w_in { w < modulus_of ring.now }
    requires above { 3 ≤ modulus_of ring.now }
    ensures { IsTrue result → (k : ℕ) → 0 < k → k < m → Dvd k m
        → HasHeldInverse (λ a. nat_lt a (modulus_of ring.now)) (residues (modulus_of ring.now))
        (less (residues (modulus_of ring.now)) (power (residues (modulus_of ring.now)) w k)
        (residues (modulus_of ring.now)).one) }
{
    for k in 1..m {
        if m % k == 0 {
            let difference = ring.sub_word(ring.power_word(w, k as u64), 1);
            let inverse = ring.power_word(difference, inverting);
            if ring.mul_word(difference, inverse) != 1 {
                return false;
            }
        }
    }
    true
}

/// The residues modulo q.
fn residues_modulo(q: u64) -> Zq
    requires above { 2 ≤ q }
    requires small { q < 2 ^ 62 }
    ensures { modulus_of result ≡ q }
{
    Zq::new(q).unwrap()
}

/// The least power of two that is at least 2m - 1.
fn convolution_length(m: u32) -> u64
    requires low { 1 ≤ m }
    requires high { m ≤ 65536 }
    ensures { IsLeastPower (2 * m - 1) result }
{
    (2 * m as u64 - 1).next_power_of_two()
}

/// Whether these are roots for a plan, where residues are inverted by the power given.
pub fn are_roots(q: u64, m: u32, zeta: u64, psi: u64, inverting: u64) -> bool
    ensures { IsTrue result → AreRoots q m zeta psi }
{
    if m < 3 || m > 65536 || q < 3 || q >= 1 << 62 {
        return false;
    }
    if q % 2 == 0 || zeta >= q || psi >= q || q % m as u64 != 1 {
        return false;
    }
    let ring = residues_modulo(q);
    let square = ring.mul_word(zeta, zeta);
    let half = convolution_length(m) / 2;
    if ring.power_word(zeta, 2 * m as u64) != 1 || ring.power_word(psi, half) != q - 1 {
        return false;
    }
    if ring.power_word(square, m as u64) != 1 {
        return false;
    }
    differ(&ring, square, m, inverting)
}
