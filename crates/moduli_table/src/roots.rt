//! The tests of roots of unity modulo q.
ghost use Rattle.std.specs.Prelude.{◌≡◌, ◌<◌, ◌≤◌};
ghost use Rattle.mod_ring.specs.Zq.{modulus_of};
ghost use Rattle.moduli_table.specs.Checks.{two_power, is_half_root, is_root, is_two_root};

use crate::inverses::is_coprime;
use mod_ring::Zq;

/// The least power of two that is at least 2m - 1.
pub(crate) fn two_power(m: u32) -> u64
    requires low { 1 ≤ m }
    requires high { m ≤ 65536 }
    ensures { result ≡ two_power m }
{
    (2 * m as u64 - 1).next_power_of_two()
}

/// Whether zeta^(2m) is 1.
pub(crate) fn is_half_root(ring: &Zq, m: u32, zeta: u64) -> bool
    requires { zeta < modulus_of ring.now }
    ensures { result ≡ is_half_root m (modulus_of ring.now) zeta }
{
    ring.power_word(zeta, 2 * m as u64) == 1
}

/// Whether for each divisor k of m below m zeta^(2k) - 1 and q have no common divisor above 1.
pub(crate) fn is_root(ring: &Zq, m: u32, zeta: u64) -> bool
    requires m_low { 1 ≤ m }
    requires zeta_in { zeta < modulus_of ring.now }
    ensures { result ≡ is_root m (modulus_of ring.now) zeta }
{
    let omega = ring.mul_word(zeta, zeta);
    for k in 1..m {
        if m % k == 0 {
            let difference = ring.sub_word(ring.power_word(omega, k as u64), 1);
            if !is_coprime(difference, ring.modulus()) {
                return false;
            }
        }
    }
    true
}

/// Whether psi^(N/2) is -1, for the least power N of two that is at least 2m - 1.
pub(crate) fn is_two_root(ring: &Zq, m: u32, psi: u64) -> bool
    requires m_low { 1 ≤ m }
    requires m_high { m ≤ 65536 }
    requires psi_in { psi < modulus_of ring.now }
    ensures { result ≡ is_two_root m (modulus_of ring.now) psi }
{
    ring.power_word(psi, two_power(m) / 2) == ring.modulus() - 1
}
