//! The search for roots of unity.
ghost use Rattle.std.specs.Prelude.{◌≡◌, ◌%◌, ◌^◌, ◌<◌, ◌≤◌};
ghost use Rattle.mod_ring.specs.Zq.{modulus_of};
ghost use Rattle.moduli_table.specs.Search.{roots_by, roots_of};

use crate::roots::{is_half_root, is_root, is_two_root, two_power};
use mod_ring::Zq;

/// The roots zeta and psi by the base g, where it passes.
fn roots_by(ring: &Zq, m: u32, g: u64) -> Option<(u64, u64)>
    requires m_low { 1 ≤ m }
    requires m_high { m ≤ 65536 }
    ensures { result ≡ roots_by m (modulus_of ring.now) g }
{
    let q = ring.modulus();
    let double = 2 * m as u64;
    let length = two_power(m);
    if (q - 1) % double != 0 || (q - 1) % length != 0 {
        return None;
    }
    let zeta = ring.power_word(g % q, (q - 1) / double);
    let psi = ring.power_word(g % q, (q - 1) / length);
    if is_half_root(ring, m, zeta) && is_two_root(ring, m, psi) && is_root(ring, m, zeta) {
        Some((zeta, psi))
    } else {
        None
    }
}

/// The roots zeta and psi modulo q by the least base from 2 to 1000 that passes; none where no base does. Takes no memory.
///
/// With N the least power of two that is at least 2m - 1, a base g passes where 2m and N divide q - 1, and
/// `zeta = g^((q-1)/2m)` and `psi = g^((q-1)/N)` pass the tests of roots of an accepted table. For m = 7 the modulus 113
/// has the roots 7 and 40, and 15 has none.
pub fn find_roots(m: u32, q: u64) -> Option<(u64, u64)>
    requires m_low { 3 ≤ m }
    requires m_high { m ≤ 65536 }
    requires odd { q % 2 ≡ 1 }
    requires q_low { 3 ≤ q }
    requires q_high { q < 2 ^ 62 }
    ensures { result ≡ roots_of m q }
{
    let ring = Zq::new(q).unwrap();
    for t in 0..999 {
        let roots = roots_by(&ring, m, 2 + t);
        if roots.is_some() {
            return roots;
        }
    }
    None
}
