//! The tree of the roots of unity whose order is a power of two, and the quotients of constant factors.
ghost use Rattle.std.specs.Prelude.{◌≡◌, ◌-◌, ◌*◌, ◌%◌, ◌^◌, ◌<◌, All, length, IfOk};
ghost use Rattle.mod_ring.specs.Zq.{modulus_of};
ghost use Rattle.two_power.specs.Tree.{IsGrown, AreFactors, IsScaled};

use mod_ring::Zq;
use mod_ring::lazy::quotient_of;
use std::alloc::{AllocError, Global};

/// Writes the products of residues with a factor.
fn scale(ring: &Zq, factor: u64, from: &[u64], to: &mut [u64])
    requires same { length to.old ≡ length from.now }
    requires factor_in { factor < modulus_of ring.now }
    requires from_in { All (λ a. a < modulus_of ring.now) from.now }
    ensures values { IsScaled (modulus_of ring.now) factor from.now to.new }
    ensures below { All (λ a. a < modulus_of ring.now) to.new }
{
    for i in 0..from.len() {
        to[i] = ring.mul_word(factor, from[i]);
    }
}

/// Fills the tree for a root psi of order 2^(levels + 1), and the list of the inverses of its entries.
pub fn grow(ring: &Zq, ws: &mut [u64], vs: &mut [u64], levels: u32, psi: u64, inverse: u64)
    requires ws_size { length ws.old ≡ 2 ^ levels }
    requires vs_size { length vs.old ≡ 2 ^ levels }
    requires psi_in { psi < modulus_of ring.now }
    requires inverse_in { inverse < modulus_of ring.now }
    requires half { psi ^ (2 ^ levels) % modulus_of ring.now ≡ modulus_of ring.now - 1 }
    requires one { (psi * inverse) % modulus_of ring.now ≡ 1 }
    ensures grown { IsGrown (modulus_of ring.now) levels psi ws.new vs.new }
    ensures ws_below { All (λ a. a < modulus_of ring.now) ws.new }
    ensures vs_below { All (λ a. a < modulus_of ring.now) vs.new }
{
    if levels == 0 {
        ws[0] = 1;
        vs[0] = 1;
        return;
    }
    let half = ws.len() / 2;
    let (ws_lo, ws_hi) = ws.split_at_mut(half);
    let (vs_lo, vs_hi) = vs.split_at_mut(half);
    let psi_square = ring.mul_word(psi, psi);
    let inverse_square = ring.mul_word(inverse, inverse);
    grow(ring, ws_lo, vs_lo, levels - 1, psi_square, inverse_square);
    scale(ring, psi, ws_lo, ws_hi);
    scale(ring, inverse, vs_lo, vs_hi);
}

/// The quotients of constant factors below q, for products by them.
pub fn quotients_of(alloc: Global, factors: &[u64], q: u64) -> Result<Vec<u64>, AllocError>
    requires { All (λ w. w < q) factors.now }
    ensures { IfOk result (λ quotients. AreFactors q factors.now quotients.items) }
{
    let mut quotients = vec![in alloc; 0u64; factors.len()]?;
    for i in 0..factors.len() {
        quotients[i] = quotient_of(factors[i], q);
    }
    Ok(quotients)
}
