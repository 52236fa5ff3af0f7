//! What happens to rows before and after the convolution.
ghost use Rattle.std.specs.Prelude.{◌≡◌, ℕ, ◌+◌, ◌-◌, ◌*◌, ◌%◌, ◌^◌, ◌<◌, ◌≤◌, All, length, get_or};
ghost use Rattle.two_power.specs.Tree.{AreFactors, EachBelow};

use mod_ring::lazy::{mul_lazy, reduce_once};

/// Writes the products of residues with constant factors, below 2q.
fn products(from: &[u64], factors: &[u64], quotients: &[u64], q: u64, to: &mut [u64])
    requires same { length to.old ≡ length from.now }
    requires factors_on { length from.now ≤ length factors.now }
    requires some { 0 < q }
    requires small { q < 2 ^ 62 }
    requires factors { AreFactors q factors.now quotients.now }
    ensures values { (i : ℕ) → i < length from.now
        → get_or to.new i 0 % q ≡ (get_or factors.now i 0 * get_or from.now i 0) % q }
    ensures below { EachBelow (2 * q) to.new }
{
    for i in 0..from.len() {
        to[i] = mul_lazy(factors[i], quotients[i], from[i], q);
    }
}

/// Writes 0 into each entry.
fn clear(row: &mut [u64])
    ensures { (i : ℕ) → get_or row.new i 0 ≡ 0 }
{
    for entry in row.iter_mut() {
        *entry = 0;
    }
}

/// Writes the products of residues with constant factors, below 2q, and then zeros.
pub fn start(from: &[u64], factors: &[u64], quotients: &[u64], q: u64, row: &mut [u64])
    requires room { length from.now ≤ length row.old }
    requires factors_on { length from.now ≤ length factors.now }
    requires some { 0 < q }
    requires small { q < 2 ^ 62 }
    requires factors { AreFactors q factors.now quotients.now }
    ensures values { (i : ℕ) → i < length from.now
        → get_or row.new i 0 % q ≡ (get_or factors.now i 0 * get_or from.now i 0) % q }
    ensures zeros { (i : ℕ) → length from.now ≤ i → get_or row.new i 0 ≡ 0 }
    ensures below { EachBelow (2 * q) row.new }
{
    let (front, rest) = row.split_at_mut(from.len());
    products(from, factors, quotients, q, front);
    clear(rest);
}

/// Writes the residues of the products of the sums of two rows with constant factors.
pub fn finish(lo: &[u64], hi: &[u64], factors: &[u64], quotients: &[u64], q: u64, out: &mut [u64])
    requires lo_on { length out.old ≤ length lo.now }
    requires hi_on { length out.old ≤ length hi.now }
    requires factors_on { length out.old ≤ length factors.now }
    requires some { 0 < q }
    requires small { q < 2 ^ 62 }
    requires factors { AreFactors q factors.now quotients.now }
    requires lo_in { EachBelow (2 * q) lo.now }
    requires hi_in { EachBelow (2 * q) hi.now }
    ensures values { (i : ℕ) → i < length out.old
        → get_or out.new i 0 ≡ (get_or factors.now i 0 * (get_or lo.now i 0 + get_or hi.now i 0)) % q }
    ensures below { All (λ a. a < q) out.new }
{
    for i in 0..out.len() {
        out[i] = reduce_once(mul_lazy(factors[i], quotients[i], lo[i] + hi[i], q), q);
    }
}

/// Takes the entry at place i to place -i, the places taken modulo their number.
pub fn turn_back(row: &mut [u64])
    requires { 0 < length row.old }
    ensures first { get_or row.new 0 0 ≡ get_or row.old 0 0 }
    ensures rest { (k : ℕ) → 0 < k → k < length row.old → get_or row.new k 0 ≡ get_or row.old (length row.old - k) 0 }
    ensures below { (q : ℕ) → All (λ a. a < q) row.old → All (λ a. a < q) row.new }
{
    let (_first, rest) = row.split_at_mut(1);
    rest.reverse();
}
