//! One pass over the halves of a row, to the two children of a node and back.
ghost use Rattle.std.specs.Prelude.{◌≡◌, ℕ, ◌+◌, ◌-◌, ◌*◌, ◌/◌, ◌%◌, ◌^◌, ◌<◌, length, get_or};
ghost use Rattle.two_power.specs.Tree.{EachBelow, Combines};

use mod_ring::lazy::{mul_lazy, reduce_double};

/// Makes of the halves the sums with w and with -w times the high half, all below 4q.
pub fn pass_down(lo: &mut [u64], hi: &mut [u64], w: u64, quotient: u64, q: u64)
    requires same { length hi.old ≡ length lo.old }
    requires some { 0 < q }
    requires small { q < 2 ^ 62 }
    requires w_in { w < q }
    requires quotient { quotient ≡ w * 2 ^ 64 / q }
    requires lo_in { EachBelow (4 * q) lo.old }
    requires hi_in { EachBelow (4 * q) hi.old }
    ensures lo_value { Combines q w lo.old hi.old lo.new }
    ensures hi_value { Combines q (q - w) lo.old hi.old hi.new }
    ensures lo_below { EachBelow (4 * q) lo.new }
    ensures hi_below { EachBelow (4 * q) hi.new }
{
    for i in 0..lo.len() {
        let u = reduce_double(lo[i], q);
        let v = mul_lazy(w, quotient, hi[i], q);
        lo[i] = u + v;
        hi[i] = u + (2 * q - v);
    }
}

/// Makes of the halves their sum, and w times their difference, all below 2q.
pub fn pass_up(lo: &mut [u64], hi: &mut [u64], w: u64, quotient: u64, q: u64)
    requires same { length hi.old ≡ length lo.old }
    requires some { 0 < q }
    requires small { q < 2 ^ 62 }
    requires w_in { w < q }
    requires quotient { quotient ≡ w * 2 ^ 64 / q }
    requires lo_in { EachBelow (2 * q) lo.old }
    requires hi_in { EachBelow (2 * q) hi.old }
    ensures lo_value { (i : ℕ) → get_or lo.new i 0 % q ≡ (get_or lo.old i 0 + get_or hi.old i 0) % q }
    ensures hi_value { (i : ℕ) → get_or hi.new i 0 % q
        ≡ (w * (get_or lo.old i 0 + (2 * q - get_or hi.old i 0))) % q }
    ensures lo_below { EachBelow (2 * q) lo.new }
    ensures hi_below { EachBelow (2 * q) hi.new }
{
    for i in 0..lo.len() {
        let x = lo[i];
        let y = hi[i];
        lo[i] = reduce_double(x + y, q);
        hi[i] = mul_lazy(w, quotient, x + (2 * q - y), q);
    }
}
