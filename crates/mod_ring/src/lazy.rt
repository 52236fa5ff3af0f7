//! Products by a constant factor w whose quotient `w * 2^64 / q`, rounded down, is kept beside it (Shoup's products), and
//! residues that are reduced lazily: they stay below 2q or 4q between steps, and are brought below q once at the end.
//!
//! The modulus is below 2^62, so that a residue below 4q is a word.
ghost use Rattle.std.specs.Prelude.{◌≡◌, ◌*◌, ◌/◌, ◌%◌, ◌^◌, ◌<◌, ◌≤◌};

/// The quotient of the constant w, which `mul_lazy` takes beside it.
pub fn quotient_of(w: u64, q: u64) -> u64
    requires { w < q }
    ensures { result ≡ w * 2 ^ 64 / q }
{
    (((w as u128) << 64) / q as u128) as u64
}

/// A word below 2q that is congruent to `w * x` modulo q. The factor x may be any word.
///
/// With q = 113 and w = 7 the product by x = 100 is 22, or 22 + 113.
pub fn mul_lazy(w: u64, quotient: u64, x: u64, q: u64) -> u64
    requires small { q < 2 ^ 62 }
    requires w_in { w < q }
    requires quotient { quotient ≡ w * 2 ^ 64 / q }
    ensures value { result % q ≡ (w * x) % q }
    ensures below { result < 2 * q }
{
    let high = ((quotient as u128 * x as u128) >> 64) as u64;
    (w as u128 * x as u128 - high as u128 * q as u128) as u64
}

/// The residue modulo q of a word below 2q.
pub fn reduce_once(x: u64, q: u64) -> u64
    requires small { q < 2 ^ 62 }
    requires x_in { x < 2 * q }
    ensures value { result ≡ x % q }
    ensures below { result < q }
{
    x.min(x.wrapping_sub(q))
}

/// The residue modulo 2q of a word below 4q.
pub fn reduce_double(x: u64, q: u64) -> u64
    requires small { q < 2 ^ 62 }
    requires x_in { x < 4 * q }
    ensures value { result ≡ x % (2 * q) }
    ensures congruent { result % q ≡ x % q }
    ensures below { result < 2 * q }
{
    x.min(x.wrapping_sub(2 * q))
}
