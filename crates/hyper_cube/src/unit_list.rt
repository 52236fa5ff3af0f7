//! The units modulo m.
ghost use Rattle.std.specs.Prelude.{◌≡◌, ◌<◌, ◌≤◌, ◌↔◌, IfOk, IsTrue};
ghost use Rattle.algebra.specs.Divisor.{gcd, is_unit, number_of_units, units as units_of};

use std::alloc::{AllocError, Global};

/// The greatest common divisor, by Euclid's algorithm.
fn greatest_divisor(a: u32, b: u32) -> u32
    requires a_in { 0 < a }
    requires b_in { 0 < b }
    ensures { result ≡ gcd a b }
{
    let mut high = a;
    let mut low = b;
    while low > 0 {
        let rest = high % low;
        high = low;
        low = rest;
    }
    high
}

/// Whether k is a unit modulo m.
fn is_coprime(m: u32, k: u32) -> bool
    requires m_in { 0 < m }
    requires k_in { 0 < k }
    ensures { result ≡ is_unit m k }
{
    greatest_divisor(k, m) == 1
}

/// How many units there are modulo m.
pub(crate) fn unit_count(m: u32) -> u32
    ensures value { result ≡ number_of_units m }
    ensures bound { result ≤ m }
{
    let mut count = 0;
    for t in 0..m {
        if is_coprime(m, t + 1) {
            count += 1;
        }
    }
    count
}

/// The units modulo m, in ascending order, for m from 3 to 65536.
///
/// Those modulo 12 are 1, 5, 7 and 11.
pub fn units(alloc: Global, m: u32) -> Result<Vec<u32>, AllocError>
    requires low { 3 ≤ m }
    requires high { m ≤ 65536 }
    ensures { IfOk result (λ list. list.items ≡ units_of m) }
{
    let mut list = Vec::new(alloc);
    for last in 0..m {
        if is_coprime(m, last + 1) {
            list.push(last + 1)?;
        }
    }
    Ok(list)
}
