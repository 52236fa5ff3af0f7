//! The strides of Phi_m: it is the product of X^j - 1 over some strides j, divided by that over others.
ghost use Rattle.std.specs.Prelude.{◌≡◌, ℕ, ◌*◌, ◌^◌, ◌<◌, ◌≤◌, IfOk, OnOk, map, ◌++◌};
ghost use Rattle.std.specs.List.{All};
ghost use Rattle.cyclo_poly.specs.Primes.{IsPrime};
ghost use Rattle.cyclo_poly.specs.Strides.{AreStrides};

use crate::primes::least_prime;
use std::alloc::{AllocError, Global};

/// The strides whose product is above, and those whose product is below.
#[derive(Drop)]
pub struct Strides {
    pub above: Vec<usize>,
    pub below: Vec<usize>,
}

/// Puts each of the strides times p at the end of a list.
fn push_multiples(list: &mut Vec<usize>, strides: &[usize], p: usize) -> Result<(), AllocError>
    requires { All (λ j. p * j < 2 ^ 32) strides.now }
    ensures { OnOk result (list.new.items ≡ list.old.items ++ map (λ j. p * j) strides.now) }
{
    for j in strides {
        list.push(p * *j)?;
    }
    Ok(())
}

/// The strides of Phi_(k p) out of those of Phi_k, for a prime p.
fn next_strides(alloc: Global, strides: &Strides, k: usize, p: usize) -> Result<Strides, AllocError>
    requires positive { 0 < k }
    requires prime { IsPrime p }
    requires short { k * p ≤ 2 ^ 16 }
    requires strides { AreStrides k strides.now.above.items strides.now.below.items }
    ensures { IfOk result (λ s. AreStrides (k * p) s.above.items s.below.items) }
{
    let mut above = Vec::new(alloc);
    let mut below = Vec::new(alloc);
    push_multiples(&mut above, &strides.above, p)?;
    push_multiples(&mut below, &strides.below, p)?;
    if k % p != 0 {
        above.extend_from_slice(&strides.below)?;
        below.extend_from_slice(&strides.above)?;
    }
    Ok(Strides { above, below })
}

/// The strides of Phi_m.
pub fn strides_of(alloc: Global, m: usize) -> Result<Strides, AllocError>
    requires low { 0 < m }
    requires high { m ≤ 2 ^ 16 }
    ensures { IfOk result (λ s. AreStrides m s.above.items s.below.items) }
{
    let mut k = 1;
    let mut rest = m;
    let mut strides = Strides {
        above: vec![in alloc; 1usize]?,
        below: Vec::new(alloc),
    };
    while rest > 1 {
        let p = least_prime(rest);
        strides = next_strides(alloc, &strides, k, p)?;
        k *= p;
        rest /= p;
    }
    Ok(strides)
}
