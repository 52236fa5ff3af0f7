//! Products of polynomials by the school's method.
ghost use Rattle.std.specs.Prelude.{◌<◌};

use std::alloc::{AllocError, Global};

/// `x + sign*y` modulo q, for a sign from -1 to 1.
pub fn sum(x: u64, sign: i64, y: u64, q: u64) -> u64
    requires { 0 < q }
    ensures { result < q }
{
    let modulus = u128::from(q);
    let x = u128::from(x);
    let y = u128::from(y % q);
    let total = match sign {
        0 => x,
        1.. => x + y,
        _ => x + modulus - y,
    };
    (total % modulus) as u64
}

/// Adds `sign*b` to a modulo q, for a sign from -1 to 1.
pub fn add(a: &mut [u64], sign: i64, b: &[u64], q: u64)
    requires { 0 < q }
{
    for (x, y) in a.iter_mut().zip(b) {
        *x = sum(*x, sign, *y, q);
    }
}

/// `X*a` modulo q and a polynomial with coefficients from -1 to 1, given without its highest one, which is 1.
fn times_x(alloc: Global, a: &[u64], phi: &[i64], q: u64) -> Result<Vec<u64>, AllocError>
    requires { 0 < q }
{
    let last = a.last().copied().unwrap_or(0);
    let mut before = 0;
    let mut product = Vec::new(alloc);
    for (x, c) in a.iter().zip(phi) {
        product.push(sum(before, c.saturating_neg(), last, q))?;
        before = *x;
    }
    Ok(product)
}

/// `a*s` modulo q and that polynomial, for coefficients s from -1 to 1.
pub fn product(
    alloc: Global,
    a: &[u64],
    s: &[i64],
    phi: &[i64],
    q: u64,
) -> Result<Vec<u64>, AllocError>
    requires { 0 < q }
{
    let mut total: Vec<u64> = vec![in alloc; 0; a.len()]?;
    for sign in s.iter().rev() {
        total = times_x(alloc, &total, phi, q)?;
        add(&mut total, *sign, a, q);
    }
    Ok(total)
}
