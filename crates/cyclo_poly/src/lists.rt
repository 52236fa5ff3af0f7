//! Lists of coefficients, the constant term first: sums, products, and one step of long division.
ghost use Rattle.std.specs.Prelude.{◌≡◌, ◌<◌, ◌+◌, ◌↔◌, IsTrue, IfOk, OnOk, All, ◌∷◌, map, length, replicate, vec_len};
ghost use Rattle.algebra.specs.Poly.{all_held, plus, negated, scaled, times, top, reduced};

use mod_ring::Ring;
use std::alloc::{AllocError, Global};

/// Adds c times the list g to the list f, which grows to the length of g where it is shorter.
pub fn add_scaled<R: Ring>(
    alloc: Global,
    ring: &R,
    c: &R::Elem,
    g: &[R::Elem],
    f: &mut Vec<R::Elem>,
) -> Result<(), AllocError>
    requires ring { R.valid ring.now }
    requires c_held { IsTrue (R.held ring.now (R.value c.now)) }
    requires g_held { All (λ a. IsTrue (R.held ring.now (R.value a))) g.now }
    requires f_held { All (λ a. IsTrue (R.held ring.now (R.value a))) f.old.items }
    ensures value { OnOk result (map R.value f.new.items
        ≡ plus (R.ops ring.now) (scaled (R.ops ring.now) (R.value c.now) (map R.value g.now)) (map R.value f.old.items)) }
    ensures held { OnOk result (All (λ a. IsTrue (R.held ring.now (R.value a))) f.new.items) }
{
    for i in 0..g.len() {
        let product = ring.mul(alloc, c, &g[i])?;
        if i < f.len() {
            let sum = ring.add(alloc, &product, &f[i])?;
            f[i] = sum;
        } else {
            f.push(product)?;
        }
    }
    Ok(())
}

/// The product of two polynomials, term by term.
pub fn product<R: Ring>(
    alloc: Global,
    ring: &R,
    f: &[R::Elem],
    g: &[R::Elem],
) -> Result<Vec<R::Elem>, AllocError>
    requires ring { R.valid ring.now }
    requires f_held { All (λ a. IsTrue (R.held ring.now (R.value a))) f.now }
    requires g_held { All (λ a. IsTrue (R.held ring.now (R.value a))) g.now }
    ensures value { IfOk result
        (λ r. map R.value r.items ≡ times (R.ops ring.now) (map R.value f.now) (map R.value g.now)) }
    ensures held { IfOk result (λ r. All (λ a. IsTrue (R.held ring.now (R.value a))) r.items) }
{
    let mut total = Vec::new(alloc);
    for i in (0..f.len()).rev() {
        let zero = ring.zero(alloc)?;
        total.insert(0, zero)?;
        add_scaled(alloc, ring, &f[i], g, &mut total)?;
    }
    Ok(total)
}

/// A list of n zeros.
pub fn zeros<R: Ring>(alloc: Global, ring: &R, n: usize) -> Result<Vec<R::Elem>, AllocError>
    requires ring { R.valid ring.now }
    ensures value { IfOk result (λ r. map R.value r.items ≡ replicate n (R.ops ring.now).zero) }
    ensures held { IfOk result (λ r. All (λ a. IsTrue (R.held ring.now (R.value a))) r.items) }
{
    let mut list = Vec::new(alloc);
    for _ in 0..n {
        let zero = ring.zero(alloc)?;
        list.push(zero)?;
    }
    Ok(list)
}

/// The sum of two lists, place by place.
pub fn added<R: Ring>(
    alloc: Global,
    ring: &R,
    f: &[R::Elem],
    g: &[R::Elem],
) -> Result<Vec<R::Elem>, AllocError>
    requires ring { R.valid ring.now }
    requires same_length { length f.now ≡ length g.now }
    requires f_held { All (λ a. IsTrue (R.held ring.now (R.value a))) f.now }
    requires g_held { All (λ a. IsTrue (R.held ring.now (R.value a))) g.now }
    ensures value { IfOk result
        (λ r. map R.value r.items ≡ plus (R.ops ring.now) (map R.value f.now) (map R.value g.now)) }
    ensures held { IfOk result (λ r. All (λ a. IsTrue (R.held ring.now (R.value a))) r.items) }
{
    let mut list = Vec::new(alloc);
    for i in 0..f.len() {
        let sum = ring.add(alloc, &f[i], &g[i])?;
        list.push(sum)?;
    }
    Ok(list)
}

/// The negative of each place of a list.
pub fn negated<R: Ring>(alloc: Global, ring: &R, f: &[R::Elem]) -> Result<Vec<R::Elem>, AllocError>
    requires ring { R.valid ring.now }
    requires f_held { All (λ a. IsTrue (R.held ring.now (R.value a))) f.now }
    ensures value { IfOk result (λ r. map R.value r.items ≡ negated (R.ops ring.now) (map R.value f.now)) }
    ensures held { IfOk result (λ r. All (λ a. IsTrue (R.held ring.now (R.value a))) r.items) }
{
    let mut list = Vec::new(alloc);
    for i in 0..f.len() {
        let minus = ring.neg(alloc, &f[i])?;
        list.push(minus)?;
    }
    Ok(list)
}

/// Whether the ring holds each element of a list.
pub fn all_hold<R: Ring>(ring: &R, f: &[R::Elem]) -> bool
    ensures { result ≡ all_held (R.held ring.now) (map R.value f.now) }
{
    for i in 0..f.len() {
        if !ring.holds(&f[i]) {
            return false;
        }
    }
    true
}

/// Whether two lists of one length have the same elements.
pub fn all_equal<R: Ring>(ring: &R, f: &[R::Elem], g: &[R::Elem]) -> bool
    requires ring { R.valid ring.now }
    requires same_length { length f.now ≡ length g.now }
    requires f_held { All (λ a. IsTrue (R.held ring.now (R.value a))) f.now }
    requires g_held { All (λ a. IsTrue (R.held ring.now (R.value a))) g.now }
    ensures { IsTrue result ↔ (map R.value f.now ≡ map R.value g.now) }
{
    for i in 0..f.len() {
        if !ring.equal(&f[i], &g[i]) {
            return false;
        }
    }
    true
}
