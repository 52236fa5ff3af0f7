//! Division by a monic polynomial.
ghost use Rattle.std.specs.Prelude.{◌≡◌, ◌+◌, ◌<◌, IsTrue, IfOk, OnOk, All, ◌∷◌, map, length, vec_len};
ghost use Rattle.cyclo_poly.specs.Division.{DividesOnce};
ghost use Rattle.algebra.specs.Poly.{top, reduced, remainder, quotient_by, IsMonic, IsDivided};

use crate::lists::{add_scaled, zeros};
use mod_ring::Ring;
use std::alloc::{AllocError, Global};

/// A polynomial over a ring. Contracts see it as the list of its coefficients' values, the constant term first; zeros may
/// stand at its end.
#[derive(Drop)]
pub struct Poly<R: Ring> {
    pub coeffs: Vec<R::Elem>,
}

/// The same element once more.
fn copied<R: Ring>(alloc: Global, ring: &R, a: &R::Elem) -> Result<R::Elem, AllocError>
    requires ring { R.valid ring.now }
    requires a_held { IsTrue (R.held ring.now (R.value a.now)) }
    ensures value { IfOk result (λ r. R.value r ≡ R.value a.now) }
    ensures held { IfOk result (λ r. IsTrue (R.held ring.now (R.value r))) }
{
    let zero = ring.zero(alloc)?;
    let sum = ring.add(alloc, &zero, a)?;
    Ok(sum)
}

/// One step of long division by the monic polynomial g: the coefficient `next` comes below the rest, a list as long as g's
/// degree, and the multiple of g that makes it so long again is taken away. Answers the factor of that multiple, the next
/// digit of the quotient.
fn bring_down<R: Ring>(
    alloc: Global,
    ring: &R,
    next: R::Elem,
    g: &[R::Elem],
    rest: &mut Vec<R::Elem>,
) -> Result<R::Elem, AllocError>
    requires ring { R.valid ring.now }
    requires size { vec_len rest.old + 1 ≡ length g.now }
    requires next_held { IsTrue (R.held ring.now (R.value next)) }
    requires g_held { All (λ a. IsTrue (R.held ring.now (R.value a))) g.now }
    requires rest_held { All (λ a. IsTrue (R.held ring.now (R.value a))) rest.old.items }
    ensures digit { IfOk result (λ t. R.value t
        ≡ top (R.ops ring.now) (map R.value g.now) (R.value next ∷ map R.value rest.old.items)) }
    ensures digit_held { IfOk result (λ t. IsTrue (R.held ring.now (R.value t))) }
    ensures rest { OnOk result (map R.value rest.new.items
        ≡ reduced (R.ops ring.now) (map R.value g.now) (R.value next ∷ map R.value rest.old.items)) }
    ensures rest_held { OnOk result (All (λ a. IsTrue (R.held ring.now (R.value a))) rest.new.items) }
    ensures size { OnOk result (vec_len rest.new ≡ vec_len rest.old) }
{
    let degree = rest.len();
    rest.insert(0, next)?;
    let digit = rest.remove(degree);
    let minus = ring.neg(alloc, &digit)?;
    add_scaled(alloc, ring, &minus, &g[..degree], rest)?;
    Ok(digit)
}

/// The quotient and the remainder of f by the monic polynomial g.
pub fn divided<R: Ring>(
    alloc: Global,
    ring: &R,
    f: &[R::Elem],
    g: &[R::Elem],
) -> Result<(Vec<R::Elem>, Vec<R::Elem>), AllocError>
    requires ring { R.valid ring.now }
    requires filled { 0 < length g.now }
    requires f_held { All (λ a. IsTrue (R.held ring.now (R.value a))) f.now }
    requires g_held { All (λ a. IsTrue (R.held ring.now (R.value a))) g.now }
    ensures quotient { IfOk result (λ r. map R.value r.0.items
        ≡ quotient_by (R.ops ring.now) (map R.value g.now) (map R.value f.now)) }
    ensures quotient_held { IfOk result (λ r. All (λ a. IsTrue (R.held ring.now (R.value a))) r.0.items) }
    ensures rest { IfOk result (λ r. map R.value r.1.items
        ≡ remainder (R.ops ring.now) (map R.value g.now) (map R.value f.now)) }
    ensures rest_held { IfOk result (λ r. All (λ a. IsTrue (R.held ring.now (R.value a))) r.1.items) }
{
    let degree = g.len() - 1;
    let count = f.len().saturating_sub(degree);
    let mut rest = zeros(alloc, ring, degree)?;
    let mut quotient = Vec::new(alloc);
    for i in (0..f.len()).rev() {
        let next = copied(alloc, ring, &f[i])?;
        let digit = bring_down(alloc, ring, next, g, &mut rest)?;
        if i < count {
            quotient.push(digit)?;
        }
    }
    quotient.reverse();
    Ok((quotient, rest))
}

/// The quotient and the remainder of a by b, whose last coefficient is one. The remainder has as many coefficients as b's
/// degree, zeros included, and the quotient as many as a's list is longer than that; they are the only ones.
///
/// Over the residues modulo 5, `x^2 + 1` divided by `x + 2` has the quotient `x + 3` and the remainder 0.
pub fn divide_monic<R: Ring>(
    alloc: Global,
    ring: &R,
    a: &Poly<R>,
    b: &Poly<R>,
) -> Result<(Poly<R>, Poly<R>), AllocError>
    requires ring { R.valid ring.now }
    requires a_held { All (λ c. IsTrue (R.held ring.now (R.value c))) a.now.coeffs.items }
    requires b_held { All (λ c. IsTrue (R.held ring.now (R.value c))) b.now.coeffs.items }
    requires monic { IsMonic (R.ops ring.now) (map R.value b.now.coeffs.items) }
    ensures divided { IfOk result (λ r. IsDivided (R.ops ring.now) (map R.value b.now.coeffs.items)
        (map R.value a.now.coeffs.items) (map R.value r.0.coeffs.items) (map R.value r.1.coeffs.items)) }
    ensures quotient { IfOk result (λ r. map R.value r.0.coeffs.items
        ≡ quotient_by (R.ops ring.now) (map R.value b.now.coeffs.items) (map R.value a.now.coeffs.items)) }
    ensures quotient_held { IfOk result
        (λ r. All (λ c. IsTrue (R.held ring.now (R.value c))) r.0.coeffs.items) }
    ensures remainder { IfOk result (λ r. map R.value r.1.coeffs.items
        ≡ remainder (R.ops ring.now) (map R.value b.now.coeffs.items) (map R.value a.now.coeffs.items)) }
    ensures remainder_held { IfOk result
        (λ r. All (λ c. IsTrue (R.held ring.now (R.value c))) r.1.coeffs.items) }
{
    let (quotient, rest) = divided(alloc, ring, &a.coeffs, &b.coeffs)?;
    Ok((Poly { coeffs: quotient }, Poly { coeffs: rest }))
}

/// The quotient and the remainder that `divide_monic` answers are the only ones.
pub fn law_divides_once<R: Ring>(ring: &R)
    requires { R.valid ring.now }
    ensures { DividesOnce (R.held ring.now) (R.ops ring.now) }
{
    let _ring = ring;
}
