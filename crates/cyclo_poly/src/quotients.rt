//! The ring of remainders by a monic polynomial.
ghost use Rattle.std.specs.Prelude.{◌≡◌, ◌<◌, IsTrue, IfOk, List, map, length};
ghost use Rattle.algebra.specs.Poly.{all_held, row_held, degree_of, IsMonic, modulo};
ghost use Rattle.algebra.proofs.HeldQuotients.{held_quotient_laws};

use crate::division::{Poly, divided};
use crate::lists::{added, all_equal, all_hold, negated, product, zeros};
use mod_ring::Ring;
use std::alloc::{AllocError, Global};

/// The polynomials over a ring modulo a monic polynomial g of degree 1 or more.
///
/// An element is held exactly where it has as many coefficients as the degree of g, zeros included, and the ring holds each
/// of them. Sums are taken place by place; a product is the remainder by g of the product of polynomials.
#[derive(Drop)]
pub struct Quot<R: Ring> {
    ring: R,
    modulus: Poly<R>,
}

impl<R: Ring> Quot<R> {
    /// The ring of remainders by a monic polynomial of degree 1 or more.
    pub fn new(_alloc: Global, ring: R, modulus: Poly<R>) -> Result<Quot<R>, AllocError>
        requires ring { R.valid ring }
        requires held { IsTrue (all_held (R.held ring) (map R.value modulus.coeffs.items)) }
        requires monic { IsMonic (R.ops ring) (map R.value modulus.coeffs.items) }
        requires degree { 1 < length modulus.coeffs.items }
        ensures valid { IfOk result (λ s. ⟦<Quot<R> as Ring>⟧.valid s) }
        ensures ops { IfOk result
            (λ s. ⟦<Quot<R> as Ring>⟧.ops s ≡ modulo (R.ops ring) (map R.value modulus.coeffs.items)) }
        ensures held { IfOk result (λ s. ⟦<Quot<R> as Ring>⟧.held s
            ≡ row_held (R.held ring) (degree_of (R.ops ring) (map R.value modulus.coeffs.items))) }
    {
        Ok(Quot { ring, modulus })
    }
}

impl<R: Ring> Ring for Quot<R> {
    type Elem = Poly<R>;

    ghost Val = { List R.Val };

    ghost value = { λ p. map R.value p.coeffs.items };

    ghost valid = { λ s. R.valid s.ring
        × IsTrue (all_held (R.held s.ring) (map R.value s.modulus.coeffs.items))
        × IsMonic (R.ops s.ring) (map R.value s.modulus.coeffs.items) };

    ghost held = { λ s. row_held (R.held s.ring)
        (degree_of (R.ops s.ring) (map R.value s.modulus.coeffs.items)) };

    ghost ops = { λ s. modulo (R.ops s.ring) (map R.value s.modulus.coeffs.items) };

    ghost laws = { λ s h. held_quotient_laws (R.laws s.ring h.0)
        (map R.value s.modulus.coeffs.items) h.1 h.2 };

    fn holds(&self, a: &Poly<R>) -> bool {
        a.coeffs.len() == self.modulus.coeffs.len().saturating_sub(1)
            && all_hold(&self.ring, &a.coeffs)
    }

    fn zero(&self, alloc: Global) -> Result<Poly<R>, AllocError> {
        let coeffs = zeros(alloc, &self.ring, self.modulus.coeffs.len() - 1)?;
        Ok(Poly { coeffs })
    }

    fn one(&self, alloc: Global) -> Result<Poly<R>, AllocError> {
        let one = self.ring.one(alloc)?;
        let mut list = Vec::new(alloc);
        list.push(one)?;
        let (_quotient, coeffs) = divided(alloc, &self.ring, &list, &self.modulus.coeffs)?;
        Ok(Poly { coeffs })
    }

    fn add(&self, alloc: Global, a: &Poly<R>, b: &Poly<R>) -> Result<Poly<R>, AllocError> {
        let coeffs = added(alloc, &self.ring, &a.coeffs, &b.coeffs)?;
        Ok(Poly { coeffs })
    }

    fn sub(&self, alloc: Global, a: &Poly<R>, b: &Poly<R>) -> Result<Poly<R>, AllocError> {
        let minus = negated(alloc, &self.ring, &b.coeffs)?;
        let coeffs = added(alloc, &self.ring, &a.coeffs, &minus)?;
        Ok(Poly { coeffs })
    }

    fn mul(&self, alloc: Global, a: &Poly<R>, b: &Poly<R>) -> Result<Poly<R>, AllocError> {
        let whole = product(alloc, &self.ring, &a.coeffs, &b.coeffs)?;
        let (_quotient, coeffs) = divided(alloc, &self.ring, &whole, &self.modulus.coeffs)?;
        Ok(Poly { coeffs })
    }

    fn neg(&self, alloc: Global, a: &Poly<R>) -> Result<Poly<R>, AllocError> {
        let coeffs = negated(alloc, &self.ring, &a.coeffs)?;
        Ok(Poly { coeffs })
    }

    fn equal(&self, a: &Poly<R>, b: &Poly<R>) -> bool {
        all_equal(&self.ring, &a.coeffs, &b.coeffs)
    }
}
