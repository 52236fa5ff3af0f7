//! The remainders by a monic polynomial, whatever its roots are.
ghost use Rattle.std.specs.Prelude.{◌≡◌, ◌<◌, ◌≤◌, IfOk, All, length, map};
ghost use Rattle.algebra.specs.Ring.{residues};
ghost use Rattle.algebra.specs.Power.{power};
ghost use Rattle.algebra.specs.Poly.{remainder};
ghost use Rattle.algebra.specs.Whole.{below};
ghost use Rattle.mod_ring.specs.Zq.{modulus_of};
ghost use Rattle.ext_field.specs.Combination.{combination};
ghost use Rattle.ext_field.specs.Element.{IsMonicFactor, IsElement, degree, elements, number, eta};

use crate::elements::ExtElem;
use crate::sums::{add_multiple, reduce};
use cyclo_poly::{Poly, Quot, divide_monic};
use mod_ring::{Ring, Zq};
use std::alloc::{AllocError, Global};
use std::marker::Model;

/// The remainders by a monic polynomial G modulo p. Contracts see it as p and G.
#[derive(Drop)]
pub struct Remainders {
    pub(crate) zq: Zq,
    pub(crate) factor: Poly<Zq>,
    // the same as a ring
    pub(crate) ring: Quot<Zq>,
}

impl Model for Remainders {
    ghost use Rattle.std.specs.Prelude.{◌≡◌, map};
    ghost use Rattle.mod_ring.specs.Zq.{modulus_of};
    ghost use Rattle.ext_field.specs.Element.{Extension, IsMonicFactor, elements, is_element};

    ghost Value = { Extension };

    ghost view = { λ s. record { p = modulus_of s.zq; factor = map (λ c. c) s.factor.coeffs.items } };

    ghost invariant = { λ s.
        let f : Extension = record { p = modulus_of s.zq; factor = map (λ c. c) s.factor.coeffs.items } in
        IsMonicFactor f
        × ⟦<Quot<Zq> as Ring>⟧.valid s.ring
        × (⟦<Quot<Zq> as Ring>⟧.ops s.ring ≡ elements f)
        × (⟦<Quot<Zq> as Ring>⟧.held s.ring ≡ is_element f) };
}

impl Remainders {
    /// The remainders by a monic polynomial, the constant term first.
    pub fn new(alloc: Global, p: u64, factor: &[u64]) -> Result<Remainders, AllocError>
        requires { IsMonicFactor (record { p = p; factor = factor.now }) }
        ensures { IfOk result (λ f. f ≡ record { p = p; factor = factor.now }) }
    {
        let zq = Zq::new(p).unwrap();
        let coeffs = Vec::from_slice(alloc, factor)?;
        let twin = Vec::from_slice(alloc, factor)?;
        let remainders = Remainders::of_lists(alloc, zq, coeffs, twin)?;
        Ok(remainders)
    }

    /// The remainders by a monic polynomial that is given twice.
    fn of_lists(
        alloc: Global,
        zq: Zq,
        coeffs: Vec<u64>,
        twin: Vec<u64>,
    ) -> Result<Remainders, AllocError>
        requires monic { IsMonicFactor (record { p = modulus_of zq; factor = coeffs.items }) }
        requires same { twin.items ≡ coeffs.items }
        ensures { IfOk result (λ f. f ≡ record { p = modulus_of zq; factor = coeffs.items }) }
    {
        let ring = Quot::new(alloc, zq, Poly { coeffs: twin })?;
        Ok(Remainders {
            zq,
            factor: Poly { coeffs },
            ring,
        })
    }

    /// The modulus p.
    pub fn p(&self) -> u64
        ensures { result ≡ self.now.p }
    {
        self.zq.modulus()
    }

    /// The degree of G.
    pub fn degree(&self) -> u32
        ensures value { result ≡ degree self.now }
        ensures valid { IsMonicFactor self.now }
    {
        (self.factor.coeffs.len() - 1) as u32
    }

    /// The coefficients of G, the constant term first.
    pub fn factor(&self) -> &[u64]
        ensures { result.now ≡ self.now.factor }
    {
        &self.factor.coeffs
    }

    /// The remainder of a polynomial, the constant term first.
    pub fn reduced(&self, alloc: Global, coeffs: Vec<u64>) -> Result<ExtElem, AllocError>
        requires { All (λ c. c < self.now.p) coeffs.items }
        ensures value { IfOk result
            (λ r. r ≡ remainder (residues self.now.p) self.now.factor coeffs.items) }
        ensures element { IfOk result (λ r. IsElement self.now r) }
    {
        let (_quotient, poly) = divide_monic(alloc, &self.zq, &Poly { coeffs }, &self.factor)?;
        Ok(ExtElem { poly })
    }

    /// The remainder of X.
    pub fn root(&self, alloc: Global) -> Result<ExtElem, AllocError>
        ensures value { IfOk result (λ r. r ≡ eta self.now) }
        ensures element { IfOk result (λ r. IsElement self.now r) }
    {
        let _factor = &self.factor;
        let mut coeffs = Vec::new(alloc);
        coeffs.push(0)?;
        coeffs.push(1)?;
        let root = self.reduced(alloc, coeffs)?;
        Ok(root)
    }

    /// The number c as an element.
    fn number(&self, alloc: Global, c: u64) -> Result<ExtElem, AllocError>
        requires { c < self.now.p }
        ensures value { IfOk result (λ r. r ≡ number self.now c) }
        ensures element { IfOk result (λ r. IsElement self.now r) }
    {
        let mut coeffs = Vec::new(alloc);
        coeffs.push(c)?;
        let number = self.reduced(alloc, coeffs)?;
        Ok(number)
    }

    /// Each of the numbers as an element.
    pub fn numbers(&self, alloc: Global, coeffs: &[u64]) -> Result<Vec<ExtElem>, AllocError>
        requires { All (λ c. c < self.now.p) coeffs.now }
        ensures value { IfOk result (λ r. r.items ≡ map (number self.now) coeffs.now) }
        ensures elements { IfOk result (λ r. All (λ a. IsElement self.now a) r.items) }
    {
        let mut list = Vec::new(alloc);
        for i in 0..coeffs.len() {
            let number = self.number(alloc, coeffs[i])?;
            list.push(number)?;
        }
        Ok(list)
    }

    /// The powers of an element, as many as the degree of G.
    pub fn powers(&self, alloc: Global, a: &ExtElem) -> Result<Vec<ExtElem>, AllocError>
        requires { IsElement self.now a.now }
        ensures value { IfOk result
            (λ r. r.items ≡ map (power (elements self.now) a.now) (below (degree self.now))) }
    {
        let degree = self.degree();
        let mut powers = Vec::new(alloc);
        let mut power = self.one(alloc)?;
        for _taken in 0..degree {
            let next = self.mul(alloc, a, &power)?;
            powers.push(power)?;
            power = next;
        }
        Ok(powers)
    }

    /// The sum of elements times numbers below p, as many as there are numbers.
    pub fn combination(
        &self,
        alloc: Global,
        factors: &[u64],
        rows: &[ExtElem],
    ) -> Result<ExtElem, AllocError>
        requires few { length factors.now ≤ 64 }
        requires long { length factors.now ≤ length rows.now }
        requires factors_in { All (λ c. c < self.now.p) factors.now }
        requires rows_in { All (λ a. IsElement self.now a) rows.now }
        ensures value { IfOk result (λ r. r ≡ combination self.now factors.now rows.now) }
        ensures element { IfOk result (λ r. IsElement self.now r) }
    {
        let mut sums = vec![in alloc; 0u64; self.degree() as usize]?;
        for j in 0..factors.len() {
            add_multiple(factors[j], rows[j].coeffs(), &mut sums);
        }
        reduce(self.p(), &mut sums);
        Ok(ExtElem {
            poly: Poly { coeffs: sums },
        })
    }
}
