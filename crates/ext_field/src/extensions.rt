//! Extensions, and their elements out of numbers.
ghost use Rattle.std.specs.Prelude.{◌≡◌, ◌-◌, ◌^◌, ◌<◌, ◌≤◌, IfOk, IsErrOf, All, length, get_or};
ghost use Rattle.ext_field.specs.Element.{IsFrobenius, IsExtension, IsElement, degree};
ghost use Rattle.ext_field.specs.declared.extensions.ExtFault.TheVariants.{Memory};

use crate::elements::{ExtElem, copied};
use crate::remainders::Remainders;
use cyclo_poly::Poly;
use mod_ring::{Ring, horner, power};
use std::alloc::{AllocError, Global};
use std::marker::Model;
use thiserror::Error;

/// Why there is no extension.
#[derive(Debug, Drop, Error)]
pub enum ExtFault {
    /// The power `eta^p` of a root of the polynomial is no root of it.
    #[error("not frobenius")]
    NotFrobenius,
    /// There is no memory left.
    #[error("memory")]
    Memory,
}

impl From<AllocError> for ExtFault {
    ghost from_gives = { λ _ e. e ≡ Memory };

    fn from(_e: AllocError) -> ExtFault {
        ExtFault::Memory
    }
}

/// The ring E of the polynomials modulo p and a monic polynomial G of degree d, in which `G(eta^p)` is 0 for the root
/// eta = X of G. Contracts see it as p and G.
#[derive(Drop)]
pub struct Ext {
    pub(crate) base: Remainders,
    // the powers of eta^p below d
    pub(crate) images: Vec<ExtElem>,
}

impl Model for Ext {
    ghost use Rattle.std.specs.Prelude.{◌≡◌, map};
    ghost use Rattle.algebra.specs.Power.{power};
    ghost use Rattle.algebra.specs.Whole.{below};
    ghost use Rattle.ext_field.specs.Element.{Extension, IsExtension, degree, elements, eta};

    ghost Value = { Extension };

    ghost view = { λ s. s.base };

    ghost invariant = { λ s. IsExtension s.base × (s.images.items
        ≡ map (power (elements s.base) (power (elements s.base) (eta s.base) s.base.p)) (below (degree s.base))) };
}

impl Ext {
    /// The extension by a monic polynomial G of degree 1 to 64, given by its coefficients modulo p, the constant term
    /// first, for p from 2 to 131071.
    ///
    /// It is refused exactly where `G(eta^p)` is not 0. With p = 2 and `1 + X + X^3` there are 8 elements.
    pub fn new(alloc: Global, p: u64, factor: &[u64]) -> Result<Ext, ExtFault>
        requires p_low { 2 ≤ p }
        requires p_high { p < 2 ^ 17 }
        requires degree_low { 2 ≤ length factor.now }
        requires degree_high { length factor.now ≤ 65 }
        requires below { All (λ c. c < p) factor.now }
        requires monic { get_or factor.now (length factor.now - 1) 0 ≡ 1 }
        ensures value { IfOk result (λ f. f ≡ record { p = p; factor = factor.now }) }
        ensures valid { IfOk result (λ f. IsExtension f) }
        ensures refused { IsErrOf result ExtFault.NotFrobenius → IsFrobenius (record { p = p; factor = factor.now }) → ⊥ }
    {
        let base = Remainders::new(alloc, p, factor)?;
        let eta = base.root(alloc)?;
        let image = power(alloc, &base, &eta, p)?;
        let numbers = base.numbers(alloc, factor)?;
        let value = horner(alloc, &base, &numbers, &image)?;
        let zero = base.zero(alloc)?;
        if !base.equal(&value, &zero) {
            return Err(ExtFault::NotFrobenius);
        }
        let images = base.powers(alloc, &image)?;
        Ok(Ext { base, images })
    }

    /// The same extension once more.
    pub fn copy(&self, alloc: Global) -> Result<Ext, AllocError>
        ensures { IfOk result (λ f. f ≡ self.now) }
    {
        let base = Remainders::new(alloc, self.p(), self.factor())?;
        let images = copied(alloc, &self.images)?;
        Ok(Ext { base, images })
    }

    /// The modulus p.
    pub fn p(&self) -> u64
        ensures value { result ≡ self.now.p }
        ensures valid { IsExtension self.now }
    {
        self.base.p()
    }

    /// The degree d of G.
    pub fn degree(&self) -> u32
        ensures value { result ≡ degree self.now }
        ensures valid { IsExtension self.now }
    {
        self.base.degree()
    }

    /// The d + 1 coefficients of G, the constant term first.
    pub fn factor(&self) -> &[u64]
        ensures value { result.now ≡ self.now.factor }
        ensures valid { IsExtension self.now }
    {
        self.base.factor()
    }

    /// The element with the given d coefficients, numbers below p, the constant term first.
    pub fn element(&self, alloc: Global, coeffs: &[u64]) -> Result<ExtElem, AllocError>
        requires long { length coeffs.now ≡ degree self.now }
        requires below { All (λ c. c < self.now.p) coeffs.now }
        ensures value { IfOk result (λ r. r ≡ coeffs.now) }
        ensures element { IfOk result (λ _. IsElement self.now coeffs.now) }
    {
        let _base = &self.base;
        let coeffs = Vec::from_slice(alloc, coeffs)?;
        Ok(ExtElem {
            poly: Poly { coeffs },
        })
    }
}
