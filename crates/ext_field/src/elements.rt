//! The elements of an extension.
ghost use Rattle.std.specs.Prelude.{◌≡◌, ◌<◌, IfOk, length, slice_index};

use cyclo_poly::Poly;
use mod_ring::Zq;
use std::alloc::{AllocError, Global};
use std::marker::Model;

/// An element of an extension of degree d: d numbers below p, the constant term first. Contracts see it as that list.
///
/// Its length and p belong to the extension that it is of.
#[derive(Drop)]
pub struct ExtElem {
    pub(crate) poly: Poly<Zq>,
}

impl Model for ExtElem {
    ghost use Rattle.std.specs.Prelude.{ℕ, ◌≤◌, List, map, length};

    ghost Value = { List ℕ };

    ghost view = { λ a. map (λ c. c) a.poly.coeffs.items };

    ghost invariant = { λ a. length a.poly.coeffs.items ≤ 64 };
}

impl ExtElem {
    /// The number of coefficients, the degree of the extension.
    pub fn len(&self) -> u32
        ensures { result ≡ length self.now }
    {
        self.poly.coeffs.len() as u32
    }

    /// The coefficient of X^i.
    pub fn coeff(&self, i: u32) -> u64
        requires { i < length self.now }
        ensures { result ≡ slice_index self.now i }
    {
        self.poly.coeffs[i as usize]
    }

    /// The coefficients, the constant term first.
    pub fn coeffs(&self) -> &[u64]
        ensures { result.now ≡ self.now }
    {
        &self.poly.coeffs
    }

    /// The same element once more.
    pub fn copy(&self, alloc: Global) -> Result<ExtElem, AllocError>
        ensures { IfOk result (λ r. r ≡ self.now) }
    {
        let coeffs = Vec::from_slice(alloc, &self.poly.coeffs)?;
        Ok(ExtElem {
            poly: Poly { coeffs },
        })
    }
}

/// The same elements once more.
pub(crate) fn copied(alloc: Global, list: &[ExtElem]) -> Result<Vec<ExtElem>, AllocError>
    ensures { IfOk result (λ r. r.items ≡ list.now) }
{
    let mut copies = Vec::new(alloc);
    for i in 0..list.len() {
        let copy = list[i].copy(alloc)?;
        copies.push(copy)?;
    }
    Ok(copies)
}
