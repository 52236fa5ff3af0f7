//! An extension as a ring.
ghost use Rattle.std.specs.Prelude.{ℕ, List};
ghost use Rattle.ext_field.specs.Element.{IsExtension, is_element, elements};
ghost use Rattle.ext_field.specs.Laws.{element_laws};

use crate::elements::ExtElem;
use crate::extensions::Ext;
use mod_ring::Ring;
use std::alloc::{AllocError, Global};

impl Ring for Ext {
    type Elem = ExtElem;

    ghost Val = { List ℕ };

    ghost value = { λ a. a };

    ghost valid = { λ f. IsExtension f };

    ghost held = { λ f. is_element f };

    ghost ops = { λ f. elements f };

    ghost laws = { λ f h. element_laws f h.factor };

    fn holds(&self, a: &ExtElem) -> bool {
        self.base.holds(a)
    }

    fn zero(&self, alloc: Global) -> Result<ExtElem, AllocError> {
        self.base.zero(alloc)
    }

    fn one(&self, alloc: Global) -> Result<ExtElem, AllocError> {
        self.base.one(alloc)
    }

    fn add(&self, alloc: Global, a: &ExtElem, b: &ExtElem) -> Result<ExtElem, AllocError> {
        self.base.add(alloc, a, b)
    }

    fn sub(&self, alloc: Global, a: &ExtElem, b: &ExtElem) -> Result<ExtElem, AllocError> {
        self.base.sub(alloc, a, b)
    }

    fn mul(&self, alloc: Global, a: &ExtElem, b: &ExtElem) -> Result<ExtElem, AllocError> {
        self.base.mul(alloc, a, b)
    }

    fn neg(&self, alloc: Global, a: &ExtElem) -> Result<ExtElem, AllocError> {
        self.base.neg(alloc, a)
    }

    fn equal(&self, a: &ExtElem, b: &ExtElem) -> bool {
        self.base.equal(a, b)
    }
}
