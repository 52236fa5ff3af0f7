//! The remainders by a monic polynomial as a ring.
ghost use Rattle.std.specs.Prelude.{ℕ, List};
ghost use Rattle.ext_field.specs.Element.{IsMonicFactor, is_element, elements};
ghost use Rattle.ext_field.specs.Laws.{element_laws};

use crate::elements::ExtElem;
use crate::remainders::Remainders;
use mod_ring::Ring;
use std::alloc::{AllocError, Global};

impl Ring for Remainders {
    type Elem = ExtElem;

    ghost Val = { List ℕ };

    ghost value = { λ a. a };

    ghost valid = { λ f. IsMonicFactor f };

    ghost held = { λ f. is_element f };

    ghost ops = { λ f. elements f };

    ghost laws = { λ f h. element_laws f h };

    fn holds(&self, a: &ExtElem) -> bool {
        self.ring.holds(&a.poly)
    }

    fn zero(&self, alloc: Global) -> Result<ExtElem, AllocError> {
        let poly = self.ring.zero(alloc)?;
        Ok(ExtElem { poly })
    }

    fn one(&self, alloc: Global) -> Result<ExtElem, AllocError> {
        let poly = self.ring.one(alloc)?;
        Ok(ExtElem { poly })
    }

    fn add(&self, alloc: Global, a: &ExtElem, b: &ExtElem) -> Result<ExtElem, AllocError> {
        let poly = self.ring.add(alloc, &a.poly, &b.poly)?;
        Ok(ExtElem { poly })
    }

    fn sub(&self, alloc: Global, a: &ExtElem, b: &ExtElem) -> Result<ExtElem, AllocError> {
        let poly = self.ring.sub(alloc, &a.poly, &b.poly)?;
        Ok(ExtElem { poly })
    }

    fn mul(&self, alloc: Global, a: &ExtElem, b: &ExtElem) -> Result<ExtElem, AllocError> {
        let poly = self.ring.mul(alloc, &a.poly, &b.poly)?;
        Ok(ExtElem { poly })
    }

    fn neg(&self, alloc: Global, a: &ExtElem) -> Result<ExtElem, AllocError> {
        let poly = self.ring.neg(alloc, &a.poly)?;
        Ok(ExtElem { poly })
    }

    fn equal(&self, a: &ExtElem, b: &ExtElem) -> bool {
        self.ring.equal(&a.poly, &b.poly)
    }
}
