//! Arrays of elements.
ghost use Rattle.std.specs.Prelude.{◌≡◌, IfOk};

use ext_field::ExtElem;
use std::alloc::{AllocError, Global};
use std::marker::Model;

/// An element for each slot, in the order of their indices. Contracts see it as the list of its elements.
///
/// How many there are, and which numbers stand in them, belongs to the torus and the extension that it is of.
#[derive(Drop)]
pub struct SlotArray {
    pub elems: Vec<ExtElem>,
}

impl Model for SlotArray {
    ghost use Rattle.std.specs.Prelude.{ℕ, List};

    ghost Value = { List (List ℕ) };

    ghost view = { λ x. x.elems.items };
}

impl SlotArray {
    /// The same array once more.
    pub fn copy(&self, alloc: Global) -> Result<SlotArray, AllocError>
        ensures { IfOk result (λ x. x ≡ self.now) }
    {
        let mut elems = Vec::with_capacity(alloc, self.elems.len())?;
        for elem in &self.elems {
            elems.push(elem.copy(alloc)?)?;
        }
        Ok(SlotArray { elems })
    }
}
