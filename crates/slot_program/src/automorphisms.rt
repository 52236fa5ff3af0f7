//! The automorphisms of a program.
ghost use Rattle.std.specs.Prelude.{◌≡◌, ◌↔◌, ℕ, Contains, IsTrue, IfOk};
ghost use Rattle.std.specs.List.Sorted.{IsStrictlyIncreasing};
ghost use Rattle.std.specs.Ordering.{nat_cmp};
ghost use Rattle.std.specs.BTreeSet.{contains, IsOrdered};
ghost use Rattle.slot_program.specs.Kinds.{is_key};

use crate::programs::Program;
use std::alloc::{AllocError, Global};
use std::collections::BTreeSet;

/// Each K of an automorphism of the program once, in ascending order, without 1.
pub fn autos_of(alloc: Global, program: &Program) -> Result<Vec<u32>, AllocError>
    ensures ascending { IfOk result (λ list. IsStrictlyIncreasing list.items) }
    ensures each { IfOk result (λ list. (k : ℕ) → Contains list.items k ↔ IsTrue (is_key program.now k)) }
{
    let keys = keys_of(alloc, program)?;
    let list = listed(alloc, &keys)?;
    Ok(list)
}

/// The set of these K.
fn keys_of(alloc: Global, program: &Program) -> Result<BTreeSet<u32>, AllocError>
    ensures { IfOk result (λ keys. (k : ℕ) → contains nat_cmp keys k ≡ is_key program.now k) }
{
    let mut keys = BTreeSet::new(alloc);
    for step in &program.steps {
        if let Some(k) = step.kind.key() {
            keys.insert(k)?;
        }
    }
    Ok(keys)
}

/// The numbers of a set in ascending order.
fn listed(alloc: Global, keys: &BTreeSet<u32>) -> Result<Vec<u32>, AllocError>
    ensures value { IfOk result (λ list. list.items ≡ keys.now.keys) }
    ensures ordered { IfOk result (λ _. IsOrdered nat_cmp keys.now) }
{
    keys.iter().copied().collect(alloc)
}
