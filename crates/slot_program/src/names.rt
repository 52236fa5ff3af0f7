//! The names of values.
ghost use Rattle.std.specs.Prelude.{◌≡◌, IfOk, OnOk};
ghost use Rattle.slot_program.specs.Names.{naming, no_names, named};

use std::alloc::{AllocError, Global};
use std::collections::BTreeMap;

/// The numbers of values by their names.
#[derive(Drop)]
pub(crate) struct Names {
    numbers: BTreeMap<Vec<u8>, u32>,
}

impl Names {
    /// No names.
    #[tactic(auto, unfolding(crate::specs::Names::naming, crate::specs::Names::named))]
    pub(crate) fn new(alloc: Global) -> Names
        ensures { naming result ≡ no_names }
    {
        Names {
            numbers: BTreeMap::new(alloc),
        }
    }

    /// The number of the value with this name, if there is one.
    #[tactic(auto, unfolding(crate::specs::Names::naming, crate::specs::Names::named))]
    pub(crate) fn number(&self, word: &[u8]) -> Option<u32>
        ensures { result ≡ naming self.now word.now }
    {
        self.numbers.get(word).copied()
    }

    /// Gives the name to the value with this number.
    #[tactic(auto, unfolding(crate::specs::Names::naming, crate::specs::Names::named))]
    pub(crate) fn insert(&mut self, name: Vec<u8>, number: u32) -> Result<(), AllocError>
        ensures { OnOk result (naming self.new ≡ named (naming self.old) name.items number) }
    {
        self.numbers.insert(name, number)?;
        Ok(())
    }
}
