//! The numbered calls of a shelf or a sink in memory.
ghost use Rattle.shelf_core.specs.Calls.{IsCall};
ghost use Rattle.std.specs.Prelude.{◌≡◌};

use std::marker::Model;

/// How many calls were made, which of them are to fail, and how many did.
#[derive(Drop)]
pub(crate) struct CallCount {
    failing: Vec<u64>,
    made: u64,
    faults: u64,
}

impl Model for CallCount {
    ghost use Rattle.std.specs.Prelude.{◌≤◌};
    ghost use Rattle.shelf_core.specs.Calls.{Calls};

    ghost Value = { Calls };

    ghost view = { λ count. record {
      failing = count.failing.items;
      made = count.made;
      faults = count.faults;
    } };

    ghost invariant = { λ count. count.faults ≤ count.made };
}

impl CallCount {
    /// No call yet, and the numbers of those that are to fail.
    pub(crate) fn new(failing: Vec<u64>) -> CallCount
        ensures { result ≡ record { failing = failing.items; made = 0; faults = 0 } }
    {
        CallCount {
            failing,
            made: 0,
            faults: 0,
        }
    }

    /// Numbers the next call, and says whether it fails. From 2^64 - 1 calls on, none does.
    pub(crate) fn next_fails(&mut self) -> bool
        ensures { IsCall result self.old self.new }
    {
        if self.made == u64::MAX {
            return false;
        }
        let fails = self.failing.contains(&self.made);
        self.made += 1;
        if fails {
            self.faults += 1;
        }
        fails
    }
}
