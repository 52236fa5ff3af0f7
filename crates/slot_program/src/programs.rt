//! Programs.
ghost use Rattle.std.specs.Prelude.{◌≡◌, ◌≤◌, not, length, find, option_map};
ghost use Rattle.slot_program.specs.Kinds.{is_basic};
ghost use Rattle.slot_program.specs.Program.{input_count, ValuesAreArrays};

use crate::kinds::Step;
use std::marker::Model;

/// A program: steps, each over the values of earlier ones. Contracts see it as the list of its steps.
#[derive(Drop)]
pub struct Program {
    pub steps: Vec<Step>,
}

impl Model for Program {
    ghost use Rattle.std.specs.Prelude.{List};
    ghost use Rattle.slot_program.specs.declared.kinds.Step.{Step};

    ghost Value = { List Step };

    ghost view = { λ program. program.steps.items };
}

impl Program {
    /// The line of the first instruction that is not basic, if there is one. Basic are all but `rotate`.
    pub fn first_source(&self) -> Option<u32>
        ensures { result ≡ option_map (λ step. step.line) (find (λ step. not (is_basic step.kind)) self.now) }
    {
        self.steps
            .iter()
            .find(|step| !step.kind.is_basic())
            .map(|step| step.line)
    }

    /// The number of inputs.
    pub fn inputs(&self) -> u32
        requires { length self.now ≤ 100000 }
        ensures { result ≡ input_count self.now }
    {
        let steps = self.steps.as_slice();
        steps.iter().filter(|step| step.kind.is_input()).count() as u32
    }
}

/// The law that the values of a well-formed program over arrays are arrays.
#[tactic(auto, using(crate::proofs::ValueLaws::values_are_arrays))]
pub fn law_values()
    ensures { ValuesAreArrays }
{}
