//! Slot programs: their steps, their text, and what they make of arrays.
#![tactic(auto)]

mod automorphisms;
mod elements;
mod instructions;
mod kinds;
mod names;
mod operations;
mod printing;
mod programs;
mod reading;

pub use automorphisms::autos_of;
pub use kinds::{Kind, Step};
pub use printing::{law_print, law_runs, print};
pub use programs::{Program, law_values};
pub use reading::{ProgramFault, read};
