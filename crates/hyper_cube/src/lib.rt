//! The hypercube of the slots: each unit modulo m stands at one index of a torus and at one power of p.
#![tactic(auto)]

mod cubes;
mod faults;
mod laws;
mod tables;
mod unit_list;

pub use cubes::Cube;
pub use faults::CubeFault;
pub use laws::{law_checks, law_indices, law_located};
pub use unit_list::units;
