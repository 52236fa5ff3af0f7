//! Residues modulo q in one word, rings by their operations and laws, and what is computed over any ring.
#![tactic(auto)]

mod folds;
pub mod lazy;
mod residues;
mod rings;
mod words;

pub use folds::{horner, power, sum};
pub use rings::Ring;
pub use words::Zq;
