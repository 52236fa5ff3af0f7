//! Programs run in the clear on packed plaintexts: polynomials whose slots are the arrays of the values.
#![tactic(auto)]

mod running;

pub use running::run_clear;
