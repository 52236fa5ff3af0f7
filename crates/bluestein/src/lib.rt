//! The values of a polynomial at the m powers of a root of unity, and back, modulo a number that need not be prime.
#![tactic(auto)]

mod chirps;
mod laws;
mod plan;
mod rows;

pub use laws::law_round_trip;
pub use plan::{Plan, Scratch};
