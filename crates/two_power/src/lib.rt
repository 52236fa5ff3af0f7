//! Cyclic convolutions of a length that is a power of two, modulo numbers that need not be prime.
#![tactic(auto)]

mod cyclic;
mod passes;
mod transforms;
mod tree;

pub use cyclic::Cyclic;
pub use tree::quotients_of;
