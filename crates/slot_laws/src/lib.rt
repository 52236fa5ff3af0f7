//! The slots of polynomials with whole coefficients: definitions and laws.
//!
//! Nothing here runs: each function is a law, whose statement stands in `specs/` and whose proof stands in `proofs/`.
//! All of them speak of a table that has passed its checks: `IsPacking f c`.
#![tactic(auto)]

pub mod slots;
