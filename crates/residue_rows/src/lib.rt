//! Polynomials of R kept by residues: rows modulo some moduli, the whole polynomial behind them, and their values at roots of
//! unity.
//!
//! Nothing here runs: each function is a law, whose statement stands in `specs/` and whose proof stands in `proofs/`.
#![tactic(auto)]

pub mod kept;
pub mod rows;
pub mod values;
