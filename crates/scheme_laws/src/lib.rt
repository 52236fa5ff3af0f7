//! Keys and ciphertexts of the scheme: definitions and laws.
//!
//! Nothing here runs: each function is a law, whose statement stands in `specs/` and whose proof stands in `proofs/`.
#![tactic(auto)]

pub mod scheme;
