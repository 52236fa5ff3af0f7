//! The plain machine: what the files of keys and ciphertexts stand for, in pairs of names and arrays of field elements alone, and the
//! laws that each line of a session keeps it and that `decrypt` prints its arrays.
//!
//! `specs/PlainState` has the state and what a line makes of it, `specs/Carrying` when files carry a state, and what lines led to
//! them, and `specs/CarryingLaws` the laws.
//!
//! Nothing here runs: each function is a law, whose statement stands in `specs/` and whose proof stands in `proofs/`.
#![tactic(auto)]

mod laws;

pub use laws::{law_carrying, law_decrypts, law_empty, law_history};
