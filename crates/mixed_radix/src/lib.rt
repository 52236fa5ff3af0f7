//! Balanced mixed radix: a whole number below half a product of odd moduli, as digits found from its residues.
//!
//! Each whole number strictly between -Q/2 and Q/2, where Q is the product of odd moduli q_0, q_1, .., is
//! `v_0 + v_1*q_0 + v_2*q_0*q_1 + ..` with `|v_i| < q_i/2`, in one way.
#![tactic(auto)]

mod laws;
mod radix;

pub use laws::{law_digits, law_mixed_radix};
pub use radix::Radix;
