//! Definitions and laws of algebra: rings, sums and products over ranges, powers and divisors, polynomials, quotient
//! rings, residues of whole numbers. Nothing here computes: each function is a law, and its clause says it.
#![tactic(auto)]

pub mod coefficients;
pub mod numbers;
pub mod rings;
