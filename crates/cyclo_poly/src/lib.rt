//! Polynomials over any ring, division by a monic polynomial, and the rings of remainders that it gives.
#![tactic(auto)]

mod cyclo;
mod division;
mod exact;
mod factors;
mod lists;
mod members;
mod passes;
mod powers;
mod primes;
mod quotients;
mod strides;
mod words;

pub use cyclo::{Cyclo, CycloFault};
pub use division::{Poly, divide_monic, law_divides_once};
pub use quotients::Quot;
