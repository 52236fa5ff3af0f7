//! Polynomials of R kept by their residues modulo the moduli of a table, with their ring operations.
#![tactic(auto)]

mod dcrt;
mod fills;
mod line;
mod makes;
mod row;
mod rows;
mod tables;
mod words;

pub use dcrt::Dcrt;
pub use tables::RingTables;
