//! The filling of templates: from the moduli of a table, its roots and inverses.
//!
//! [`make`] reads a template, finds the roots of each modulus and the inverses of the moduli, and writes the table.
//! The checks of a table are not made here: a filled table can still be refused when it is read.
#![tactic(auto)]

mod faults;
mod making;
mod moduli;

pub use faults::MakeFault;
pub use making::make;
