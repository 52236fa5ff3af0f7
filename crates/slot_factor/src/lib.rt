//! The slots of polynomials with whole coefficients: encoding and decoding, and the checks of a table.
#![tactic(auto)]

mod checks;
mod decoding;
mod encoding;
mod faults;
mod idempotents;
mod norms;
mod packed;
mod passing;
mod plaintexts;
mod powers;
mod rows;
mod slots;
mod sums;

pub use faults::SlotFault;
pub use norms::one_norm;
pub use slots::Slots;
