//! The moduli of a table with their roots of unity and inverses: the checks that they pass, and the search for roots.
#![tactic(auto)]

mod faults;
mod inverses;
pub mod laws;
mod moduli;
mod roots;
mod rows;
mod search;
mod unchecked;

pub use faults::ModFault;
pub use inverses::inverse_or_zero;
pub use moduli::Moduli;
pub use rows::ModRow;
pub use search::find_roots;
