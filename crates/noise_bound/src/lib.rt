//! Worst-case bounds on noise: whole numbers `man * 2^exp` with a mantissa of 32 bits, rounded up or
//! down, and the bounds that the steps of encryption and evaluation give.
#![tactic(auto)]

mod laws;
mod rounding;
mod table;

pub use laws::{law_balanced, law_bound_of, law_form, law_groups, law_rounding};
pub use rounding::Bound;
pub use table::BoundTable;
