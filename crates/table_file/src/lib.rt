//! Tables: which texts are accepted, what they set, and their summaries.
#![tactic(auto)]

mod accepting;
mod faults;
mod laws;
mod reading;
mod summaries;
mod tables;

pub use faults::TableFault;
pub use laws::law_accepted;
pub use reading::read_table;
pub use summaries::{put_bound, put_bounded, summary};
pub use tables::Table;
