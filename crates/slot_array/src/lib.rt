//! Arrays of elements of an extension, one for each slot, what the instructions make of them, and their texts.
#![tactic(auto)]

mod arrays;
mod operations;
mod texts;

pub use arrays::SlotArray;
pub use operations::{PlainOp, apply};
pub use texts::{SlotsFault, law_slots_text, print_slots, read_slots};
