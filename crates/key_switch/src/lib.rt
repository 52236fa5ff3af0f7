//! The keys of the scheme.
#![tactic(auto)]

mod keys;

pub use keys::{Public, Secret};
