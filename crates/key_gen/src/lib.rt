//! Secret and public keys from draws.
#![tactic(auto)]

mod polynomials;
mod public_keys;
mod rows;
mod secrets;

pub use polynomials::noise;
pub use public_keys::public;
pub use rows::{errors, smalls};
pub use secrets::secret;
