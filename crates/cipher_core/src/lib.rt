//! Ciphertexts: encryption and decryption, with a bound of what a ciphertext holds kept beside it.
#![tactic(auto)]

mod ciphers;
mod decryption;
mod encryption;
mod faults;
mod laws;
mod masks;
mod plain_rows;
mod schemes;

pub use ciphers::Cipher;
pub use faults::CipherFault;
pub use laws::law_scheme;
pub use schemes::Scheme;
