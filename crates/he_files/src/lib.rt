//! The binary files of the scheme, read and written: secrets (`.sk`), public keys (`.pk`) and ciphertexts (`.ct`).
//!
//! Numbers are little-endian. A file is a header and a body. The header is `HBGV`, one byte for the kind (1 for a secret, 2 for
//! a public key, 4 for a ciphertext), one byte 1 for the format, and the names of the table and of the key, each behind one
//! byte for its length. The bodies are described at their readers.
//!
//! What a reader answers is one definition of `specs/` that walks the fields from left to right; [`ReadFault::Bad`] has the
//! offset of the first field that is cut short or not allowed, or of the first byte after the last field.
#![tactic(auto)]

mod ciphers;
mod faults;
mod fields;
mod headers;
mod laws;
mod polynomials;
mod publics;
mod secrets;

pub use ciphers::{read_cipher, write_cipher};
pub use faults::ReadFault;
pub use headers::{Header, read_header};
pub use laws::{law_cipher, law_header, law_public, law_public_key, law_secret};
pub use publics::{read_public, write_public};
pub use secrets::{read_secret, write_secret};
