//! What is found in key files and ciphertext files.
ghost use Rattle.std.specs.Prelude.{◌≤◌, length};

use cipher_core::Scheme;
use he_files::Header;

/// The bytes of a key file or ciphertext file, its header, and the offset after this.
#[derive(Drop)]
pub struct Headed {
    /// The bytes of the file.
    pub bytes: Vec<u8>,
    /// The names that it carries.
    pub header: Header,
    /// Where its body begins.
    pub from: usize,
    pub ghost inside: { from ≤ length bytes.items },
}

/// What the first key file or ciphertext file of a line holds.
#[derive(Drop)]
pub struct Opened<A> {
    /// The names that it carries.
    pub header: Header,
    /// The scheme of the table that it names.
    pub scheme: Scheme,
    /// What stands behind the header.
    pub value: A,
}
