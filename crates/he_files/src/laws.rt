//! Laws of the files.
ghost use Rattle.he_files.specs.FileLaws.{HeaderLaw, SecretLaw, PublicLaw, PublicKeyLaw, CipherLaw};

/// A header has eight bytes more than its names. It is read again, whatever follows, and a header that is read was spelled so.
pub fn law_header()
    ensures { HeaderLaw }
{}

/// The file of a secret is read as the same secret, and a file that is read as a secret is the one that is written for it.
pub fn law_secret()
    ensures { SecretLaw }
{}

/// The file of a public key is read as the same key, and a file that is read as a public key is the one that is written for it.
pub fn law_public()
    ensures { PublicLaw }
{}

/// The file of a public key of a secret is read as that key: its parts are residues of the whole chain.
pub fn law_public_key()
    ensures { PublicKeyLaw }
{}

/// The file of a ciphertext is read as the same ciphertext, and a file that is read as a ciphertext is the one that is written
/// for it.
pub fn law_cipher()
    ensures { CipherLaw }
{}
