//! Keys and ciphertexts of the scheme: what their equations mean.

ghost use Rattle.scheme_laws.specs.SchemeLaws.{SizesLaw, DrawsLaw, NormCountsLaw, PublicPartIsWhole, FreshStands, DrawnStands, DecryptsLaw};

/// The sizes of an accepted table are in the ranges that its bounds are made from.
pub fn law_sizes()
    ensures { SizesLaw }
{}

/// What a stream gives are secrets of the table's weight, errors from -10 to 10, residues, and public keys.
pub fn law_draws()
    ensures { DrawsLaw }
{}

/// The sums of absolute coefficients of an encoded array, a secret, an error and a small polynomial.
pub fn law_norm_counts()
    ensures { NormCountsLaw }
{}

/// The equation of a public key holds over whole polynomials, up to multiples of each modulus.
pub fn law_public_part()
    ensures { PublicPartIsWhole }
{}

/// A fresh ciphertext stands for its array under the secret of the key, with the bound of fresh ciphertexts.
pub fn law_fresh_stands()
    ensures { FreshStands }
{}

/// The ciphertext that a stream gives stands for its array.
pub fn law_drawn_stands()
    ensures { DrawnStands }
{}

/// A ciphertext that stands for an array, with its bound below the limit of its level, decrypts to this array.
pub fn law_decrypts()
    ensures { DecryptsLaw }
{}
