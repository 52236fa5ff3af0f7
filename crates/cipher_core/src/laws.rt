//! What the parts of a scheme make together.
ghost use Rattle.cipher_core.specs.Shown.{PartsMakeScheme};

/// The three parts of a scheme, whose tables have passed their checks, are those of a setting that the laws of ciphertexts
/// speak of.
pub fn law_scheme()
    ensures { PartsMakeScheme }
{}
