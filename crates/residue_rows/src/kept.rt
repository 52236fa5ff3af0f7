//! The moduli of accepted tables, and polynomials kept by residues.

ghost use Rattle.residue_rows.specs.KeptLaws.{ModuliLaw, ValuesDetermineLaw};

/// The moduli of an accepted table are odd, each has an inverse modulo each later one, and their roots are roots of unity.
pub fn law_moduli()
    ensures { ModuliLaw }
{}

/// The values of a polynomial at the units, for each modulus, determine it.
pub fn law_values_determine()
    ensures { ValuesDetermineLaw }
{}
