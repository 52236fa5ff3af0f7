//! Rows of residues as a ring, the residues of whole polynomials, and the whole polynomial behind rows.

ghost use Rattle.residue_rows.specs.RowLaws.{TestDecides, RowsAreRing, ResiduesLaw, MultiplesLaw, RowsDetermine, WholeLaw};

/// The test says whether there are n residues for each modulus.
pub fn law_test()
    ensures { TestDecides }
{}

/// R modulo each of some moduli is a commutative ring with one, whose operations go modulus by modulus.
pub fn law_ring()
    ensures { RowsAreRing }
{}

/// The residues of whole polynomials keep sums, products, negatives, multiples and substitutions.
pub fn law_residues()
    ensures { ResiduesLaw }
{}

/// Multiples of rows keep sums and go with products, and multiples and substitutions of rows are rows.
pub fn law_multiples()
    ensures { MultiplesLaw }
{}

/// Two whole polynomials have the same rows exactly where their coefficients are equal up to multiples of the product of the
/// moduli.
pub fn law_rows_determine()
    ensures { RowsDetermine }
{}

/// Modulo odd moduli each list of rows is that of one polynomial whose coefficients are below half of the product of the moduli.
pub fn law_whole()
    ensures { WholeLaw }
{}
