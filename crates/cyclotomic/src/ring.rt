//! The ring R of whole polynomials modulo Phi_m, and its substitutions X to X^k.

ghost use Rattle.cyclotomic.specs.CyclotomicLaws.{RIsRing, SubstitutionKeepsOperations, SubstitutionsCompose, SubstitutionByResidue, SubstitutionByOne};

/// The lists of n coefficients, n the degree of Phi_m, are a commutative ring with one.
pub fn law_ring()
    ensures { RIsRing }
{}

/// a(X^k) keeps sums, products and one, for each unit k modulo m.
pub fn law_substitution()
    ensures { SubstitutionKeepsOperations }
{}

/// First X to X^k, then X to X^j is X to X^(k j).
pub fn law_substitutions_compose()
    ensures { SubstitutionsCompose }
{}

/// Only the residue of k modulo m counts.
pub fn law_substitution_by_residue()
    ensures { SubstitutionByResidue }
{}

/// X to X changes nothing.
pub fn law_substitution_by_one()
    ensures { SubstitutionByOne }
{}
