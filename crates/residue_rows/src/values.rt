//! The values of polynomials at the powers of a root of unity whose exponents are units.

ghost use Rattle.residue_rows.specs.ValueLaws.{ValuesLaw, ValuesKeepLaw};

/// The n values at the units and the n residues determine each other, and the remainder by Phi_m keeps the values.
pub fn law_values()
    ensures { ValuesLaw }
{}

/// The operations of R modulo q go value by value, and a(X^k) has the values of a at other units.
pub fn law_values_keep()
    ensures { ValuesKeepLaw }
{}
