//! The cyclotomic polynomials over the whole numbers.

ghost use Rattle.cyclotomic.specs.CyclotomicLaws.{ProductIsPowerLessOne, PhiIsOnly, PhiIsMonic, DegreeIsUnits, UnitsOfDivisors, PhiDividesImage};

/// The product of Phi_d over the divisors d of m is X^m - 1.
pub fn law_phi_is_cyclotomic()
    ensures { ProductIsPowerLessOne }
{}

/// No other polynomials have these products.
pub fn law_phi_is_only()
    ensures { PhiIsOnly }
{}

/// The last coefficient of Phi_m is 1.
pub fn law_phi_is_monic()
    ensures { PhiIsMonic }
{}

/// The degree of Phi_m is the number of units modulo m.
pub fn law_degree_is_units()
    ensures { DegreeIsUnits }
{}

/// The numbers of units modulo the divisors of m sum to m.
pub fn law_units_of_divisors()
    ensures { UnitsOfDivisors }
{}

/// Phi_m divides Phi_m(X^k), for each unit k modulo m.
pub fn law_phi_divides_image()
    ensures { PhiDividesImage }
{}
