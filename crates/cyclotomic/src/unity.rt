//! Roots of unity modulo numbers that need not be prime, and the values of polynomials at their powers, over every ring.

ghost use Rattle.cyclotomic.specs.RootLaws.{RootsDiffer, TransformLaw, ValueLaw, ValuesExist, ValuesDetermine};

use algebra::rings::AnyRing;

/// Where w^m is 1, and w^k - 1 has an inverse for each divisor k of m below m, each difference of two powers of w with
/// different exponents below m has an inverse.
pub fn law_roots_differ<R: AnyRing>()
    ensures { RootsDiffer R.held R.ops }
{}

/// The m values at the powers of such a w, and the sums with its inverse in place of w, undo each other up to a factor m.
pub fn law_transform<R: AnyRing>()
    ensures { TransformLaw R.held R.ops }
{}

/// For a unit j modulo m, Phi_m is 0 at w^j, and a polynomial and its remainder by Phi_m have one value there.
pub fn law_values<R: AnyRing>()
    ensures { ValueLaw R.held R.ops }
{}

/// Where m has an inverse, there are n coefficients with given values at w^j, j through the units in ascending order.
pub fn law_values_exist<R: AnyRing>()
    ensures { ValuesExist R.held R.ops }
{}

/// These values determine the n coefficients.
pub fn law_values_determine<R: AnyRing>()
    ensures { ValuesDetermine R.held R.ops }
{}
