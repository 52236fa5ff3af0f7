//! Laws of polynomials over every commutative ring, as lists of coefficients, the constant one first.

ghost use Rattle.algebra.specs.Laws.{SumLaw, ProductLaw, SubstitutionLaw, SubstitutionKeeps, ValueLaw, EvaluationLaw, DivisionLaw, RemainderLaw, QuotientLaw};

use crate::rings::AnyRing;

/// The coefficients of a sum of polynomials are the sums of theirs.
pub fn law_sum<R: AnyRing>()
    ensures { SumLaw R.held R.ops }
{}

/// The schoolbook product: its coefficient `i` is the sum of the products of coefficients whose places add up to `i`.
pub fn law_product<R: AnyRing>()
    ensures { ProductLaw R.held R.ops }
{}

/// `f(X^k)` has the coefficients of `f` at the multiples of `k`, and no others.
pub fn law_substitution<R: AnyRing>()
    ensures { SubstitutionLaw R.held R.ops }
{}

/// The substitution of `X^k` for `X` keeps sums and products.
pub fn law_substitution_keeps<R: AnyRing>()
    ensures { SubstitutionKeeps R.held R.ops }
{}

/// The value at `x`, by Horner's rule, is the sum of the coefficients times powers of `x`.
pub fn law_value<R: AnyRing>()
    ensures { ValueLaw R.held R.ops }
{}

/// Evaluation at `x` keeps sums and products; it takes `f(X^k)` to the value of `f` at `x^k`, and the remainder by a
/// monic polynomial that has the zero `x` to the value of the dividend.
pub fn law_evaluation<R: AnyRing>()
    ensures { EvaluationLaw R.held R.ops }
{}

/// Long division by a monic polynomial `g`: `f = q g + r` with a remainder of as many places as the degree of `g` and a
/// quotient of as many as `f` has more, and no other pair of lists is that.
pub fn law_division<R: AnyRing>()
    ensures { DivisionLaw R.held R.ops }
{}

/// The remainder by a monic `g` keeps sums, keeps products up to a further remainder, sees the coefficients alone, and
/// leaves a list of as many places as the degree of `g` as it is.
pub fn law_remainder<R: AnyRing>()
    ensures { RemainderLaw R.held R.ops }
{}

/// The quotient ring: the lists of as many elements as the degree of the monic `g` are a commutative ring with one, under
/// sum, and product with remainder by `g`.
pub fn law_quotient_ring<R: AnyRing>()
    ensures { QuotientLaw R.held R.ops }
{}
