//! Linear maps by traces and a dual basis, over every ring.

ghost use Rattle.cyclotomic.specs.LinearLaws.{LinearMapLaw};

use algebra::rings::AnyRing;

/// Let F be a map of rings, and let d elements and their duals have the trace 1 for equal places and 0 for others, where the
/// trace is the sum of x, F(x), F(F(x)), .., d terms. The map with coefficients c_j, the sum of image i times F^j(dual i),
/// takes x to the sum of c_j F^j(x). It takes each combination of the basis with factors that F fixes to the same
/// combination of the images.
pub fn law_linear_map<R: AnyRing>()
    ensures { LinearMapLaw R.held R.ops }
{}
