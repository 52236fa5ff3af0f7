//! The law of values at the powers of a root of unity.
ghost use Rattle.bluestein.specs.Plan.{ValuesDetermine};

/// The values at the m powers of the root determine the m coefficients. So the inverse of the values of a is a.
pub fn law_round_trip()
    ensures { ValuesDetermine }
{}
