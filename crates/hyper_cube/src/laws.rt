//! The laws of cubes.
ghost use Rattle.hyper_cube.specs.CubeLaws.{PassesWhereCube, FailsWhereFault, StandAtUnits, UnitsStandOnce, UnitsAreOnePair, BeginsAtOne, IndicesAreNumbered};

/// A torus whose numbers are in range passes the checks exactly where it is a cube: `p^d` is 1, each `g^D` is a power of
/// p, there are as many products as units, and the products differ. The first check that fails says exactly what is not
/// so, at its least place.
pub fn law_checks()
    ensures passes { PassesWhereCube }
    ensures fails { FailsWhereFault }
{}

/// In a cube the products `T(e) * p^u` are units modulo m, and each unit modulo m is one of them, at one place: for one
/// index e and one u below d.
pub fn law_located()
    ensures units { StandAtUnits }
    ensures once { UnitsStandOnce }
    ensures pair { UnitsAreOnePair }
    ensures first { BeginsAtOne }
{}

/// In a cube an index and its number determine each other.
pub fn law_indices()
    ensures { IndicesAreNumbered }
{}
