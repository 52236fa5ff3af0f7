//! Arrays that come back over tables of a composite m, of elements of a high degree, and of a large p.
use crate::assertions::assert_comes_back;
use std::test::Fail;

/// A table of m = 15, with elements of degree 4.
static FIFTEEN: &str = "m = 15
p = 2
factor = [1, 0, 0, 1, 1]
dual = [[1, 1, 0, 0], [1, 0, 1, 1], [0, 1, 0, 1], [0, 1, 1, 0]]
generators = [[7, 2]]
weight = 3
digits = [1, 1]
chain = [[4503599627375041, 3322974739247178, 466074170442453, 1], [4503599627375521, 1665796575185256, 2377436391386485, 1]]
special = [[4503599627378881, 4061515329047552, 2040512301246596, 1]]
inverse = [[], [9382499223699], [3378872532937124, 1340357031958]]
";

/// A table of m = 21, with elements of degree 6.
static TWENTY_ONE: &str = "m = 21
p = 2
factor = [1, 0, 1, 0, 1, 1, 1]
dual = [[1, 0, 1, 1, 0, 0], [0, 0, 1, 1, 1, 1], [1, 1, 0, 0, 1, 0], [1, 1, 0, 0, 1, 1], [0, 1, 1, 1, 0, 1], [0, 1, 0, 1, 1, 0]]
generators = [[5, 2]]
weight = 4
digits = [1, 1]
chain = [[4503599627378881, 88309663846019, 383861267412963, 1], [4503599627395009, 3871128462440046, 3092801199073290, 1]]
special = [[4503599627446081, 2814479406631761, 540805668684152, 1]]
inverse = [[], [1876779085796246], [450426980596207, 1540793317088921]]
";

/// A table of m = 9 and p = 65537.
static NINE: &str = "m = 9
p = 65537
factor = [1, 13354, 1]
dual = [[54542, 46685], [46685, 54541]]
generators = [[2, 3]]
weight = 2
digits = [1, 1]
chain = [[4503599627375521, 2835878195391391, 2377436391386485, 23250], [4503599627376097, 1868809766056360, 4179945749282925, 15865]]
special = [[4503599627387041, 3236924459290753, 1047463270103795, 45276]]
inverse = [[], [2259618563041132], [3941040611431316, 2252211326817368]]
";

#[test]
fn composite_index(rt: HostRuntime) -> Result<(), Fail> {
    assert_comes_back(
        &rt,
        FIFTEEN,
        &[(3, "1 1 1 0\n0 1 0 0\n"), (200, "1 1 0 0\n0 1 1 0\n")],
    )
}

#[test]
fn elements_of_degree_six(rt: HostRuntime) -> Result<(), Fail> {
    assert_comes_back(
        &rt,
        TWENTY_ONE,
        &[
            (3, "0 0 0 0 0 0\n0 1 1 1 0 0\n"),
            (200, "1 1 0 0 1 1\n1 0 1 1 0 1\n"),
        ],
    )
}

#[test]
fn a_large_plain_modulus(rt: HostRuntime) -> Result<(), Fail> {
    assert_comes_back(
        &rt,
        NINE,
        &[
            (3, "3899 9204\n14146 52481\n14129 38129\n"),
            (200, "50661 8759\n2213 71\n27984 27488\n"),
        ],
    )
}
