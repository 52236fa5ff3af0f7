//! Each check of a table that a text can fail, at its places. The checks of the height, of the idempotent, of its product
//! with the factor and of the sum over the slots fail for no text that passes those before them.
use crate::told::assert_faults;
use std::test::Fail;

#[test]
fn the_text_and_its_keys(rt: HostRuntime) -> Result<(), Fail> {
    assert_faults(
        &rt,
        &[
            (&[(0, "m = ")], "Text"),
            (&[(0, "")], "Shape m"),
            (&[(1, "p = 1")], "Shape p"),
            (&[(2, "factor = [1, 1, 0, 2]")], "Shape factor"),
            (&[(3, "dual = []")], "Shape dual"),
            (&[(4, "generators = 6")], "Shape generators"),
            (&[(5, "weight = 0")], "Shape weight"),
            (&[(6, "digits = [1, 2]")], "Shape digits"),
            (&[(7, "chain = 1")], "Shape chain"),
            (&[(8, "special = []")], "Shape special"),
            (&[(9, "inverse = [[], [170], [151]]")], "Shape inverse"),
            (&[(9, "")], "Shape inverse"),
            (&[(5, "weight = 2\nq = 1")], "Shape other"),
        ],
    )
}

#[test]
fn the_weight_and_the_cube(rt: HostRuntime) -> Result<(), Fail> {
    assert_faults(
        &rt,
        &[
            (&[(5, "weight = 7")], "Weight"),
            (&[(0, "m = 8")], "NotOrder"),
            (&[(1, "p = 3")], "NotOrder"),
            (&[(4, "generators = [[3, 1]]")], "NotPower 0"),
            (&[(4, "generators = [[6, 2], [3, 1]]")], "NotPower 1"),
            (&[(4, "generators = [[3, 1], [5, 1]]")], "NotPower 0"),
            (&[(4, "generators = []")], "WrongCount"),
            (&[(4, "generators = [[6, 4]]")], "WrongCount"),
            (&[(4, "generators = [[1, 2]]")], "NotDistinct 0 3"),
            (&[(4, "generators = [[2, 2]]")], "NotDistinct 1 3"),
            (&[(4, "generators = [[4, 2]]")], "NotDistinct 2 3"),
        ],
    )
}

#[test]
fn the_factor_and_the_dual_basis(rt: HostRuntime) -> Result<(), Fail> {
    assert_faults(
        &rt,
        &[
            (&[(1, "p = 4")], "NotFrobenius"),
            (&[(1, "p = 9")], "NotFrobenius"),
            (&[(2, "factor = [1, 0, 0, 1]")], "NotDivisor"),
            (&[(2, "factor = [0, 1, 0, 1]")], "NotDivisor"),
            (&[(2, "factor = [1, 0, 1, 1]")], "Dual 0 1"),
            (
                &[(3, "dual = [[0, 0, 0], [0, 0, 1], [0, 1, 0]]")],
                "Dual 0 0",
            ),
            (
                &[(3, "dual = [[1, 1, 0], [0, 0, 1], [0, 1, 0]]")],
                "Dual 0 2",
            ),
            (
                &[(3, "dual = [[1, 0, 0], [0, 1, 0], [0, 0, 1]]")],
                "Dual 1 1",
            ),
            (
                &[(3, "dual = [[1, 0, 0], [0, 1, 1], [0, 1, 0]]")],
                "Dual 1 2",
            ),
            (
                &[(3, "dual = [[1, 0, 0], [0, 0, 1], [1, 1, 0]]")],
                "Dual 2 0",
            ),
        ],
    )
}

#[test]
fn the_sizes_of_moduli(rt: HostRuntime) -> Result<(), Fail> {
    assert_faults(
        &rt,
        &[
            (
                &[(7, "chain = [[112, 7, 40, 1], [337, 285, 191, 1]]")],
                "Size 0",
            ),
            (
                &[(7, "chain = [[1, 0, 0, 0], [337, 285, 191, 1]]")],
                "Size 0",
            ),
            (
                &[(
                    7,
                    "chain = [[4611686018427387905, 7, 40, 1], [337, 285, 191, 1]]",
                )],
                "Size 0",
            ),
            (
                &[(7, "chain = [[113, 7, 113, 1], [337, 285, 191, 1]]")],
                "Size 0",
            ),
            (
                &[(7, "chain = [[113, 7, 40, 1], [336, 285, 191, 1]]")],
                "Size 1",
            ),
            (&[(8, "special = [[449, 449, 349, 1]]")], "Size 2"),
        ],
    )
}

#[test]
fn the_roots(rt: HostRuntime) -> Result<(), Fail> {
    assert_faults(
        &rt,
        &[
            (
                &[(7, "chain = [[115, 7, 40, 1], [337, 285, 191, 1]]")],
                "Residue 0",
            ),
            (&[(8, "special = [[451, 1, 1, 1]]")], "Residue 2"),
            (
                &[(7, "chain = [[113, 7, 40, 1], [337, 286, 191, 1]]")],
                "HalfRoot 1",
            ),
            (&[(8, "special = [[449, 430, 349, 1]]")], "HalfRoot 2"),
            (
                &[(7, "chain = [[113, 1, 40, 1], [337, 285, 191, 1]]")],
                "Root 0",
            ),
            // the modulus is 29 * 43, and omega is 1 modulo 29 alone
            (
                &[(7, "chain = [[1247, 88, 1, 1], [337, 285, 191, 1]]")],
                "Root 0",
            ),
            (&[(8, "special = [[449, 1, 349, 1]]")], "Root 2"),
            (
                &[(7, "chain = [[113, 7, 41, 1], [337, 285, 191, 1]]")],
                "TwoRoot 0",
            ),
            (&[(8, "special = [[449, 431, 1, 1]]")], "TwoRoot 2"),
        ],
    )
}

#[test]
fn the_inverses(rt: HostRuntime) -> Result<(), Fail> {
    assert_faults(
        &rt,
        &[
            (&[(9, "inverse = [[], [171], [151, 4]]")], "Inverse 0 1"),
            (&[(9, "inverse = [[], [507], [151, 4]]")], "Inverse 0 1"),
            (&[(9, "inverse = [[], [170], [152, 4]]")], "Inverse 0 2"),
            (&[(9, "inverse = [[], [170], [151, 5]]")], "Inverse 1 2"),
            (&[(9, "inverse = [[], [0], [0, 0]]")], "Inverse 0 1"),
            (&[(9, "inverse = [[], [170], [0, 0]]")], "Inverse 0 2"),
            (
                &[(7, "chain = [[113, 7, 40, 0], [337, 285, 191, 1]]")],
                "PlainInverse 0",
            ),
            (
                &[(7, "chain = [[113, 7, 40, 1], [337, 285, 191, 3]]")],
                "PlainInverse 1",
            ),
            (&[(8, "special = [[449, 431, 349, 0]]")], "PlainInverse 2"),
        ],
    )
}
