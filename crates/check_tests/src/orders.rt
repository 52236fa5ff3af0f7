//! Texts with more than one fault: that of the earliest check is told, and in one check that of the least place.
use crate::told::{assert_faults, assert_refused};
use std::test::Fail;

#[test]
fn keys_of_tables(rt: HostRuntime) -> Result<(), Fail> {
    assert_faults(
        &rt,
        &[
            (&[(0, "m = 2"), (1, "p = 1")], "Shape m"),
            (&[(1, "p = 1"), (2, "factor = [1]")], "Shape p"),
            (&[(2, "factor = [1]"), (3, "dual = 1")], "Shape factor"),
            (&[(3, "dual = 1"), (4, "")], "Shape dual"),
            (&[(4, ""), (5, "weight = 0")], "Shape generators"),
            (&[(5, "weight = 0"), (6, "digits = [1]")], "Shape weight"),
            (
                &[(6, "digits = [1]"), (7, "chain = [1, 2]")],
                "Shape digits",
            ),
            (&[(7, "chain = [[1], [2]]"), (8, "")], "Shape chain"),
            (&[(8, ""), (9, "")], "Shape special"),
            (&[(8, "q = 1"), (9, "")], "Shape special"),
            (&[(9, "inverse = []\nq = 1")], "Shape inverse"),
        ],
    )
}

#[test]
fn keys_of_templates(rt: HostRuntime) -> Result<(), Fail> {
    assert_refused(
        &rt,
        &[
            (&[(0, "m = 2"), (1, "p =")], "BadTemplate text"),
            (&[(0, "m = 2"), (1, "p = 1")], "BadTemplate m"),
            (&[(1, "p = 1"), (2, "factor = [1]")], "BadTemplate p"),
            (
                &[(2, "factor = [1]"), (3, "dual = 1")],
                "BadTemplate factor",
            ),
            (&[(3, "dual = 1"), (4, "")], "BadTemplate dual"),
            (&[(4, ""), (5, "weight = 0")], "BadTemplate generators"),
            (&[(5, "weight = 0"), (6, "")], "BadTemplate weight"),
            (&[(6, ""), (7, "chain = [114]")], "BadTemplate digits"),
            (&[(7, "chain = [114]"), (8, "")], "BadTemplate chain"),
            (&[(8, "special = 3\nq = 1")], "BadTemplate special"),
        ],
    )
}

#[test]
fn before_the_moduli(rt: HostRuntime) -> Result<(), Fail> {
    assert_faults(
        &rt,
        &[
            (&[(0, "m = 2"), (1, "p =")], "Text"),
            (&[(5, "weight = 7"), (9, "inverse = []")], "Shape inverse"),
            (&[(1, "p = 3"), (5, "weight = 7")], "Weight"),
            (&[(1, "p = 3"), (4, "generators = [[5, 1]]")], "NotOrder"),
            (&[(4, "generators = [[3, 1]]")], "NotPower 0"),
            (&[(4, "generators = [[1, 3]]")], "WrongCount"),
            (
                &[(1, "p = 4"), (4, "generators = [[1, 2]]")],
                "NotDistinct 0 3",
            ),
            (
                &[
                    (0, "m = 3"),
                    (1, "p = 4"),
                    (2, "factor = [1, 1]"),
                    (3, "dual = [[1]]"),
                    (4, "generators = [[2, 2]]"),
                ],
                "NotFrobenius",
            ),
            (
                &[
                    (2, "factor = [1, 0, 0, 1]"),
                    (3, "dual = [[0, 0, 0], [0, 0, 0], [0, 0, 0]]"),
                ],
                "NotDivisor",
            ),
        ],
    )
}

#[test]
fn among_the_moduli(rt: HostRuntime) -> Result<(), Fail> {
    assert_faults(
        &rt,
        &[
            (
                &[
                    (3, "dual = [[1, 0, 0], [0, 0, 1], [0, 0, 0]]"),
                    (8, "special = [[448, 431, 349, 1]]"),
                ],
                "Dual 2 2",
            ),
            (&[(8, "special = [[450, 431, 349, 1]]")], "Size 2"),
            (&[(8, "special = [[451, 431, 349, 1]]")], "Residue 2"),
            (&[(8, "special = [[449, 0, 349, 1]]")], "HalfRoot 2"),
            (&[(8, "special = [[449, 1, 1, 1]]")], "Root 2"),
            (
                &[(7, "chain = [[113, 7, 41, 1], [336, 285, 191, 1]]")],
                "TwoRoot 0",
            ),
            (
                &[
                    (8, "special = [[449, 431, 1, 1]]"),
                    (9, "inverse = [[], [0], [151, 4]]"),
                ],
                "TwoRoot 2",
            ),
            (
                &[
                    (7, "chain = [[113, 7, 40, 0], [337, 285, 191, 1]]"),
                    (9, "inverse = [[], [170], [151, 0]]"),
                ],
                "Inverse 1 2",
            ),
            (
                &[
                    (7, "chain = [[113, 7, 40, 0], [337, 285, 191, 1]]"),
                    (8, "special = [[449, 431, 349, 0]]"),
                ],
                "PlainInverse 0",
            ),
        ],
    )
}
