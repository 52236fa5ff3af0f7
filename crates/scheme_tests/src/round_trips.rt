//! Random arrays that come back from their ciphertexts.
use crate::assertions::assert_comes_back;
use crate::{seven, thirty_two, twenty_four};
use std::test::Fail;

#[test]
fn arrays_of_bits(rt: HostRuntime) -> Result<(), Fail> {
    assert_comes_back(
        &rt,
        seven::TABLE,
        &[
            (1, "1 0 1\n0 0 0\n"),
            (2, "1 0 0\n0 0 1\n"),
            (77, "1 0 0\n0 1 0\n"),
            (128, "0 0 0\n1 0 0\n"),
            (255, "0 0 1\n1 0 0\n"),
        ],
    )
}

#[test]
fn arrays_modulo_seventeen(rt: HostRuntime) -> Result<(), Fail> {
    assert_comes_back(
        &rt,
        thirty_two::TABLE,
        &[
            (1, "9 5\n3 6\n11 3\n2 1\n6 15\n13 10\n14 14\n11 9\n"),
            (2, "7 5\n7 2\n9 16\n15 10\n14 9\n2 3\n16 13\n5 10\n"),
            (77, "4 15\n13 1\n2 10\n10 11\n15 14\n2 2\n8 15\n2 1\n"),
            (128, "9 14\n9 12\n11 0\n14 11\n5 3\n15 1\n6 9\n4 7\n"),
            (255, "12 12\n15 2\n5 14\n12 8\n4 13\n8 13\n11 12\n7 4\n"),
        ],
    )
}

#[test]
fn arrays_modulo_five(rt: HostRuntime) -> Result<(), Fail> {
    assert_comes_back(
        &rt,
        twenty_four::TABLE,
        &[
            (1, "0 1\n1 1\n1 0\n3 4\n"),
            (2, "1 2\n2 0\n1 3\n4 2\n"),
            (77, "4 4\n2 1\n4 4\n0 3\n"),
            (128, "4 3\n3 3\n3 0\n3 3\n"),
            (255, "0 1\n0 1\n3 1\n0 2\n"),
        ],
    )
}
