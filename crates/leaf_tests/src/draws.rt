//! Draws, with values from a plain program over the block function of RFC 8439.

use draw_stream::{Draws, law_sparse};
use rand_chacha::ChaCha20Rng;
use rand_core::SeedableRng;
use rand_core::utils::NextWord;
use std::test::Fail;

/// The bytes 0 to 31.
const COUNT: [u8; 32] = [
    0, 1, 2, 3, 4, 5, 6, 7, 8, 9, 10, 11, 12, 13, 14, 15, 16, 17, 18, 19, 20, 21, 22, 23, 24, 25,
    26, 27, 28, 29, 30, 31,
];

#[test]
fn first_words(rt: HostRuntime) {
    for (stream, words) in [
        (0, [0xade0b876, 0x903df1a0, 0xe56a5d40]),
        (1, [0xd6df3fef, 0xfb7815c6, 0xbd35cff5]),
    ] {
        let mut rng = ChaCha20Rng::from_seed([0; 32]);
        rng.set_stream(stream);
        for word in words {
            assert_eq!(rt; rng.next_word(), word, "stream {stream}");
        }
    }
}

#[test]
fn uniform_numbers(rt: HostRuntime) {
    let largest = (1 << 62) - 1;
    for (seed, stream, q, first, second) in [
        ([0; 32], 0, 1, 0, 0),
        ([0; 32], 0, 2, 0, 1),
        ([0; 32], 0, 113, 98, 56),
        (
            [0; 32],
            0,
            largest,
            3689586021764836730,
            3973137837030026601,
        ),
        ([0; 32], 1, 113, 56, 43),
        (
            [0; 32],
            1,
            largest,
            4352556132182949838,
            3781250954142464986,
        ),
        ([1; 32], 7, 2, 0, 1),
        ([1; 32], 7, 113, 74, 53),
        ([1; 32], 7, largest, 3266709860950302176, 506618488558396058),
        ([255; 32], u64::MAX, 113, 35, 61),
        (
            [255; 32],
            u64::MAX,
            largest,
            518015577291559144,
            2299238973558012336,
        ),
        (COUNT, 8589934597, 113, 79, 94),
        (
            COUNT,
            8589934597,
            largest,
            3025032703571201148,
            3084625892898943501,
        ),
    ] {
        assert!(rt; 0 < q && q <= largest);
        let mut draws = Draws::new(seed, stream);
        assert_eq!(rt; draws.uniform(q), first, "stream {stream}, modulus {q}");
        assert_eq!(rt; draws.place(), 4);
        assert_eq!(rt; draws.uniform(q), second, "stream {stream}, modulus {q}");
        assert_eq!(rt; draws.place(), 8);
    }
}

#[test]
fn small_numbers(rt: HostRuntime) {
    for (seed, stream, small, errors) in [
        ([0; 32], 0, [-1, 0, 0], [1, -4, -4]),
        ([0; 32], 1, [0, -1, 1], [1, 2, 2]),
        ([1; 32], 7, [-1, 0, -1], [-3, -4, -2]),
        ([255; 32], u64::MAX, [1, -1, -1], [-2, 2, -3]),
        (COUNT, 8589934597, [0, 0, -1], [0, 0, -1]),
    ] {
        let mut draws = Draws::new(seed, stream);
        assert_eq!(rt; draws.small(), small[0], "stream {stream}");
        assert_eq!(rt; draws.place(), 1);
        assert_eq!(rt; draws.small(), small[1], "stream {stream}");
        assert_eq!(rt; draws.small(), small[2], "stream {stream}");
        let mut draws = Draws::new(seed, stream);
        assert_eq!(rt; draws.error(), errors[0], "stream {stream}");
        assert_eq!(rt; draws.place(), 1);
        assert_eq!(rt; draws.error(), errors[1], "stream {stream}");
        assert_eq!(rt; draws.error(), errors[2], "stream {stream}");
    }
}

#[test]
fn sparse_lists(rt: HostRuntime) -> Result<(), Fail> {
    law_sparse();
    for (seed, stream, weight, want, place) in [
        ([0; 32], 0, 2, [0, -1, -1, 0, 0, 0].as_slice(), 10),
        (
            [0; 32],
            0,
            4,
            [-1, 0, 0, 0, 0, 0, -1, 0, 0, 0, 0, 0, -1, 0, 0, -1].as_slice(),
            20,
        ),
        ([0; 32], 0, 5, [-1, -1, -1, -1, -1].as_slice(), 25),
        ([0; 32], 0, 0, [0].as_slice(), 0),
        (
            [0; 32],
            1,
            4,
            [0, -1, 0, 0, 0, 0, 0, 0, 0, 0, -1, 0, 0, -1, 0, -1].as_slice(),
            20,
        ),
        ([1; 32], 7, 2, [-1, 0, -1, 0, 0, 0].as_slice(), 10),
        (
            [1; 32],
            7,
            4,
            [0, 0, -1, 1, 0, 0, 0, 0, 0, -1, -1, 0, 0, 0, 0, 0].as_slice(),
            20,
        ),
        ([1; 32], 7, 5, [-1, 1, -1, 1, -1].as_slice(), 25),
        (
            [255; 32],
            u64::MAX,
            4,
            [0, 0, -1, 0, 1, 0, -1, 0, 0, -1, 0, 0, 0, 0, 0, 0].as_slice(),
            20,
        ),
        ([255; 32], u64::MAX, 5, [-1, -1, -1, 1, -1].as_slice(), 25),
        (COUNT, 8589934597, 2, [-1, 0, 0, -1, 0, 0].as_slice(), 10),
        (
            COUNT,
            8589934597,
            4,
            [-1, 0, 0, 0, 0, 0, 0, -1, 0, 0, 0, 0, -1, -1, 0, 0].as_slice(),
            20,
        ),
    ] {
        assert!(rt; want.len() <= 16);
        let n = want.len() as u32;
        assert!(rt; weight <= n);
        let mut draws = Draws::new(seed, stream);
        let coefficients: Vec<i64> = draws.sparse(rt.alloc(), n, weight)?;
        assert_eq!(rt;
            coefficients.as_slice(),
            want,
            "stream {stream}, {weight} of {n}"
        );
        assert_eq!(rt; draws.place(), place);
    }
    Ok(())
}
