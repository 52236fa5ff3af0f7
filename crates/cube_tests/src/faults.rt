//! The first fault of a torus.
use crate::cubes::cube;
use hyper_cube::CubeFault;
use std::test::Fail;

/// Sizes whose product is 16384 modulo 2^32 or 2^64, or 0 modulo both.
static SIZES: [[u32; 6]; 4] = [
    [16384, 65, 4033, 1, 1, 1],
    [16384, 9, 307, 2857, 6529, 43691],
    [65536, 65536, 65536, 65536, 1, 1],
    [65536, 65536, 65536, 65536, 65536, 65536],
];

#[test]
fn accepted(rt: HostRuntime) -> Result<(), Fail> {
    let alloc = rt.alloc();
    for (m, p, d, gens, slots) in [
        (7, 2, 3, [(3, 2), (1, 1)], 2),
        (24, 7, 2, [(5, 2), (13, 2)], 4),
        (65536, 65535, 2, [(3, 16384), (1, 1)], 16384),
    ] {
        let cube = cube(&rt, alloc, m, p, d, gens.as_slice())?;
        assert_eq!(rt; cube.slot_count(), slots, "m = {m}");
    }
    Ok(())
}

#[test]
fn orders(rt: HostRuntime) {
    let alloc = rt.alloc();
    for (m, p, d, gens) in [(8, 2, 3, [(3, 2), (1, 1)]), (24, 7, 3, [(5, 1), (13, 2)])] {
        let refused = match cube(&rt, alloc, m, p, d, gens.as_slice()) {
            Err(CubeFault::NotOrder) => true,
            _ => false,
        };
        assert!(rt; refused, "m = {m}");
    }
}

// the second has a wrong count, too
#[test]
fn powers(rt: HostRuntime) {
    let alloc = rt.alloc();
    for (m, p, d, gens, want) in [
        (63, 2, 6, [(3, 2), (1, 1)], 0),
        (24, 7, 2, [(5, 1), (13, 24)], 0),
        (24, 7, 2, [(5, 4), (5, 1)], 1),
        (65536, 65535, 2, [(3, 8192), (1, 1)], 0),
    ] {
        let place = match cube(&rt, alloc, m, p, d, gens.as_slice()) {
            Err(CubeFault::NotPower(i)) => Some(i),
            _ => None,
        };
        assert_eq!(rt; place, Some(want), "m = {m}");
    }
}

#[test]
fn repeats(rt: HostRuntime) {
    let alloc = rt.alloc();
    for (m, p, d, gens, want) in [
        (7, 2, 3, [(2, 2), (1, 1)], (1, 3)),
        (24, 7, 2, [(5, 2), (5, 2)], (2, 4)),
        (24, 7, 2, [(13, 2), (13, 2)], (2, 4)),
    ] {
        let places = match cube(&rt, alloc, m, p, d, gens.as_slice()) {
            Err(CubeFault::NotDistinct(a, b)) => Some((a, b)),
            _ => None,
        };
        assert_eq!(rt; places, Some(want), "m = {m}");
    }
}

// some have a right number of slots modulo 2^64, and no list of the true length is made
#[test]
fn counts(rt: HostRuntime) {
    let alloc = rt.alloc();
    for sizes in SIZES {
        let gens = sizes.map(|size| (1, size));
        let refused = match cube(&rt, alloc, 65536, 65535, 2, gens.as_slice()) {
            Err(CubeFault::WrongCount) => true,
            _ => false,
        };
        assert!(rt; refused);
    }
}
