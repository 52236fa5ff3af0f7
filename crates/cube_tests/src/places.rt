//! Indices, elements and the places of units.
use crate::cubes::{coordinates, cube, dimensions, elements, located, moved};
use hyper_cube::units;
use std::test::Fail;

/// m, how many units there are, and their sum.
static UNITS: [(u32, usize, u64); 6] = [
    (3, 2, 3),
    (12, 4, 24),
    (30, 8, 120),
    (4095, 1728, 3538080),
    (65535, 32768, 1073725440),
    (65536, 32768, 1073741824),
];

#[test]
fn unit_lists(rt: HostRuntime) -> Result<(), Fail> {
    let alloc = rt.alloc();
    assert_eq!(rt; units(alloc, 12)?.as_slice(), [1, 5, 7, 11].as_slice());
    for (m, count, total) in UNITS {
        assert!(rt; m >= 3 && m <= 65536);
        let list = units(alloc, m)?;
        assert_eq!(rt; list.len(), count, "units modulo {m}");
        let mut sum: u64 = 0;
        for k in &list {
            sum = sum.saturating_add(*k as u64);
        }
        assert_eq!(rt; sum, total, "units modulo {m}");
    }
    Ok(())
}

#[test]
fn one_dimension(rt: HostRuntime) -> Result<(), Fail> {
    let alloc = rt.alloc();
    let cube = cube(&rt, alloc, 7, 2, 3, &[(3, 2)])?;
    assert_eq!(rt;
        (cube.m(), cube.p(), cube.d(), cube.slot_count()),
        (7, 2, 3, 2)
    );
    assert_eq!(rt;
        dimensions(alloc, &cube)?.as_slice(),
        [(3, 2, false)].as_slice()
    );
    assert_eq!(rt; elements(alloc, &cube)?.as_slice(), [1, 3].as_slice());
    assert_eq!(rt; coordinates(alloc, &cube)?.as_slice(), [0, 1].as_slice());
    let places = [(0, 0), (1, 0)];
    assert_eq!(rt; located(alloc, &cube)?.as_slice(), places.as_slice());
    Ok(())
}

#[test]
fn of_good_dimensions(rt: HostRuntime) -> Result<(), Fail> {
    let alloc = rt.alloc();
    let cube = cube(&rt, alloc, 24, 5, 2, &[(7, 2), (13, 2)])?;
    let dims = [(7, 2, true), (13, 2, true)];
    assert_eq!(rt; dimensions(alloc, &cube)?.as_slice(), dims.as_slice());
    assert_eq!(rt;
        elements(alloc, &cube)?.as_slice(),
        [1, 13, 7, 19].as_slice()
    );
    let indices = [0, 0, 0, 1, 1, 0, 1, 1];
    assert_eq!(rt; coordinates(alloc, &cube)?.as_slice(), indices.as_slice());
    for (slot, i, to, want) in [(0, 0, 1, 2), (3, 1, 0, 2), (1, 0, 0, 1)] {
        assert_eq!(rt; moved(&rt, &cube, slot, i, to), want);
    }
    let places = [(0, 0), (1, 0), (2, 0), (3, 0)];
    assert_eq!(rt; located(alloc, &cube)?.as_slice(), places.as_slice());
    Ok(())
}

#[test]
fn of_a_bad_dimension(rt: HostRuntime) -> Result<(), Fail> {
    let alloc = rt.alloc();
    let cube = cube(&rt, alloc, 32, 17, 2, &[(31, 2), (5, 4)])?;
    let dims = [(31, 2, true), (5, 4, false)];
    assert_eq!(rt; dimensions(alloc, &cube)?.as_slice(), dims.as_slice());
    let products = [1, 5, 25, 29, 31, 27, 7, 3];
    assert_eq!(rt; elements(alloc, &cube)?.as_slice(), products.as_slice());
    let indices = [0, 0, 0, 1, 0, 2, 0, 3, 1, 0, 1, 1, 1, 2, 1, 3];
    assert_eq!(rt; coordinates(alloc, &cube)?.as_slice(), indices.as_slice());
    for (slot, i, to, want) in [(0, 0, 1, 4), (7, 1, 0, 4), (5, 0, 0, 1)] {
        assert_eq!(rt; moved(&rt, &cube, slot, i, to), want);
    }
    let places = [
        (0, 0),
        (1, 0),
        (2, 0),
        (3, 0),
        (4, 0),
        (5, 0),
        (6, 0),
        (7, 0),
    ];
    assert_eq!(rt; located(alloc, &cube)?.as_slice(), places.as_slice());
    Ok(())
}
