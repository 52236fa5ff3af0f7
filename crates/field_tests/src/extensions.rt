//! Which extensions there are, and sums, products, powers, values, images and traces in small ones.
use crate::elements::{
    extension, image_of, power_of, product_of, sum_of, total_of, trace_of, value_of,
};
use ext_field::ExtFault;
use std::test::Fail;

#[test]
fn moduli(rt: HostRuntime) -> Result<(), Fail> {
    let alloc = rt.alloc();
    for (p, factor) in [
        (2, [1, 1, 1]),
        (3, [1, 0, 1]),
        (4, [1, 1, 1]),
        (17, [14, 0, 1]),
    ] {
        let field = extension(&rt, alloc, p, factor.as_slice())?;
        let copy = field.copy(alloc)?;
        assert_eq!(rt; copy.p(), p);
        assert_eq!(rt; copy.degree(), 2);
        assert_eq!(rt; copy.factor(), factor.as_slice());
    }
    for (p, factor) in [(4, [1, 0, 1]), (6, [1, 1, 1]), (15, [2, 0, 1])] {
        let refused = match extension(&rt, alloc, p, factor.as_slice()) {
            Err(ExtFault::NotFrobenius) => true,
            _ => false,
        };
        assert!(rt; refused, "p = {p}");
    }
    Ok(())
}

#[test]
fn of_degree_three(rt: HostRuntime) -> Result<(), Fail> {
    let alloc = rt.alloc();
    let field = extension(&rt, alloc, 2, &[1, 1, 0, 1])?;
    let total = total_of(&rt, alloc, &field, &[0, 0, 1], &[1, 1, 1])?;
    assert_eq!(rt; total.as_slice(), [1, 1, 0].as_slice());
    let product = product_of(&rt, alloc, &field, &[0, 0, 1], &[1, 1, 1])?;
    assert_eq!(rt; product.as_slice(), [1, 0, 0].as_slice());
    for (a, once, twice, trace) in [
        ([1, 0, 0], [1, 0, 0], [1, 0, 0], [1, 0, 0]),
        ([0, 1, 0], [0, 0, 1], [0, 1, 1], [0, 0, 0]),
        ([0, 0, 1], [0, 1, 1], [0, 1, 0], [0, 0, 0]),
    ] {
        for (times, want) in [(0, a), (1, once), (2, twice), (3, a)] {
            let image = image_of(&rt, alloc, &field, a.as_slice(), times)?;
            assert_eq!(rt; image.as_slice(), want.as_slice(), "{times} times");
        }
        let sum = trace_of(&rt, alloc, &field, a.as_slice())?;
        assert_eq!(rt; sum.as_slice(), trace.as_slice());
    }
    Ok(())
}

#[test]
fn of_degree_two(rt: HostRuntime) -> Result<(), Fail> {
    let alloc = rt.alloc();
    let field = extension(&rt, alloc, 17, &[14, 0, 1])?;
    let product = product_of(&rt, alloc, &field, &[9, 3], &[4, 5])?;
    assert_eq!(rt; product.as_slice(), [13, 6].as_slice());
    let image = image_of(&rt, alloc, &field, &[9, 3], 1)?;
    assert_eq!(rt; image.as_slice(), [9, 14].as_slice());
    let trace = trace_of(&rt, alloc, &field, &[9, 3])?;
    assert_eq!(rt; trace.as_slice(), [1, 0].as_slice());
    Ok(())
}

// the generic functions of rings
#[test]
fn folds(rt: HostRuntime) -> Result<(), Fail> {
    let alloc = rt.alloc();
    let field = extension(&rt, alloc, 17, &[14, 0, 1])?;
    for (e, want) in [
        (0, [1, 0]),
        (1, [9, 3]),
        (2, [6, 3]),
        (5, [7, 3]),
        (16, [2, 16]),
    ] {
        let raised = power_of(&rt, alloc, &field, &[9, 3], e)?;
        assert_eq!(rt; raised.as_slice(), want.as_slice(), "power {e}");
    }
    let rows = [[1, 2], [3, 4], [5, 6]];
    let total = sum_of(&rt, alloc, &field, rows.as_slice())?;
    assert_eq!(rt; total.as_slice(), [9, 12].as_slice());
    let value = value_of(&rt, alloc, &field, rows.as_slice(), &[9, 3])?;
    assert_eq!(rt; value.as_slice(), [12, 13].as_slice());
    Ok(())
}
