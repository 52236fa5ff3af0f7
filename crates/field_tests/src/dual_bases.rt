//! Dual bases.
use crate::elements::{extension, fault_of};
use std::test::Fail;

#[test]
fn of_degree_three(rt: HostRuntime) -> Result<(), Fail> {
    let alloc = rt.alloc();
    let field = extension(&rt, alloc, 2, &[1, 1, 0, 1])?;
    for (rows, want) in [
        ([[1, 0, 0], [0, 0, 1], [0, 1, 0]], None),
        ([[1, 0, 0], [0, 1, 0], [0, 0, 1]], Some((1, 1))),
        ([[1, 0, 0], [0, 0, 1], [0, 1, 1]], Some((2, 1))),
        ([[1, 0, 0], [0, 0, 1], [0, 0, 0]], Some((2, 2))),
        ([[0, 0, 0], [0, 0, 0], [0, 0, 0]], Some((0, 0))),
    ] {
        let fault = fault_of(&rt, alloc, &field, rows.as_slice())?;
        assert_eq!(rt; fault, want);
    }
    Ok(())
}

#[test]
fn of_degree_two(rt: HostRuntime) -> Result<(), Fail> {
    let alloc = rt.alloc();
    let field = extension(&rt, alloc, 17, &[14, 0, 1])?;
    for (rows, want) in [([[9, 0], [0, 3]], None), ([[9, 0], [3, 0]], Some((1, 0)))] {
        let fault = fault_of(&rt, alloc, &field, rows.as_slice())?;
        assert_eq!(rt; fault, want);
    }
    Ok(())
}
