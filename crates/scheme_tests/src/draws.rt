//! Lists of draws, and polynomials that hide others.
use crate::schemes::{ZEROS, residues, scheme_of};
use crate::seven;
use draw_stream::Draws;
use key_gen::{errors, noise, smalls};
use std::test::Fail;

#[test]
fn lists_of_draws(rt: HostRuntime) -> Result<(), Fail> {
    let mut draws = Draws::new(ZEROS, 5);
    let list = errors(rt.alloc(), 8, &mut draws)?;
    assert_eq!(rt; list.as_slice(), [2, -1, -3, 1, -3, -5, -2, 1].as_slice());
    assert_eq!(rt; draws.place(), 8);
    let mut draws = Draws::new(ZEROS, 6);
    let list = smalls(rt.alloc(), 8, &mut draws)?;
    assert_eq!(rt; list.as_slice(), [0, 0, 0, 0, 1, 0, 1, 0].as_slice());
    assert_eq!(rt; draws.place(), 8);
    Ok(())
}

/// Twice the coefficients, modulo the three moduli.
#[test]
fn noise_of_coefficients(rt: HostRuntime) -> Result<(), Fail> {
    let scheme = scheme_of(rt.alloc(), seven::TABLE)?;
    assert_eq!(rt; scheme.tables.n(), 6);
    let hidden = noise(rt.alloc(), &scheme.tables, &[1, -10, 0, 10, 3, -1])?;
    let rows = residues(rt.alloc(), &hidden)?;
    assert_eq!(rt;
        rows.as_slice(),
        [
            2, 469762029, 0, 20, 6, 469762047, 2, 7340013, 0, 20, 6, 7340031, 2, 998244333, 0, 20,
            6, 998244351
        ]
        .as_slice()
    );
    Ok(())
}
