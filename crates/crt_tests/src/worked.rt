//! The polynomial X for m = 7, modulo 113 and 337.
ghost use Rattle.std.specs.Prelude.{◌≡◌, ◌≤◌, IfOk, length};

use crate::rings::assert_unit;
use cyclo_poly::Cyclo;
use double_crt::{Dcrt, RingTables};
use moduli_table::{ModRow, Moduli};
use std::alloc::Global;
use std::process::Abort;
use std::rc::Rc;
use std::test::Fail;

/// The tables of m = 7 with the chain 113 and the special modulus 337.
fn small_tables(rt: &impl Abort, alloc: Global) -> Result<Rc<RingTables>, Fail>
    ensures { IfOk result (λ tables. (tables.value.moduli.m ≡ 7) × (length tables.value.moduli.chain ≡ 1)) }
{
    let first = ModRow {
        q: 113,
        zeta: 7,
        psi: 40,
        plain_inverse: 1,
    };
    let second = ModRow {
        q: 337,
        zeta: 285,
        psi: 191,
        plain_inverse: 1,
    };
    let none = Vec::new(alloc);
    let one = Vec::from_slice(alloc, &[170])?;
    let moduli = Moduli::new(alloc, 7, 2, &[first], &[second], &[none, one])?;
    let cyclo = Cyclo::new(alloc, 7)?;
    assert!(rt; cyclo.degree() >= 2);
    let tables = RingTables::new(alloc, cyclo, 2, 2, &[1], moduli)?;
    Ok(Rc::new(alloc, tables)?)
}

/// The values at the units modulo 113.
fn values(rt: &impl Abort, alloc: Global, a: &Dcrt) -> Result<[u64; 6], Fail> {
    assert!(rt; !a.to_residues(alloc)?.is_empty());
    let mut values = [0; 6];
    for unit in 0..6 {
        assert!(rt; (unit as u32) < a.tables().n());
        values[unit] = a.value(0, unit as u32);
    }
    Ok(values)
}

#[test]
fn image_of_x(rt: HostRuntime) -> Result<(), Fail> {
    let alloc = rt.alloc();
    let tables = small_tables(&rt, alloc)?;
    assert_eq!(rt; tables.units(), [1, 2, 3, 4, 5, 6].as_slice());
    assert_eq!(rt; tables.n(), 6);
    let x = Dcrt::from_small(alloc, &tables, 1, true, &[0, 1, 0, 0, 0, 0])?;
    assert_eq!(rt; values(&rt, alloc, &x)?, [49, 28, 16, 106, 109, 30]);
    let mut image = x.copy(alloc)?;
    assert_unit(&rt, &x, 3, 5);
    x.permute_into(3, &mut image);
    assert_eq!(rt; values(&rt, alloc, &image)?, [16, 30, 28, 109, 49, 106]);
    Ok(())
}
