//! The slots of a polynomial.
ghost use Rattle.std.specs.Prelude.{◌≡◌, ◌≤◌, IfOk, length};
ghost use Rattle.mod_ring.specs.Zq.{modulus_of};
ghost use Rattle.slot_array.specs.Arrays.{IsArray};
ghost use Rattle.slot_laws.specs.Slots.{slots};
ghost use Rattle.slot_laws.specs.Checks.{IsPacking};
ghost use Rattle.slot_factor.specs.Tables.{ArePowers};

use crate::powers::value;
use crate::rows::residues_of;
use ext_field::Ext;
use hyper_cube::Cube;
use mod_ring::Zq;
use slot_array::SlotArray;
use std::alloc::{AllocError, Global};

/// The slots of a polynomial, from the table of powers.
pub(crate) fn decode(
    alloc: Global,
    zq: &Zq,
    cube: &Cube,
    ext: &Ext,
    powers: &[u32],
    a: &[i64],
) -> Result<SlotArray, AllocError>
    requires packing { IsPacking ext.now cube.now }
    requires same_q { modulus_of zq.now ≡ ext.now.p }
    requires powers { ArePowers ext.now cube.now.m powers.now }
    requires few { length a.now ≤ 65536 }
    ensures value { IfOk result (λ x. x ≡ slots ext.now cube.now a.now) }
    ensures array { IfOk result (λ x. IsArray ext.now cube.now x) }
{
    let residues = residues_of(alloc, zq, a)?;
    let m = cube.m();
    let mut elems = Vec::new(alloc);
    for slot in 0..cube.slot_count() {
        let elem = value(alloc, ext, powers, m, cube.element(slot), &residues)?;
        elems.push(elem)?;
    }
    Ok(SlotArray { elems })
}
