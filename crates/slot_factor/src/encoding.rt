//! The polynomial that has given slots.
ghost use Rattle.std.specs.Prelude.{◌≡◌, ◌<◌, ◌≤◌, IfOk, length};
ghost use Rattle.mod_ring.specs.Zq.{modulus_of};
ghost use Rattle.hyper_cube.specs.Torus.{slot_count, T_of, index};
ghost use Rattle.hyper_cube.specs.Tables.{IsFilled};
ghost use Rattle.slot_array.specs.Arrays.{IsArray};
ghost use Rattle.slot_laws.specs.Slots.{inverse_modulo, eps, encode};
ghost use Rattle.slot_laws.specs.Checks.{IsPacking, residue_row};

use crate::rows::{balanced_of, folded, placed_product, reduced};
use cyclo_poly::Cyclo;
use ext_field::{Ext, ExtElem};
use hyper_cube::Cube;
use mod_ring::Zq;
use std::alloc::{AllocError, Global};

/// The balanced residues of the sum over the slots e of (x_e * eps)(X^k), k the inverse of T(e) modulo m.
pub(crate) fn encode(
    alloc: Global,
    cyclo: &Cyclo,
    zq: &Zq,
    cube: &Cube,
    ext: &Ext,
    inverses: &[u32],
    unit: &[u64],
    x: &[ExtElem],
) -> Result<Vec<i64>, AllocError>
    requires packing { IsPacking ext.now cube.now }
    requires same_m { cyclo.now ≡ cube.now.m }
    requires same_q { modulus_of zq.now ≡ ext.now.p }
    requires inverses { IsFilled (λ j. inverse_modulo cube.now.m (T_of cube.now (index cube.now.dimensions j)))
        (slot_count cube.now) inverses.now }
    requires unit { unit.now ≡ residue_row ext.now cube.now (eps ext.now cube.now) }
    requires few { length unit.now ≤ 65536 }
    requires some { 0 < length unit.now }
    requires array { IsArray ext.now cube.now x.now }
    ensures { IfOk result (λ r. r.items ≡ encode ext.now cube.now x.now) }
{
    let _p = ext.p();
    let m = cyclo.m() as usize;
    let mut sums = vec![in alloc; 0; m]?;
    for e in 0..cube.slot_count() {
        let coeffs = x[e as usize].coeffs();
        sums = placed_product(zq, m, inverses[e as usize] as usize, coeffs, unit, sums);
    }
    let rest = folded(cyclo, zq, reduced(zq, sums));
    let row = balanced_of(alloc, zq, &rest)?;
    Ok(row)
}
