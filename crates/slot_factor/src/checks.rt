//! The checks of a table.
ghost use Rattle.std.specs.Prelude.{◌≡◌, ◌+◌, ◌<◌, ◌≤◌, ◌↔◌, ◌^◌, All, IfOk, IsTrue, length, map, pos};
ghost use Rattle.mod_ring.specs.Zq.{modulus_of};
ghost use Rattle.hyper_cube.specs.Torus.{slot_count, T_of, index};
ghost use Rattle.hyper_cube.specs.Tables.{IsFilled};
ghost use Rattle.ext_field.specs.Element.{IsExtension, IsElement, eta, degree};
ghost use Rattle.slot_laws.specs.Slots.{inverse_modulo, eps};
ghost use Rattle.slot_laws.specs.Checks.{IsPhiFactor, residue_row, is_phi_factor, is_idempotent_at, bad_slot, is_annihilated, is_complete};
ghost use Rattle.slot_factor.specs.Tables.{ArePowers};

use crate::idempotents::{multiplied, substituted, total};
use crate::powers::{numbers, value};
use crate::rows::residues_of;
use cyclo_poly::Cyclo;
use ext_field::{Ext, ExtElem};
use hyper_cube::Cube;
use mod_ring::{Ring, Zq, horner};
use std::alloc::{AllocError, Global};

/// Whether `Phi_m(eta)` is 0.
pub(crate) fn is_phi_factor(
    alloc: Global,
    cyclo: &Cyclo,
    cube: &Cube,
    zq: &Zq,
    ext: &Ext,
    root: &ExtElem,
) -> Result<bool, AllocError>
    requires valid { IsExtension ext.now }
    requires same_m { cyclo.now ≡ cube.now.m }
    requires same_q { modulus_of zq.now ≡ ext.now.p }
    requires root { root.now ≡ eta ext.now }
    requires root_in { IsElement ext.now root.now }
    ensures { IfOk result (λ r. r ≡ is_phi_factor ext.now cube.now) }
{
    let _d = cube.d();
    let residues = residues_of(alloc, zq, cyclo.phi())?;
    let numbers = numbers(alloc, zq, ext, &residues)?;
    let value = horner(alloc, ext, &numbers, root)?;
    let zero = ext.zero(alloc)?;
    let holds = ext.equal(&value, &zero);
    Ok(holds)
}

/// Whether a slot of the idempotent is right.
fn is_right(
    alloc: Global,
    cube: &Cube,
    ext: &Ext,
    powers: &[u32],
    unit: &[u64],
    slot: u32,
) -> Result<bool, AllocError>
    requires valid { IsExtension ext.now }
    requires root { IsPhiFactor ext.now cube.now }
    requires powers { ArePowers ext.now cube.now.m powers.now }
    requires unit { unit.now ≡ residue_row ext.now cube.now (eps ext.now cube.now) }
    requires few { length unit.now ≤ 65536 }
    requires slot_in { slot < slot_count cube.now }
    ensures { IfOk result (λ r. r ≡ is_idempotent_at ext.now cube.now slot) }
{
    let value = value(alloc, ext, powers, cube.m(), cube.element(slot), unit)?;
    let wanted = if slot == 0 {
        ext.one(alloc)?
    } else {
        ext.zero(alloc)?
    };
    let holds = ext.equal(&value, &wanted);
    Ok(holds)
}

/// The least slot of the idempotent that is wrong, or the number of slots.
pub(crate) fn bad_slot(
    alloc: Global,
    cube: &Cube,
    ext: &Ext,
    powers: &[u32],
    unit: &[u64],
) -> Result<u32, AllocError>
    requires valid { IsExtension ext.now }
    requires root { IsPhiFactor ext.now cube.now }
    requires powers { ArePowers ext.now cube.now.m powers.now }
    requires unit { unit.now ≡ residue_row ext.now cube.now (eps ext.now cube.now) }
    requires few { length unit.now ≤ 65536 }
    ensures { IfOk result (λ r. r ≡ bad_slot ext.now cube.now) }
{
    let count = cube.slot_count();
    for slot in 0..count {
        if !is_right(alloc, cube, ext, powers, unit, slot)? {
            return Ok(slot);
        }
    }
    Ok(count)
}

/// Whether two rows are equal.
fn is_same(a: &[u64], b: &[u64]) -> bool
    ensures { IsTrue result ↔ (a.now ≡ b.now) }
{
    a == b
}

/// Whether the idempotent times G is 0.
pub(crate) fn is_annihilated(
    alloc: Global,
    cyclo: &Cyclo,
    cube: &Cube,
    zq: &Zq,
    ext: &Ext,
    unit: &[u64],
) -> Result<bool, AllocError>
    requires same_m { cyclo.now ≡ cube.now.m }
    requires same_q { modulus_of zq.now ≡ ext.now.p }
    requires unit { unit.now ≡ residue_row ext.now cube.now (eps ext.now cube.now) }
    requires some { 0 < length unit.now }
    requires few { length unit.now ≤ 65536 }
    ensures { IfOk result (λ r. r ≡ is_annihilated ext.now cube.now) }
{
    let _m = cube.m();
    let product = multiplied(alloc, cyclo, zq, unit, ext.factor())?;
    let zero = substituted(alloc, cyclo, zq, 1, &[])?;
    Ok(is_same(&product, &zero))
}

/// Whether the images of the idempotent sum to 1.
pub(crate) fn is_complete(
    alloc: Global,
    cyclo: &Cyclo,
    cube: &Cube,
    zq: &Zq,
    ext: &Ext,
    inverses: &[u32],
    unit: &[u64],
) -> Result<bool, AllocError>
    requires same_m { cyclo.now ≡ cube.now.m }
    requires same_q { modulus_of zq.now ≡ ext.now.p }
    requires inverses { IsFilled (λ j. inverse_modulo cube.now.m (T_of cube.now (index cube.now.dimensions j)))
        (slot_count cube.now) inverses.now }
    requires unit { unit.now ≡ residue_row ext.now cube.now (eps ext.now cube.now) }
    requires few { length unit.now ≤ 65536 }
    ensures { IfOk result (λ r. r ≡ is_complete ext.now cube.now) }
{
    let total = total(alloc, cyclo, cube, zq, ext, inverses, unit)?;
    let one = substituted(alloc, cyclo, zq, 1, &[1])?;
    Ok(is_same(&total, &one))
}
