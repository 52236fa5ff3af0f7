//! The checks in their order, with the tables that they are made by.
ghost use Rattle.std.specs.Prelude.{◌≡◌, ◌≢◌, ◌<◌, ◌≤◌, true, All, List, ℕ, None, Some, IfOk, IfErr, length, map};
ghost use Rattle.mod_ring.specs.Zq.{modulus_of};
ghost use Rattle.hyper_cube.specs.Torus.{slot_count, T_of, index};
ghost use Rattle.hyper_cube.specs.Tables.{IsFilled};
ghost use Rattle.ext_field.specs.Checks.{dual_fault};
ghost use Rattle.ext_field.specs.Element.{degree, IsElement, IsExtension};
ghost use Rattle.slot_laws.specs.Slots.{eps, inverse_modulo};
ghost use Rattle.slot_laws.specs.Checks.{bad_slot, is_annihilated, is_complete, is_phi_factor, residue_row};
ghost use Rattle.slot_factor.specs.Checks.{first_fault};
ghost use Rattle.slot_factor.specs.Tables.{ArePowers};
ghost use Rattle.slot_factor.specs.declared.faults.SlotFault.TheVariants.{Memory};

use crate::checks;
use crate::faults::SlotFault;
use crate::idempotents::{idempotent, inverses};
use crate::powers::{powers, root};
use cyclo_poly::Cyclo;
use ext_field::{Ext, ExtElem};
use hyper_cube::Cube;
use mod_ring::Zq;
use std::alloc::Global;

/// The table of the powers of eta, where `Phi_m(eta)` is 0.
pub(crate) fn checked_powers(
    alloc: Global,
    cyclo: &Cyclo,
    cube: &Cube,
    zq: &Zq,
    ext: &Ext,
) -> Result<Vec<u32>, SlotFault>
    requires valid { IsExtension ext.now }
    requires same_m { cyclo.now ≡ cube.now.m }
    requires same_q { modulus_of zq.now ≡ ext.now.p }
    ensures powers { IfOk result (λ r. ArePowers ext.now cube.now.m r.items) }
    ensures divides { IfOk result (λ _. is_phi_factor ext.now cube.now ≡ true) }
    ensures refused { IfErr result (λ e. e ≢ Memory → (dual : List (List ℕ)) → first_fault (record { field = ext.now; cube = cube.now; dual = dual }) ≡ Some e) }
{
    let root = root(alloc, zq, ext)?;
    if !checks::is_phi_factor(alloc, cyclo, cube, zq, ext, &root)? {
        return Err(SlotFault::NotDivisor);
    }
    let powers = powers(alloc, ext, &root, cube.m())?;
    Ok(powers)
}

/// The idempotent of slot 0, where it is one.
pub(crate) fn checked_idempotent(
    alloc: Global,
    cyclo: &Cyclo,
    cube: &Cube,
    zq: &Zq,
    ext: &Ext,
    powers: &[u32],
) -> Result<Vec<u64>, SlotFault>
    requires valid { IsExtension ext.now }
    requires same_m { cyclo.now ≡ cube.now.m }
    requires same_q { modulus_of zq.now ≡ ext.now.p }
    requires powers { ArePowers ext.now cube.now.m powers.now }
    requires divides { is_phi_factor ext.now cube.now ≡ true }
    ensures unit { IfOk result (λ r. r.items ≡ residue_row ext.now cube.now (eps ext.now cube.now)) }
    ensures few { IfOk result (λ r. length r.items ≤ 65536) }
    ensures some { IfOk result (λ r. 0 < length r.items) }
    ensures slots { IfOk result (λ _. slot_count cube.now ≤ bad_slot ext.now cube.now) }
    ensures annihilated { IfOk result (λ _. is_annihilated ext.now cube.now ≡ true) }
    ensures refused { IfErr result (λ e. e ≢ Memory → (dual : List (List ℕ)) → first_fault (record { field = ext.now; cube = cube.now; dual = dual }) ≡ Some e) }
{
    let _m = cube.m();
    let unit = idempotent(alloc, cyclo, cube, zq, ext, powers)?;
    let bad = checks::bad_slot(alloc, cube, ext, powers, &unit)?;
    if bad < cube.slot_count() {
        return Err(SlotFault::Idempotent(bad));
    }
    if !checks::is_annihilated(alloc, cyclo, cube, zq, ext, &unit)? {
        return Err(SlotFault::NotAnnihilated);
    }
    Ok(unit)
}

/// The inverse of T(e) modulo m for each slot e, where the images of the idempotent sum to 1 and the basis is dual.
pub(crate) fn checked_inverses(
    alloc: Global,
    cyclo: &Cyclo,
    cube: &Cube,
    zq: &Zq,
    ext: &Ext,
    unit: &[u64],
    dual: &[ExtElem],
) -> Result<Vec<u32>, SlotFault>
    requires valid { IsExtension ext.now }
    requires same_m { cyclo.now ≡ cube.now.m }
    requires same_q { modulus_of zq.now ≡ ext.now.p }
    requires unit { unit.now ≡ residue_row ext.now cube.now (eps ext.now cube.now) }
    requires few { length unit.now ≤ 65536 }
    requires divides { is_phi_factor ext.now cube.now ≡ true }
    requires slots { slot_count cube.now ≤ bad_slot ext.now cube.now }
    requires annihilated { is_annihilated ext.now cube.now ≡ true }
    requires dual_long { length dual.now ≡ degree ext.now }
    requires dual_held { All (λ a. IsElement ext.now a) dual.now }
    ensures inverses { IfOk result (λ r. IsFilled (λ j. inverse_modulo cube.now.m (T_of cube.now (index cube.now.dimensions j)))
        (slot_count cube.now) r.items) }
    ensures complete { IfOk result (λ _. is_complete ext.now cube.now ≡ true) }
    ensures dual { IfOk result (λ _. dual_fault ext.now dual.now ≡ None) }
    ensures refused { IfErr result (λ e. e ≢ Memory → first_fault (record { field = ext.now; cube = cube.now; dual = map (λ a. a) dual.now }) ≡ Some e) }
{
    let inverses = inverses(alloc, cube)?;
    if !checks::is_complete(alloc, cyclo, cube, zq, ext, &inverses, unit)? {
        return Err(SlotFault::NotComplete);
    }
    if let Some((i, k)) = ext.is_dual(alloc, dual)? {
        return Err(SlotFault::Dual(i, k));
    }
    Ok(inverses)
}
