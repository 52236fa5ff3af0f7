//! The slots of a table that has passed its checks.
ghost use Rattle.std.specs.Prelude.{◌≡◌, ◌≢◌, ◌<◌, ◌≤◌, All, None, Some, IfOk, IfErr, length, map};
ghost use Rattle.ext_field.specs.Element.{degree, IsElement};
ghost use Rattle.mod_ring.specs.Zq.{modulus_of};
ghost use Rattle.slot_factor.specs.Checks.{first_fault};
ghost use Rattle.slot_factor.specs.declared.faults.SlotFault.TheVariants.{Memory};
ghost use Rattle.slot_laws.specs.Checks.{IsPacking};

use crate::faults::SlotFault;
use crate::passing::{checked_idempotent, checked_inverses, checked_powers};
use cyclo_poly::Cyclo;
use ext_field::{Ext, ExtElem};
use hyper_cube::Cube;
use mod_ring::Zq;
use std::alloc::Global;
use std::marker::Model;

/// The slots of the polynomials modulo Phi_m and p: their indices, the extension that their elements are of, and its dual
/// basis, of a table that has passed its checks. Contracts see these three.
#[derive(Drop)]
pub struct Slots {
    pub(crate) cube: Cube,
    pub(crate) ext: Ext,
    dual: Vec<ExtElem>,
    pub(crate) cyclo: Cyclo,
    pub(crate) zq: Zq,
    // the remainders of the powers of X below m by G, one after the other
    pub(crate) powers: Vec<u32>,
    // the idempotent of slot 0
    pub(crate) unit: Vec<u64>,
    // the inverse of T(e) modulo m for each slot e
    pub(crate) inverses: Vec<u32>,
}

impl Model for Slots {
    ghost use Rattle.slot_factor.specs.Packing.{Packing};
    ghost use Rattle.slot_factor.specs.Kept.{packing_of, IsKept};

    ghost Value = { Packing };

    ghost view = { packing_of };

    ghost invariant = { IsKept };
}

impl Slots {
    /// The slots of a table: its extension, its cube, and d elements of the extension, the dual basis.
    ///
    /// A fault is the first of these that is so: `Phi_m(eta)` is not 0; a slot of the idempotent is not 1 for slot 0, or
    /// not 0 for another, the least such slot being named; the idempotent times G is not 0; the images of the idempotent
    /// do not sum to 1; the trace of a dual element times a power of eta is not as in a dual basis, at the named place.
    pub fn new(
        alloc: Global,
        cyclo: &Cyclo,
        cube: Cube,
        ext: Ext,
        dual: Vec<ExtElem>,
    ) -> Result<Slots, SlotFault>
        requires same_m { cyclo.now ≡ cube.m }
        requires same_p { ext.p ≡ cube.p }
        requires same_d { degree ext ≡ cube.d }
        requires dual_long { length dual.items ≡ degree ext }
        requires dual_held { All (λ a. IsElement ext a) dual.items }
        ensures value { IfOk result (λ s. s ≡ record { field = ext; cube = cube; dual = map (λ a. a) dual.items }) }
        ensures passed { IfOk result (λ s. first_fault s ≡ None) }
        ensures valid { IfOk result (λ s. IsPacking s.field s.cube) }
        ensures refused { IfErr result (λ e. e ≢ Memory → first_fault (record { field = ext; cube = cube; dual = map (λ a. a) dual.items }) ≡ Some e) }
    {
        let _m = cube.m();
        let _p = ext.p();
        let zq = ring_of(&ext);
        let powers = checked_powers(alloc, cyclo, &cube, &zq, &ext)?;
        let unit = checked_idempotent(alloc, cyclo, &cube, &zq, &ext, &powers)?;
        let inverses = checked_inverses(alloc, cyclo, &cube, &zq, &ext, &unit, &dual)?;
        let cyclo = cyclo.copy(alloc)?;
        Ok(Slots {
            cube,
            ext,
            dual,
            cyclo,
            zq,
            powers,
            unit,
            inverses,
        })
    }

    /// The cube of the indices.
    pub fn cube(&self) -> &Cube
        ensures value { result.now ≡ self.now.cube }
        ensures valid { IsPacking self.now.field self.now.cube }
    {
        &self.cube
    }

    /// The extension that the slots' elements are of.
    pub fn ext(&self) -> &Ext
        ensures value { result.now ≡ self.now.field }
        ensures valid { IsPacking self.now.field self.now.cube }
    {
        &self.ext
    }

    /// The dual basis of 1, X, .., `X^(d - 1)`.
    pub fn dual(&self) -> &[ExtElem]
        ensures value { map (λ a. a) result.now ≡ self.now.dual }
        ensures valid { IsPacking self.now.field self.now.cube }
    {
        &self.dual
    }
}

/// The residues modulo p.
fn ring_of(ext: &Ext) -> Zq
    ensures { modulus_of result ≡ ext.now.p }
{
    Zq::new(ext.p()).unwrap()
}
