//! The cube: a torus that passes the checks, with tables.
ghost use Rattle.std.specs.Prelude.{◌≡◌, ◌≢◌, ℕ, ◌+◌, ◌*◌, ◌%◌, ◌<◌, ◌≤◌, IfOk, IfErr, None, Some, length, get_or, set};
ghost use Rattle.algebra.specs.Divisor.{UnitModulo};
ghost use Rattle.hyper_cube.specs.Torus.{slot_count, place, index, T_of, dimension, size, is_good, IsLocated, located};
ghost use Rattle.hyper_cube.specs.Checks.{IsShape, IsCube, first_fault, dimension_count};
ghost use Rattle.hyper_cube.specs.Tables.{torus};
ghost use Rattle.hyper_cube.specs.declared.faults.CubeFault.TheVariants.{Memory};

use crate::faults::CubeFault;
use crate::tables::{self, Axis};
use mod_ring::Zq;
use std::alloc::Global;
use std::marker::Model;

/// A torus of indices whose products `T(e) * p^u` are the units modulo m, each once. Contracts see it as m, p, d and the
/// dimensions.
///
/// Index numbers are row-major, the last dimension fastest. With m = 7, p = 2, d = 3 and one generator 3 of size 2 there
/// are 2 slots: the units are 1, 2, 4 at slot 0 and 3, 6, 5 at slot 1.
#[derive(Drop)]
pub struct Cube {
    ring: Zq,
    p: u32,
    d: u32,
    axes: Vec<Axis>,
    // T(e) for each slot
    elements: Vec<u32>,
    // for each unit modulo m its slot times d plus its power of p
    places: Vec<u32>,
}

impl Model for Cube {
    ghost use Rattle.hyper_cube.specs.Torus.{Torus};

    ghost Value = { Torus };

    ghost use Rattle.hyper_cube.specs.Kept.{torus_of, AreTables};

    ghost view = { torus_of };

    ghost invariant = { AreTables };
}

impl Cube {
    /// The cube of m from 3 to 65536, p from 2 to 131071, d from 1 to 64, and at most 16 pairs of a generator from 1 to
    /// m - 1 and a size from 1 to m.
    ///
    /// A fault is the first of these that is so: `p^d` is not 1 modulo m; a power `g^D` is no power of p; d times the
    /// product of the sizes is not the number of units; two products are equal.
    pub fn new(
        alloc: Global,
        m: u32,
        p: u32,
        d: u32,
        gens: &[(u32, u32)],
    ) -> Result<Cube, CubeFault>
        requires { IsShape (torus m p d gens.now) }
        ensures value { IfOk result (λ c. c ≡ torus m p d gens.now) }
        ensures valid { IfOk result IsCube }
        ensures passed { IfOk result (λ _. first_fault (torus m p d gens.now) ≡ None) }
        ensures refused { IfErr result (λ e. e ≢ Memory → first_fault (torus m p d gens.now) ≡ Some e) }
    {
        let ring = tables::residues(m);
        if tables::power(&ring, p, d) != 1 {
            return Err(CubeFault::NotOrder);
        }
        let powers = tables::powers(alloc, &ring, p, d)?;
        if let Some(i) = tables::unpowered(&ring, &powers, gens) {
            return Err(CubeFault::NotPower(i));
        }
        let Some(slots) = tables::counted_slots(m, d, gens) else {
            return Err(CubeFault::WrongCount);
        };
        let elements = tables::elements(alloc, &ring, gens, slots)?;
        let places = tables::places(alloc, &ring, &elements, &powers)?;
        let axes = tables::axes(alloc, gens)?;
        Ok(Cube {
            ring,
            p,
            d,
            axes,
            elements,
            places,
        })
    }

    /// The modulus m.
    pub fn m(&self) -> u32
        ensures value { result ≡ self.now.m }
        ensures valid { IsCube self.now }
    {
        self.ring.modulus() as u32
    }

    /// The number p.
    pub fn p(&self) -> u32
        ensures value { result ≡ self.now.p }
        ensures valid { IsCube self.now }
    {
        self.p
    }

    /// The order d of p modulo m.
    pub fn d(&self) -> u32
        ensures value { result ≡ self.now.d }
        ensures valid { IsCube self.now }
    {
        self.d
    }

    /// The number of slots.
    pub fn slot_count(&self) -> u32
        ensures value { result ≡ slot_count self.now }
        ensures valid { IsCube self.now }
    {
        self.elements.len() as u32
    }

    /// The number of dimensions.
    pub fn dims(&self) -> u32
        ensures value { result ≡ dimension_count self.now }
        ensures valid { IsCube self.now }
    {
        self.axes.len() as u32
    }

    /// The generator of a dimension.
    pub fn generator(&self, i: u32) -> u32
        requires { i < dimension_count self.now }
        ensures { result ≡ (dimension self.now i).generator }
    {
        self.axes[i as usize].generator
    }

    /// The size of a dimension.
    pub fn size(&self, i: u32) -> u32
        requires { i < dimension_count self.now }
        ensures { result ≡ size self.now i }
    {
        self.axes[i as usize].size
    }

    /// Whether the generator of a dimension, to the power of its size, is 1 modulo m.
    pub fn is_good(&self, i: u32) -> bool
        requires { i < dimension_count self.now }
        ensures { result ≡ is_good self.now i }
    {
        let axis = self.axes[i as usize];
        tables::power(&self.ring, axis.generator, axis.size) == 1
    }

    /// Place i of the index of a slot.
    pub fn coordinate(&self, slot: u32, i: u32) -> u32
        requires slot { slot < slot_count self.now }
        requires i { i < dimension_count self.now }
        ensures value { result ≡ get_or (index self.now.dimensions slot) i 0 }
        ensures below { result < size self.now i }
    {
        self.axes[i as usize].place_of(slot)
    }

    /// The slot whose index is that of a slot with `to` at place i.
    pub fn moved(&self, slot: u32, i: u32, to: u32) -> u32
        requires slot { slot < slot_count self.now }
        requires i { i < dimension_count self.now }
        requires to { to < size self.now i }
        ensures value { result ≡ place self.now.dimensions (set (index self.now.dimensions slot) i to) }
        ensures below { result < slot_count self.now }
    {
        let axis = self.axes[i as usize];
        slot - axis.place_of(slot) * axis.stride + to * axis.stride
    }

    /// T(e) for the index e of a slot.
    pub fn element(&self, slot: u32) -> u32
        requires { slot < slot_count self.now }
        ensures value { result ≡ T_of self.now (index self.now.dimensions slot) }
        ensures unit { UnitModulo self.now.m result }
    {
        self.elements[slot as usize]
    }

    /// The slot e and the number u below d with `k = T(e) * p^u` modulo m, for a unit k below m.
    pub fn locate(&self, k: u32) -> (u32, u32)
        requires low { k < self.now.m }
        requires unit { UnitModulo self.now.m k }
        ensures slot { result.0 < slot_count self.now }
        ensures power { result.1 < self.now.d }
        ensures place { result.0 * self.now.d + result.1 ≡ located self.now k }
        ensures located { IsLocated self.now k (index self.now.dimensions result.0) result.1 }
    {
        let place = self.places[k as usize];
        (place / self.d, place % self.d)
    }
}
