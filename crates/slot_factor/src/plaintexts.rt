//! Encoding and decoding, and the operations on plaintexts.
ghost use Rattle.std.specs.Prelude.{◌≡◌, ◌≤◌, ◌<◌, IfOk, length};
ghost use Rattle.algebra.specs.Divisor.{UnitModulo};
ghost use Rattle.algebra.specs.Power.{less};
ghost use Rattle.cyclotomic.specs.Cyclotomic.{R, degree, substituted};
ghost use Rattle.slot_array.specs.Arrays.{IsArray};
ghost use Rattle.slot_laws.specs.Slots.{balanced_row, encode, slots};

use crate::slots::Slots;
use crate::{decoding, encoding, packed};
use cyclo_poly::Cyclo;
use slot_array::SlotArray;
use std::alloc::{AllocError, Global};

impl Slots {
    /// The n balanced residues modulo p of the one polynomial modulo Phi_m and p that has these slots.
    ///
    /// With m = 7, p = 2, `1 + X + X^3` and two slots, those of 1, 0 are 1, 1, 1, 0, 1, 0.
    pub fn encode(&self, alloc: Global, x: &SlotArray) -> Result<Vec<i64>, AllocError>
        requires { IsArray self.now.field self.now.cube x.now }
        ensures value { IfOk result (λ a. a.items ≡ encode self.now.field self.now.cube x.now) }
    {
        encoding::encode(
            alloc,
            &self.cyclo,
            &self.zq,
            &self.cube,
            &self.ext,
            &self.inverses,
            &self.unit,
            x.elems.as_slice(),
        )
    }

    /// The slots of a polynomial of n whole coefficients: slot e is its value at `eta^T(e)`.
    pub fn decode(&self, alloc: Global, a: &[i64]) -> Result<SlotArray, AllocError>
        requires { length a.now ≡ degree self.now.cube.m }
        ensures value { IfOk result (λ x. x ≡ slots self.now.field self.now.cube a.now) }
        ensures array { IfOk result (λ x. IsArray self.now.field self.now.cube x) }
    {
        let _n = self.cyclo.degree();
        let _m = self.cyclo.m();
        decoding::decode(alloc, &self.zq, &self.cube, &self.ext, &self.powers, a)
    }

    /// The balanced residues modulo p of the sum of two plaintexts.
    pub fn add_packed(&self, alloc: Global, a: &[i64], b: &[i64]) -> Result<Vec<i64>, AllocError>
        requires a_long { length a.now ≡ degree self.now.cube.m }
        requires a_own { balanced_row self.now.field.p a.now ≡ a.now }
        requires b_long { length b.now ≡ degree self.now.cube.m }
        requires b_own { balanced_row self.now.field.p b.now ≡ b.now }
        ensures { IfOk result (λ r. r.items ≡ balanced_row self.now.field.p ((R self.now.cube.m).add a.now b.now)) }
    {
        packed::add(alloc, &self.zq, a, b, self.cyclo.m())
    }

    /// The balanced residues modulo p of the difference of two plaintexts.
    pub fn sub_packed(&self, alloc: Global, a: &[i64], b: &[i64]) -> Result<Vec<i64>, AllocError>
        requires a_long { length a.now ≡ degree self.now.cube.m }
        requires a_own { balanced_row self.now.field.p a.now ≡ a.now }
        requires b_long { length b.now ≡ degree self.now.cube.m }
        requires b_own { balanced_row self.now.field.p b.now ≡ b.now }
        ensures { IfOk result (λ r. r.items ≡ balanced_row self.now.field.p (less (R self.now.cube.m) a.now b.now)) }
    {
        packed::sub(alloc, &self.zq, a, b, self.cyclo.m())
    }

    /// The balanced residues modulo p of the negative of a plaintext.
    pub fn neg_packed(&self, alloc: Global, a: &[i64]) -> Result<Vec<i64>, AllocError>
        requires a_long { length a.now ≡ degree self.now.cube.m }
        requires a_own { balanced_row self.now.field.p a.now ≡ a.now }
        ensures { IfOk result (λ r. r.items ≡ balanced_row self.now.field.p ((R self.now.cube.m).neg a.now)) }
    {
        packed::neg(alloc, &self.zq, a, self.cyclo.m())
    }

    /// The balanced residues modulo p of the product of two plaintexts modulo Phi_m.
    pub fn mul_packed(
        &self,
        alloc: Global,
        cyclo: &Cyclo,
        a: &[i64],
        b: &[i64],
    ) -> Result<Vec<i64>, AllocError>
        requires same_m { cyclo.now ≡ self.now.cube.m }
        requires a_long { length a.now ≡ degree self.now.cube.m }
        requires a_own { balanced_row self.now.field.p a.now ≡ a.now }
        requires b_long { length b.now ≡ degree self.now.cube.m }
        requires b_own { balanced_row self.now.field.p b.now ≡ b.now }
        ensures { IfOk result (λ r. r.items ≡ balanced_row self.now.field.p ((R self.now.cube.m).mul a.now b.now)) }
    {
        let _n = cyclo.degree();
        let _m = cyclo.m();
        packed::mul(alloc, cyclo, &self.zq, a, b)
    }

    /// The balanced residues modulo p of `a(X^k)` modulo Phi_m, for a unit k modulo m.
    pub fn auto_packed(
        &self,
        alloc: Global,
        cyclo: &Cyclo,
        k: u32,
        a: &[i64],
    ) -> Result<Vec<i64>, AllocError>
        requires same_m { cyclo.now ≡ self.now.cube.m }
        requires low { 1 ≤ k }
        requires high { k < self.now.cube.m }
        requires unit { UnitModulo self.now.cube.m k }
        requires a_long { length a.now ≡ degree self.now.cube.m }
        requires a_own { balanced_row self.now.field.p a.now ≡ a.now }
        ensures { IfOk result (λ r. r.items ≡ balanced_row self.now.field.p (substituted self.now.cube.m k a.now)) }
    {
        let _n = cyclo.degree();
        let _m = cyclo.m();
        packed::auto(alloc, cyclo, &self.zq, k, a)
    }
}
