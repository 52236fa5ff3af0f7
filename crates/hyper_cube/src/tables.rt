//! The checks of a torus, and the lists that a cube keeps.
ghost use Rattle.std.specs.Prelude.{◌≡◌, ℕ, suc, ◌+◌, ◌*◌, ◌/◌, ◌%◌, ◌^◌, ◌<◌, ◌≤◌, ◌≢◌, ◌↔◌, All, Err, IfErr, IfOk, IfSome, IfNone, IsTrue, length, drop, map, get_or};
ghost use Rattle.algebra.specs.Divisor.{number_of_units};
ghost use Rattle.mod_ring.specs.Zq.{modulus_of};
ghost use Rattle.hyper_cube.specs.Torus.{count, index, generated};
ghost use Rattle.hyper_cube.specs.Checks.{dimensions_of};
ghost use Rattle.hyper_cube.specs.Tables.{ArePowersOf, AreElements, AreStrides, IsListed, wrapped_pair, product_at, IsTable, IsRepeatFault};
ghost use Rattle.hyper_cube.specs.Axes.{dimensions_held, strides_held};
ghost use Rattle.hyper_cube.specs.declared.faults.CubeFault.TheVariants.{Memory};

use crate::faults::CubeFault;
use crate::unit_list::unit_count;
use mod_ring::Zq;
use std::alloc::{AllocError, Global};

/// One dimension: its generator, its size, and how many indices the later dimensions have.
#[derive(Clone, Copy)]
pub(crate) struct Axis {
    pub(crate) generator: u32,
    pub(crate) size: u32,
    pub(crate) stride: u32,
}

impl Axis {
    /// The place of a slot along this dimension.
    pub(crate) fn place_of(&self, slot: u32) -> u32
        requires stride { 0 < self.now.stride }
        requires size { 0 < self.now.size }
        ensures { result ≡ slot / self.now.stride % self.now.size }
    {
        slot / self.stride % self.size
    }
}

/// The residues modulo m.
pub(crate) fn residues(m: u32) -> Zq
    requires { 2 ≤ m }
    ensures { modulus_of result ≡ m }
{
    Zq::new(m as u64).unwrap()
}

/// A power of a number modulo m.
pub(crate) fn power(ring: &Zq, base: u32, exponent: u32) -> u32
    requires { modulus_of ring.now ≤ 65536 }
    ensures { result ≡ base ^ exponent % modulus_of ring.now }
{
    let base = base as u64 % ring.modulus();
    ring.power_word(base, exponent as u64) as u32
}

/// The powers of p modulo m with exponents below d.
pub(crate) fn powers(alloc: Global, ring: &Zq, p: u32, d: u32) -> Result<Vec<u32>, AllocError>
    requires { modulus_of ring.now ≤ 65536 }
    ensures { IfOk result (λ list. ArePowersOf (modulus_of ring.now) p d list.items) }
{
    let mut list = Vec::new(alloc);
    for u in 0..d {
        let power = power(ring, p, u);
        list.push(power)?;
    }
    Ok(list)
}

/// Whether a number stands in a list.
fn is_listed(list: &[u32], number: u32) -> bool
    ensures { IsTrue result ↔ IsListed list.now number }
{
    list.contains(&number)
}

/// The first pair of generator and size whose wrapped power is none of these powers, if there is one.
pub(crate) fn unpowered(ring: &Zq, powers: &[u32], gens: &[(u32, u32)]) -> Option<u32>
    requires high { modulus_of ring.now ≤ 65536 }
    requires few { length gens.now ≤ 16 }
    ensures within { IfSome result (λ i. i < length gens.now) }
    ensures fails { IfSome result (λ i. IsListed powers.now (wrapped_pair (modulus_of ring.now) gens.now i) → ⊥) }
    ensures before { IfSome result (λ i. (k : ℕ) → k < i → IsListed powers.now (wrapped_pair (modulus_of ring.now) gens.now k)) }
    ensures none { IfNone result ((k : ℕ) → k < length gens.now → IsListed powers.now (wrapped_pair (modulus_of ring.now) gens.now k)) }
{
    for (i, (generator, size)) in gens.iter().enumerate() {
        let wrapped = power(ring, *generator, *size);
        if !is_listed(powers, wrapped) {
            return Some(i as u32);
        }
    }
    None
}

/// The number of slots, if d times that is the number of units modulo m.
pub(crate) fn counted_slots(m: u32, d: u32, gens: &[(u32, u32)]) -> Option<u32>
    requires m_high { m ≤ 65536 }
    requires d_low { 1 ≤ d }
    requires d_high { d ≤ 64 }
    requires sizes { All (λ pair. (1 ≤ pair.1) × (pair.1 ≤ 65536)) gens.now }
    ensures some { IfSome result (λ n. n ≡ count (dimensions_of gens.now)) }
    ensures counted { IfSome result (λ n. d * count (dimensions_of gens.now) ≡ number_of_units m) }
    ensures none { IfNone result (d * count (dimensions_of gens.now) ≢ number_of_units m) }
{
    let units = unit_count(m) as u64;
    let mut slots: u64 = 1;
    for i in (0..gens.len()).rev() {
        slots *= gens[i].1 as u64;
        if slots > units {
            return None;
        }
    }
    if d as u64 * slots == units {
        Some(slots as u32)
    } else {
        None
    }
}

/// How many indices there are.
fn slots_of(gens: &[(u32, u32)]) -> u32
    requires sizes { All (λ pair. 1 ≤ pair.1) gens.now }
    requires few { count (dimensions_of gens.now) ≤ 65536 }
    ensures { result ≡ count (dimensions_of gens.now) }
{
    let mut slots = 1;
    for i in (0..gens.len()).rev() {
        slots *= gens[i].1;
    }
    slots
}

/// T(e) for the index e with this number.
fn element(ring: &Zq, gens: &[(u32, u32)], slot: u32) -> u32
    requires high { modulus_of ring.now ≤ 65536 }
    requires sizes { All (λ pair. 1 ≤ pair.1) gens.now }
    requires few { count (dimensions_of gens.now) ≤ 65536 }
    ensures { result ≡ generated (dimensions_of gens.now) (index (dimensions_of gens.now) slot) % modulus_of ring.now }
{
    let mut product = 1;
    let mut stride = 1;
    for i in (0..gens.len()).rev() {
        let (generator, size) = gens[i];
        let power = power(ring, generator, slot / stride % size);
        product = ring.mul_word(product, power as u64);
        stride *= size;
    }
    product as u32
}

/// T(e) for each index e, by their numbers.
pub(crate) fn elements(
    alloc: Global,
    ring: &Zq,
    gens: &[(u32, u32)],
    slots: u32,
) -> Result<Vec<u32>, AllocError>
    requires high { modulus_of ring.now ≤ 65536 }
    requires sizes { All (λ pair. 1 ≤ pair.1) gens.now }
    requires few { count (dimensions_of gens.now) ≤ 65536 }
    requires slots { slots ≡ count (dimensions_of gens.now) }
    ensures { IfOk result (λ list. AreElements (modulus_of ring.now) (dimensions_of gens.now) list.items) }
{
    let mut list = Vec::new(alloc);
    for slot in 0..slots {
        let element = element(ring, gens, slot);
        list.push(element)?;
    }
    Ok(list)
}

/// The dimensions.
pub(crate) fn axes(alloc: Global, gens: &[(u32, u32)]) -> Result<Vec<Axis>, AllocError>
    requires sizes { All (λ pair. 1 ≤ pair.1) gens.now }
    requires few { count (dimensions_of gens.now) ≤ 65536 }
    ensures dimensions { IfOk result (λ axes. dimensions_held axes.items ≡ dimensions_of gens.now) }
    ensures strides { IfOk result (λ axes. AreStrides (dimensions_of gens.now) (strides_held axes.items)) }
{
    let mut axes = Vec::new(alloc);
    for (i, (generator, size)) in gens.iter().enumerate() {
        let stride = slots_of(&gens[i + 1..]);
        axes.push(Axis {
            generator: *generator,
            size: *size,
            stride,
        })?;
    }
    Ok(axes)
}

/// For each residue modulo m the place at which it is the product of an element and a power of p, if each product stands
/// at one place.
pub(crate) fn places(
    alloc: Global,
    ring: &Zq,
    elements: &[u32],
    powers: &[u32],
) -> Result<Vec<u32>, CubeFault>
    requires high { modulus_of ring.now ≤ 65536 }
    requires elements { All (λ x. x < modulus_of ring.now) elements.now }
    requires powers { All (λ x. x < modulus_of ring.now) powers.now }
    requires some { 0 < length powers.now }
    requires few { length elements.now * length powers.now ≤ 65536 }
    ensures table { IfOk result (λ table. IsTable (product_at (modulus_of ring.now) elements.now powers.now)
        (length elements.now * length powers.now) (modulus_of ring.now) table.items) }
    ensures repeat { IfErr result (λ e. e ≢ Memory → IsRepeatFault (product_at (modulus_of ring.now) elements.now powers.now)
        (length elements.now * length powers.now) e) }
{
    let count = elements.len() * powers.len();
    let mut table = vec![in alloc; count as u32; ring.modulus() as usize]?;
    for place in 0..count {
        let element = elements[place / powers.len()];
        let power = powers[place % powers.len()];
        let value = ring.mul_word(element as u64, power as u64) as usize;
        let earlier = table[value];
        if (earlier as usize) < count {
            return Err(CubeFault::NotDistinct(earlier, place as u32));
        }
        table[value] = place as u32;
    }
    Ok(table)
}
