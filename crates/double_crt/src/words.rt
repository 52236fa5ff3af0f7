//! What is done to lists of residues modulo q, place by place.
ghost use Rattle.std.specs.Prelude.{◌≡◌, ℕ, ◌+◌, ◌-◌, ◌*◌, ◌%◌, ◌<◌, ◌≤◌, All, length, map, get_or};
ghost use Rattle.algebra.specs.Whole.{residue};
ghost use Rattle.mod_ring.specs.Zq.{modulus_of};
ghost use Rattle.residue_rows.specs.ValueLaws.{pointwise};

use mod_ring::Zq;
use mod_ring::lazy::{mul_lazy, quotient_of, reduce_once};

/// Adds other residues.
pub(crate) fn add_words(ring: &Zq, words: &mut [u64], other: &[u64])
    requires same { length other.now ≡ length words.old }
    requires words_in { All (λ c. c < modulus_of ring.now) words.old }
    requires other_in { All (λ c. c < modulus_of ring.now) other.now }
    ensures value { words.new ≡ pointwise (λ x y. (x + y) % modulus_of ring.now) words.old other.now }
    ensures below { All (λ c. c < modulus_of ring.now) words.new }
{
    for i in 0..words.len() {
        words[i] = ring.add_word(words[i], other[i]);
    }
}

/// Subtracts other residues.
pub(crate) fn sub_words(ring: &Zq, words: &mut [u64], other: &[u64])
    requires same { length other.now ≡ length words.old }
    requires words_in { All (λ c. c < modulus_of ring.now) words.old }
    requires other_in { All (λ c. c < modulus_of ring.now) other.now }
    ensures value { words.new ≡ pointwise (λ x y. (x + (modulus_of ring.now - y)) % modulus_of ring.now) words.old other.now }
    ensures below { All (λ c. c < modulus_of ring.now) words.new }
{
    for i in 0..words.len() {
        words[i] = ring.sub_word(words[i], other[i]);
    }
}

/// Multiplies by other residues.
pub(crate) fn mul_words(ring: &Zq, words: &mut [u64], other: &[u64])
    requires same { length other.now ≡ length words.old }
    requires words_in { All (λ c. c < modulus_of ring.now) words.old }
    requires other_in { All (λ c. c < modulus_of ring.now) other.now }
    ensures value { words.new ≡ pointwise (λ x y. (x * y) % modulus_of ring.now) words.old other.now }
    ensures below { All (λ c. c < modulus_of ring.now) words.new }
{
    for i in 0..words.len() {
        words[i] = ring.mul_word(words[i], other[i]);
    }
}

/// Turns residues into their negatives.
pub(crate) fn neg_words(ring: &Zq, words: &mut [u64])
    requires { All (λ c. c < modulus_of ring.now) words.old }
    ensures value { words.new ≡ map (λ x. (modulus_of ring.now - x) % modulus_of ring.now) words.old }
    ensures below { All (λ c. c < modulus_of ring.now) words.new }
{
    for i in 0..words.len() {
        words[i] = ring.neg_word(words[i]);
    }
}

/// Multiplies residues by one.
pub(crate) fn scale_words(ring: &Zq, factor: u64, words: &mut [u64])
    requires factor_in { factor < modulus_of ring.now }
    ensures value { words.new ≡ map (λ x. (factor * x) % modulus_of ring.now) words.old }
    ensures below { All (λ c. c < modulus_of ring.now) words.new }
{
    let q = ring.modulus();
    let quotient = quotient_of(factor, q);
    for i in 0..words.len() {
        words[i] = reduce_once(mul_lazy(factor, quotient, words[i], q), q);
    }
}

/// Writes the residues of whole numbers.
pub(crate) fn residues_into(ring: &Zq, from: &[i64], words: &mut [u64])
    requires { length words.old ≡ length from.now }
    ensures value { words.new ≡ map (residue (modulus_of ring.now)) from.now }
    ensures below { All (λ c. c < modulus_of ring.now) words.new }
{
    for i in 0..words.len() {
        words[i] = ring.from_signed(from[i]);
    }
}

/// The number at a place, or 0 where there is none.
fn word_or_zero(words: &[u64], place: u32) -> u64
    ensures value { result ≡ get_or words.now place 0 }
    ensures below { (q : ℕ) → 0 < q → All (λ c. c < q) words.now → result < q }
{
    let place = place as usize;
    if place < words.len() { words[place] } else { 0 }
}

/// Writes the numbers at some places.
pub(crate) fn pick_words(places: &[u32], from: &[u64], words: &mut [u64])
    requires room { length words.old ≡ length places.now }
    requires places_in { All (λ j. j < length from.now) places.now }
    ensures value { words.new ≡ map (λ j. get_or from.now j 0) places.now }
    ensures below { (q : ℕ) → All (λ c. c < q) from.now → All (λ c. c < q) words.new }
{
    for i in 0..words.len() {
        words[i] = from[places[i] as usize];
    }
}

/// Writes the numbers at some places, and 0 for each place that is not there.
pub(crate) fn spread_words(places: &[u32], from: &[u64], words: &mut [u64])
    requires { length words.old ≡ length places.now }
    ensures value { words.new ≡ map (λ j. get_or from.now j 0) places.now }
    ensures below { (q : ℕ) → 0 < q → All (λ c. c < q) from.now → All (λ c. c < q) words.new }
{
    for i in 0..words.len() {
        words[i] = word_or_zero(from, places[i]);
    }
}

/// The product of two numbers below m, modulo m.
fn turned(unit: u32, k: u32, m: u32) -> u32
    requires m_high { m ≤ 65536 }
    requires unit_in { unit < m }
    requires k_in { k < m }
    ensures value { result ≡ (unit * k) % m }
    ensures below { result < m }
{
    unit * k % m
}

/// Writes for each unit j the number at the place of j k modulo m.
pub(crate) fn permute_words(k: u32, units: &[u32], places: &[u32], from: &[u64], words: &mut [u64])
    requires m_high { length places.now ≤ 65536 }
    requires k_in { k < length places.now }
    requires room { length words.old ≡ length units.now }
    requires units_in { All (λ j. j < length places.now) units.now }
    requires places_in { All (λ j. get_or places.now ((j * k) % length places.now) 0 < length from.now) units.now }
    ensures value { words.new ≡ map (λ j. get_or from.now (get_or places.now ((j * k) % length places.now) 0) 0) units.now }
    ensures below { (q : ℕ) → All (λ c. c < q) from.now → All (λ c. c < q) words.new }
{
    let m = places.len() as u32;
    for i in 0..words.len() {
        words[i] = from[places[turned(units[i], k, m) as usize] as usize];
    }
}
