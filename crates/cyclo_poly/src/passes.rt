//! Sums with a stride over rows of residues, in place and without memory.
ghost use Rattle.std.specs.Prelude.{◌≡◌, ℕ, ◌+◌, ◌-◌, ◌%◌, ◌<◌, length, get_or, replicate};
ghost use Rattle.std.specs.List.{All};
ghost use Rattle.mod_ring.specs.Zq.{modulus_of};
ghost use Rattle.cyclo_poly.specs.Strides.{IsLess, IsLessNext};

use mod_ring::Zq;

/// Takes from each place the place further on by the stride.
fn lower(zq: &Zq, stride: usize, values: &mut [u64])
    requires positive { 0 < stride }
    requires below { All (λ c. c < modulus_of zq.now) values.old }
    ensures value { IsLessNext (modulus_of zq.now) stride values.old values.new }
    ensures below { All (λ c. c < modulus_of zq.now) values.new }
{
    for i in 0..values.len().saturating_sub(stride) {
        values[i] = zq.sub_word(values[i], values[i + stride]);
    }
}

/// Undoes `lower`: from the end on, adds to each place the new place further on by the stride.
fn raise(zq: &Zq, stride: usize, values: &mut [u64])
    requires positive { 0 < stride }
    requires below { All (λ c. c < modulus_of zq.now) values.old }
    ensures value { IsLessNext (modulus_of zq.now) stride values.new values.old }
    ensures below { All (λ c. c < modulus_of zq.now) values.new }
{
    for i in (0..values.len().saturating_sub(stride)).rev() {
        values[i] = zq.add_word(values[i], values[i + stride]);
    }
}

/// `lower` with each of the strides.
pub fn lower_all(zq: &Zq, strides: &[usize], values: &mut [u64])
    requires positive { All (λ j. 0 < j) strides.now }
    requires below { All (λ c. c < modulus_of zq.now) values.old }
    ensures value { IsLess (modulus_of zq.now) strides.now values.old values.new }
    ensures below { All (λ c. c < modulus_of zq.now) values.new }
{
    for t in (0..strides.len()).rev() {
        lower(zq, strides[t], values);
    }
}

/// `raise` with each of the strides.
pub fn raise_all(zq: &Zq, strides: &[usize], values: &mut [u64])
    requires positive { All (λ j. 0 < j) strides.now }
    requires below { All (λ c. c < modulus_of zq.now) values.old }
    ensures value { IsLess (modulus_of zq.now) strides.now values.new values.old }
    ensures below { All (λ c. c < modulus_of zq.now) values.new }
{
    for t in 0..strides.len() {
        raise(zq, strides[t], values);
    }
}

/// Writes 0 into each place.
pub fn clear(values: &mut [u64])
    ensures { values.new ≡ replicate (length values.old) 0 }
{
    for place in values.iter_mut() {
        *place = 0;
    }
}
