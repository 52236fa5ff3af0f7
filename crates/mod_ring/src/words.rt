//! The residues modulo q, one word each, for a modulus from 2 to 2^62 - 1.
ghost use Rattle.std.specs.Prelude.{◌≡◌, ◌+◌, ◌-◌, ◌*◌, ◌/◌, ◌%◌, ◌^◌, ◌<◌, ◌≤◌, ◌↔◌, IsSome, IfSome, pos, ◌*ℤ◌, neg_ℤ, ◌<ℤ◌, ◌≤ℤ◌};

/// The residues modulo q, from 0 to q - 1. Contracts see it as its modulus.
#[derive(Clone, Copy)]
pub struct Zq {
    q: u64,
    // Barrett's constants: the modulus moved up to 62 bits, by how much, and 2^124 divided by it.
    shift: u32,
    scaled: u64,
    reciprocal: u64,
    pub ghost in_range: { (2 ≤ q) × (q < 2 ^ 62) },
    ghost shift_in: { shift < 64 },
    ghost scaled_is: { scaled ≡ q * 2 ^ shift },
    ghost scaled_in: { (2 ^ 61 ≤ scaled) × (scaled < 2 ^ 62) },
    ghost reciprocal_is: { reciprocal ≡ 2 ^ 124 / scaled },
}

/// By how many places q moves up to a number of 62 bits.
fn room_above(q: u64) -> u32
    requires low { 0 < q }
    requires high { q < 2 ^ 62 }
    ensures shift { result < 64 }
    ensures scaled_low { 2 ^ 61 ≤ q * 2 ^ result }
    ensures scaled_high { q * 2 ^ result < 2 ^ 62 }
{
    q.leading_zeros() - 2
}

/// The remainder of p by a modulus of 62 bits, by Barrett's reduction with two fixed shifts.
fn reduce_wide(p: u128, modulus: u64, reciprocal: u64) -> u64
    requires low { 2 ^ 61 ≤ modulus }
    requires high { modulus < 2 ^ 62 }
    requires reciprocal { reciprocal ≡ 2 ^ 124 / modulus }
    requires p_in { p < 2 ^ 124 }
    ensures { result ≡ p % modulus }
{
    let top = (p >> 61) as u64;
    let guess = ((top as u128 * reciprocal as u128) >> 63) as u64;
    let rest = (p - guess as u128 * modulus as u128) as u64;
    let rest = rest.min(rest.wrapping_sub(2 * modulus));
    rest.min(rest.wrapping_sub(modulus))
}

impl Zq {
    ghost use Rattle.algebra.specs.Whole.{residue, balanced};
    ghost use Rattle.mod_ring.specs.Zq.{modulus_of};

    /// The residues modulo q; none where q is below 2 or from 2^62 on.
    pub fn new(q: u64) -> Option<Zq>
        ensures valid { IsSome result ↔ ((2 ≤ q) × (q < 2 ^ 62)) }
        ensures value { IfSome result (λ z. modulus_of z ≡ q) }
    {
        if q < 2 || q >= 1 << 62 {
            return None;
        }
        let shift = room_above(q);
        let scaled = q << shift;
        let reciprocal = ((1u128 << 124) / scaled as u128) as u64;
        Some(Zq {
            q,
            shift,
            scaled,
            reciprocal,
        })
    }

    /// The modulus q.
    pub fn modulus(&self) -> u64
        ensures { result ≡ modulus_of self.now }
    {
        self.q
    }

    /// The residue of `a + b`, for residues a and b.
    pub fn add_word(&self, a: u64, b: u64) -> u64
        requires a_in { a < modulus_of self.now }
        requires b_in { b < modulus_of self.now }
        ensures value { result ≡ (a + b) % modulus_of self.now }
        ensures below { result < modulus_of self.now }
    {
        let sum = a + b;
        sum.min(sum.wrapping_sub(self.q))
    }

    /// The residue of `-a`, for a residue a.
    pub fn neg_word(&self, a: u64) -> u64
        requires a_in { a < modulus_of self.now }
        ensures value { result ≡ (modulus_of self.now - a) % modulus_of self.now }
        ensures below { result < modulus_of self.now }
    {
        if a == 0 { 0 } else { self.q - a }
    }

    /// The residue of `a - b`, for residues a and b.
    pub fn sub_word(&self, a: u64, b: u64) -> u64
        requires a_in { a < modulus_of self.now }
        requires b_in { b < modulus_of self.now }
        ensures value { result ≡ (a + (modulus_of self.now - b)) % modulus_of self.now }
        ensures below { result < modulus_of self.now }
    {
        let difference = a.wrapping_sub(b);
        difference.min(difference.wrapping_add(self.q))
    }

    /// The residue of `a * b`, for residues a and b.
    ///
    /// In the residues modulo 113 the product of 100 and 100 is 56.
    pub fn mul_word(&self, a: u64, b: u64) -> u64
        requires a_in { a < modulus_of self.now }
        requires b_in { b < modulus_of self.now }
        ensures value { result ≡ (a * b) % modulus_of self.now }
        ensures below { result < modulus_of self.now }
    {
        let product = (a << self.shift) as u128 * b as u128;
        reduce_wide(product, self.scaled, self.reciprocal) >> self.shift
    }

    /// The residue of `a^e`, for a residue a; of 1 where e is 0.
    ///
    /// In the residues modulo 113 the 8th power of 3 is 7.
    pub fn power_word(&self, a: u64, e: u64) -> u64
        requires a_in { a < modulus_of self.now }
        ensures value { result ≡ a ^ e % modulus_of self.now }
        ensures below { result < modulus_of self.now }
    {
        let mut power = 1;
        let mut base = a;
        let mut rest = e;
        while rest > 0 {
            if rest % 2 == 1 {
                power = self.mul_word(power, base);
            }
            base = self.mul_word(base, base);
            rest /= 2;
        }
        power
    }

    /// The residue of a whole number.
    pub fn from_signed(&self, x: i64) -> u64
        ensures value { result ≡ residue (modulus_of self.now) x }
        ensures below { result < modulus_of self.now }
    {
        x.rem_euclid(self.q as i64) as u64
    }

    /// The whole number r with the residue a for which `-q/2 < r <= q/2`.
    ///
    /// For the residues modulo 4 these are 0, 1, 2 and -1.
    pub fn balanced(&self, a: u64) -> i64
        requires a_in { a < modulus_of self.now }
        ensures value { result ≡ balanced (modulus_of self.now) (pos a) }
        ensures congruent { residue (modulus_of self.now) result ≡ a }
        ensures above { neg_ℤ (pos (modulus_of self.now)) <ℤ (pos 2 *ℤ result) }
        ensures at_most { (pos 2 *ℤ result) ≤ℤ pos (modulus_of self.now) }
    {
        if 2 * a <= self.q {
            a as i64
        } else {
            a as i64 - self.q as i64
        }
    }
}
