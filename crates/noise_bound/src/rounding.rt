ghost use Rattle.std.specs.Prelude.{◌≡◌, ◌+◌, ◌*◌, ◌/◌, ◌<◌, ◌≤◌, ◌^◌, ◌↔◌, IsTrue, max, Some};
ghost use Rattle.std.specs.Int.{div_ceil};
ghost use Rattle.noise_bound.specs.Rounding.{up, down, plus, times, scale, scale_down, over, ratio, half_over};

use std::fmt;

/// A whole number `man * 2^exp`.
///
/// Each such number has one form, which the type keeps: `exp` is 0, or `man` has its highest bit set.
/// So 5 is `Bound { man: 5, exp: 0 }`, and 2^32 is `Bound { man: 2147483648, exp: 1 }`.
///
/// The calls take bounds with an exponent below 2^20, and say how large that of the result may be.
#[derive(Clone, Copy, Debug, PartialEq, Eq)]
pub struct Bound {
    pub man: u32,
    pub exp: u32,
    pub ghost fits: { man < 2 ^ 32 },
    pub ghost normal: { 0 < exp → 2 ^ 31 ≤ man },
}

/// The same number with a longer first factor: as many of the powers of two as fit are moved into it.
fn lifted(number: u128, exp: u32) -> (u128, u32)
    ensures same { result.0 * 2 ^ result.1 ≡ number * 2 ^ exp }
    ensures long { 0 < result.1 → 2 ^ 127 ≤ result.0 }
    ensures less { result.1 ≤ exp }
{
    if number == 0 {
        return (0, 0);
    }
    let lift = number.leading_zeros().min(exp);
    (number << lift, exp - lift)
}

/// How many of the lowest binary digits do not fit a mantissa.
fn excess(number: u128) -> u32
    ensures fits { number < 2 ^ 32 * 2 ^ result }
    ensures full { 0 < result → 2 ^ 31 * 2 ^ result ≤ number }
    ensures small { result ≤ 96 }
{
    (128 - number.leading_zeros()).saturating_sub(32)
}

impl Bound {
    ghost use Rattle.noise_bound.specs.Value.{value};

    /// `number * 2^exp`, rounded up.
    fn rounded_up(number: u128, exp: u32) -> Bound
        requires { exp < 2 ^ 31 }
        ensures { value result ≡ up (number * 2 ^ exp) }
    {
        let (number, exp) = lifted(number, exp);
        let cut = excess(number);
        let man = number.div_ceil(1 << cut);
        if man == 1 << 32 {
            return Bound {
                man: 1 << 31,
                exp: exp + cut + 1,
            };
        }
        Bound {
            man: man as u32,
            exp: exp + cut,
        }
    }

    /// `number * 2^exp`, rounded down.
    fn rounded_down(number: u128, exp: u32) -> Bound
        requires { exp < 2 ^ 31 }
        ensures { value result ≡ down (number * 2 ^ exp) }
    {
        let (number, exp) = lifted(number, exp);
        let cut = excess(number);
        Bound {
            man: (number >> cut) as u32,
            exp: exp + cut,
        }
    }

    /// `number * 2^exp / divisor`, rounded up to a whole number and then to a bound.
    fn quotient_up(number: u128, exp: u32, divisor: u64) -> Bound
        requires small { exp < 2 ^ 31 }
        requires divisor { 0 < divisor }
        ensures { value result ≡ up (div_ceil (number * 2 ^ exp) divisor) }
    {
        let (number, exp) = lifted(number, exp);
        Bound::rounded_up(number.div_ceil(divisor as u128), exp)
    }

    /// The sum of two bounds, the first of which has the higher power of two.
    fn sum(high: Bound, low: Bound) -> Bound
        requires small { high.exp < 2 ^ 31 }
        requires ordered { low.exp ≤ high.exp }
        ensures { value result ≡ plus (value high) (value low) }
    {
        let gap = high.exp - low.exp;
        if gap < 64 {
            let number = ((high.man as u128) << gap) + low.man as u128;
            return Bound::rounded_up(number, low.exp);
        }
        // So far below, it counts only whether anything is there.
        let number = high.man as u128 + low.man.min(1) as u128;
        Bound::rounded_up(number, high.exp)
    }

    /// A number that fits a mantissa.
    pub(crate) fn of_word(man: u32) -> Bound
        ensures number { value result ≡ man }
        ensures small { result.exp ≡ 0 }
    {
        Bound { man, exp: 0 }
    }

    /// `x`, rounded up: the least number `man * 2^exp` that is at least `x`.
    ///
    /// `up(8589934591)` is `2147483648 * 2^2`.
    pub fn up(x: u128) -> Bound
        ensures number { value result ≡ up x }
        ensures small { result.exp ≤ 97 }
    {
        Bound::rounded_up(x, 0)
    }

    /// `x`, rounded down: the greatest number `man * 2^exp` that is at most `x`.
    ///
    /// `down(8589934591)` is `4294967295 * 2^1`.
    pub fn down(x: u128) -> Bound
        ensures number { value result ≡ down x }
        ensures small { result.exp ≤ 96 }
    {
        Bound::rounded_down(x, 0)
    }

    /// The sum, rounded up: 3 plus 2^40 is `2147483649 * 2^9`.
    pub fn plus(self, b: Bound) -> Bound
        requires self_small { self.exp < 2 ^ 20 }
        requires b_small { b.exp < 2 ^ 20 }
        ensures number { value result ≡ plus (value self) (value b) }
        ensures small { result.exp ≤ max self.exp b.exp + 1 }
    {
        if self.exp < b.exp {
            Bound::sum(b, self)
        } else {
            Bound::sum(self, b)
        }
    }

    /// The product, rounded up.
    pub fn times(self, b: Bound) -> Bound
        requires self_small { self.exp < 2 ^ 20 }
        requires b_small { b.exp < 2 ^ 20 }
        ensures number { value result ≡ times (value self) (value b) }
        ensures small { result.exp ≤ self.exp + b.exp + 32 }
    {
        Bound::rounded_up(self.man as u128 * b.man as u128, self.exp + b.exp)
    }

    /// The product with a word, rounded up: 2^31 by 3 is `3221225472 * 2^1`.
    pub fn scale(self, k: u64) -> Bound
        requires { self.exp < 2 ^ 20 }
        ensures number { value result ≡ scale (value self) k }
        ensures small { result.exp ≤ self.exp + 64 }
    {
        Bound::rounded_up(self.man as u128 * k as u128, self.exp)
    }

    /// The product with a word, rounded down.
    pub fn scale_down(self, k: u64) -> Bound
        requires { self.exp < 2 ^ 20 }
        ensures number { value result ≡ scale_down (value self) k }
        ensures small { result.exp ≤ self.exp + 64 }
    {
        Bound::rounded_down(self.man as u128 * k as u128, self.exp)
    }

    /// The exact quotient `self * factor / modulus`, rounded up to a whole number, and that rounded up.
    ///
    /// It is 0 only where `self` or `factor` is 0.
    pub fn over(self, factor: u64, modulus: u64) -> Bound
        requires small { self.exp < 2 ^ 20 }
        requires divisor { 0 < modulus }
        ensures number { value result ≡ over (value self) factor modulus }
        ensures small { result.exp ≤ self.exp + 64 }
    {
        let number = self.man as u128 * factor as u128;
        Bound::quotient_up(number, self.exp, modulus)
    }

    /// The exact quotient `self / b`, rounded up to a whole number, and that rounded up.
    ///
    /// It is 1 where `b` is far above `self`, and 0 only where `self` is 0.
    pub fn ratio(self, b: Bound) -> Bound
        requires self_small { self.exp < 2 ^ 20 }
        requires b_small { b.exp < 2 ^ 20 }
        requires divisor { 0 < value b }
        ensures number { value result ≡ ratio (value self) (value b) }
        ensures small { result.exp ≤ self.exp }
    {
        if self.exp < b.exp {
            // `b` is above `self`.
            return Bound::of_word(self.man.min(1));
        }
        Bound::quotient_up(self.man as u128, self.exp - b.exp, b.man as u64)
    }

    /// The exact quotient `self / (2 h)`, rounded down to a whole number, and that rounded down.
    pub fn half_over(self, h: u32) -> Bound
        requires small { self.exp < 2 ^ 20 }
        requires divisor { 0 < h }
        ensures number { value result ≡ half_over (value self) h }
        ensures small { result.exp ≤ self.exp }
    {
        let (number, exp) = lifted(self.man as u128, self.exp);
        Bound::rounded_down(number / (2 * h as u128), exp)
    }

    /// Whether the number is at least that of `b`.
    pub fn at_least(self, b: Bound) -> bool
        ensures { IsTrue result ↔ (value b ≤ value self) }
    {
        if self.exp == b.exp {
            self.man >= b.man
        } else {
            self.exp > b.exp
        }
    }
}

/// `man`, or `man*2^exp` where `exp` is not 0.
impl fmt::Display for Bound {
    ghost use Rattle.noise_bound.specs.Text.{text_of};

    ghost output = { λ b. Some (text_of b) };

    fn fmt<W: fmt::Write>(&self, f: &mut fmt::Formatter<W>) -> fmt::Result {
        if self.exp == 0 {
            write!(f, "{}", self.man)
        } else {
            write!(f, "{}*2^{}", self.man, self.exp)
        }
    }
}
