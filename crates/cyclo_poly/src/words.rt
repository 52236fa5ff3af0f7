//! Sums of products of small whole numbers in words.
ghost use Rattle.std.specs.Prelude.{◌≡◌, ◌^◌, ◌<◌, ◌≤◌, nat_abs, IfSome, IfNone, ◌+ℤ◌, ◌*ℤ◌, neg_ℤ};

/// The sum `a + x * y`.
#[inline(always)]
pub fn add_product(a: i128, x: i64, y: i64) -> i128
    requires a_in { nat_abs a ≤ 2 ^ 80 }
    requires x_in { nat_abs x < 2 ^ 31 }
    requires y_in { nat_abs y < 2 ^ 31 }
    ensures { result ≡ a +ℤ x *ℤ y }
{
    a + x as i128 * y as i128
}

/// The difference `a - x * y`.
#[inline(always)]
pub fn less_product(a: i64, x: i64, y: i64) -> i64
    requires a_in { nat_abs a < 2 ^ 31 }
    requires x_in { nat_abs x < 2 ^ 31 }
    requires y_in { nat_abs y < 2 ^ 31 }
    ensures { result ≡ a +ℤ neg_ℤ x *ℤ y }
{
    a - x * y
}

/// The difference of a word and a sum, where it is small.
#[inline(always)]
pub fn small_difference(a: i64, b: i128) -> Option<i64>
    requires a_in { nat_abs a < 2 ^ 31 }
    requires b_in { nat_abs b ≤ 2 ^ 80 }
    ensures found { IfSome result (λ r. r ≡ a +ℤ neg_ℤ b) }
    ensures small { IfSome result (λ r. nat_abs r < 2 ^ 31) }
    ensures large { IfNone result (2 ^ 31 ≤ nat_abs (a +ℤ neg_ℤ b)) }
{
    let difference = a as i128 - b;
    if difference >= 1 << 31 || difference <= -(1 << 31) {
        return None;
    }
    Some(difference as i64)
}
