ghost use Rattle.std.specs.Prelude.{◌≡◌, ℕ, ◌<◌, ◌≤◌, List, length, sum};
ghost use Rattle.std.specs.List.{All};
ghost use Rattle.noise_bound.specs.Form.{bound_of};
ghost use Rattle.noise_bound.specs.Groups.{IsGroups, groups};
ghost use Rattle.noise_bound.specs.Machine.{IsBalanced, balanced};
ghost use Rattle.noise_bound.specs.Rounding.{IsFloating, IsUp, IsDown, up, down, mantissa, exponent};
ghost use Rattle.noise_bound.specs.Value.{value};
ghost use Rattle.noise_bound.specs.declared.rounding.Bound.{Bound as TheBound};

/// What rounding is: `up x` is the least number `man * 2^exp` with `man` below 2^32 that is at least
/// `x`, and `down x` the greatest that is at most `x`.
pub fn law_rounding()
    ensures rounds_up { (x : ℕ) → IsUp x (up x) }
    ensures rounds_down { (x : ℕ) → IsDown x (down x) }
    ensures up_ordered { (x y : ℕ) → x ≤ y → up x ≤ up y }
    ensures down_ordered { (x y : ℕ) → x ≤ y → down x ≤ down y }
    ensures up_keeps { (x : ℕ) → IsFloating x → up x ≡ x }
    ensures down_keeps { (x : ℕ) → IsFloating x → down x ≡ x }
{}

/// A bound has one form: its number alone determines `man` and `exp`.
pub fn law_form()
    ensures exp { (b : TheBound) → b.exp ≡ exponent (value b) }
    ensures man { (b : TheBound) → b.man ≡ mantissa (value b) }
    ensures floating { (b : TheBound) → IsFloating (value b) }
    ensures ordered { (a b : TheBound) → value a ≤ value b → a.exp ≤ b.exp }
{}

/// The bound of a bound's number is that bound, and that of any number is the greatest that is at most it.
pub fn law_bound_of()
    ensures back { (b : TheBound) → bound_of (value b) ≡ b }
    ensures number { (x : ℕ) → value (bound_of x) ≡ down x }
{}

/// What the groups of a list are: they join to it, none is empty, and each but the last is full.
pub fn law_groups()
    ensures { (sizes xs : List ℕ) → All (λ d. 0 < d) sizes → length xs ≤ sum sizes
        → IsGroups sizes xs (groups sizes xs) }
{}

/// What the balanced residue modulo `n` is: it is congruent, above `-n/2` and at most `n/2`.
pub fn law_balanced()
    ensures { (n x : ℕ) → 0 < n → IsBalanced n x (balanced n x) }
{}
