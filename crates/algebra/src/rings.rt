//! The rings that all others are made of, and sums of natural numbers.

ghost use Rattle.std.specs.Prelude.{ℕ, ◌<◌, Bool, ltb};
ghost use Rattle.algebra.specs.Range.{Monoid, MonoidLaws, counts};
ghost use Rattle.algebra.specs.Ring.{Ops, RingLaws, HeldLaws, whole_numbers, residues};
ghost use Rattle.algebra.specs.Laws.{PowerLaw, SolverLaw};
ghost use Rattle.algebra.specs.HeldRing.{held_ops};
ghost use Rattle.algebra.specs.Totals.{TotalLaw};

/// Sums of natural numbers are sums over a commutative operation with a unit.
pub fn law_counts()
    ensures { MonoidLaws counts }
{}

/// The whole numbers are a commutative ring with one.
pub fn law_whole_numbers()
    ensures { RingLaws whole_numbers }
{}

/// The numbers below `q` are a commutative ring with one under sum and product modulo `q`.
pub fn law_residues()
    ensures { (q : ℕ) → 0 < q → HeldLaws (λ a. ltb a q) (residues q) }
{}

/// Any commutative ring: its elements are those of a carrier that are held. No code computes in it.
pub trait AnyRing {
    ghost Val: { Type 0 };

    ghost held: { Val → Bool };

    ghost ops: { Ops Val };

    ghost laws: { HeldLaws held ops };
}

/// Powers under sums and products of exponents; the geometric sum, `(x - 1) (1 + x + .. + x^(n - 1)) = x^n - 1`, without a
/// quotient; and `x^m - 1` divides `x^(m n) - 1`.
pub fn law_powers<R: AnyRing>()
    ensures { PowerLaw R.held R.ops }
{}

/// The elements that are held are a ring of their own: the laws stand without premises there.
pub fn law_held_ring<R: AnyRing>()
    ensures { RingLaws (held_ops R.laws) }
{}

/// Two expressions with one normal form have equal values, whatever held elements the variables stand for. So a check of
/// two lists proves an identity of commutative rings.
pub fn law_solver<R: AnyRing>()
    ensures { SolverLaw R.held R.ops }
{}

/// Any commutative operation with a unit. No code computes with it.
pub trait AnyMonoid {
    ghost Val: { Type 0 };

    ghost operation: { Monoid Val };

    ghost laws: { MonoidLaws operation };
}

/// Sums and products over ranges: of equal terms, of a range in two pieces, of rows and columns, from the other end, and
/// of terms of which all but one are the unit.
pub fn law_totals<M: AnyMonoid>()
    ensures { TotalLaw M.operation }
{}
