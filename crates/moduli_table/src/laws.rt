//! Laws of the checks and of accepted moduli.
ghost use Rattle.std.specs.Prelude.{◌≡◌, ◌↔◌, ℕ, ◌-◌, ◌*◌, ◌<◌, ◌≤◌, None};
ghost use Rattle.std.specs.Int.{IsNextPowerOfTwo};
ghost use Rattle.moduli_table.specs.declared.rows.ModRow.{ModRow};
ghost use Rattle.moduli_table.specs.Chain.{Chain, IsShaped};
ghost use Rattle.moduli_table.specs.Checks.{two_power, first_fault};
ghost use Rattle.moduli_table.specs.Search.{FindsLeastBase};
ghost use Rattle.moduli_table.specs.Accepted.{IsInverse, IsAcceptedRow, AreModuli, AreRoots, turned};

/// No check fails exactly where each modulus is odd and in range, the roots are roots, and the inverses are inverses.
pub fn law_checks()
    ensures { (c : Chain) → IsShaped c → (first_fault c ≡ None) ↔ AreModuli c }
{}

/// In an accepted row omega is a root of unity with an inverse, and m and each difference of two powers of omega with
/// different exponents below m have an inverse modulo q, whether or not q is a prime.
pub fn law_differences()
    ensures { (m : ℕ) (r : ModRow) → 3 ≤ m → IsAcceptedRow m r → AreRoots m r }
{}

/// An inverse of r modulo q gives one of q modulo r.
pub fn law_inverse_both_ways()
    ensures { (q r e : ℕ) → 1 < q → 1 < r → IsInverse q r e → IsInverse r q (turned q r e) }
{}

/// The power of two by which psi is tested is the next one from 2m - 1 on.
pub fn law_two_power()
    ensures is { (m : ℕ) → 1 ≤ m → IsNextPowerOfTwo (2 * m - 1) (two_power m) }
    ensures only { (m n : ℕ) → 1 ≤ m → IsNextPowerOfTwo (2 * m - 1) n → n ≡ two_power m }
{}

/// The search for roots finds the least base from 2 to 1000 that passes, and none only where no such base passes.
pub fn law_least_base()
    ensures { FindsLeastBase }
{}
