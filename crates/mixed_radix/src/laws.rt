//! The laws of balanced digits.
ghost use Rattle.std.specs.Prelude.{◌≡◌, ℕ, ◌*◌, ◌%◌, ◌<◌, All, List, ℤ, nat_abs};
ghost use Rattle.std.specs.List.{AllZip};
ghost use Rattle.algebra.specs.Whole.{residue, product_of, AreInvertible};
ghost use Rattle.mixed_radix.specs.Basis.{Basis, IsBasis};
ghost use Rattle.mixed_radix.specs.Mixed.{mixed, AreBalanced, AreDigits};

/// The whole numbers strictly between -Q/2 and Q/2, where Q is the product of odd moduli, are the sums of balanced
/// digits, each in one way.
pub fn law_mixed_radix()
    ensures some { (qs : List ℕ) → All (λ q. q % 2 ≡ 1) qs → (x : ℤ) → 2 * nat_abs x < product_of qs
        → (vs : List ℤ) × AreBalanced qs vs × (mixed qs vs ≡ x) }
    ensures small { (qs : List ℕ) → (vs : List ℤ) → AreBalanced qs vs → 2 * nat_abs (mixed qs vs) < product_of qs }
    ensures one { (qs : List ℕ) → (vs ws : List ℤ) → AreBalanced qs vs → AreBalanced qs ws
        → mixed qs vs ≡ mixed qs ws → vs ≡ ws }
{}

/// Where each modulus has an inverse modulo each later one, residues determine the balanced digits, and the digits found
/// from the residues of a whole number strictly between -Q/2 and Q/2 add up to that number.
pub fn law_digits()
    ensures only { (qs rs : List ℕ) → (vs ws : List ℤ) → AreInvertible qs → AreDigits qs rs vs → AreDigits qs rs ws
        → vs ≡ ws }
    ensures value { (qs rs : List ℕ) → (vs : List ℤ) → (x : ℤ) → AreInvertible qs → AreDigits qs rs vs
        → AllZip (λ q r. residue q x ≡ r) qs rs → 2 * nat_abs x < product_of qs → mixed qs vs ≡ x }
    ensures invertible { (b : Basis) → IsBasis b → AreInvertible b.moduli }
{}
