//! Laws of residues of whole numbers, and of units.

ghost use Rattle.std.specs.Prelude.{◌≡◌, ◌↔◌, ℕ, ◌<◌, All, List, length, map, ℤ, IsTrue};
ghost use Rattle.std.specs.List.{AllZip};
ghost use Rattle.algebra.specs.Totals.{EuclidLaw};
ghost use Rattle.algebra.specs.Ring.{whole_numbers, residues};
ghost use Rattle.algebra.specs.Hom.{Preserves};
ghost use Rattle.algebra.specs.Poly.{IsMonic, modulo};
ghost use Rattle.algebra.specs.Divisor.{UnitModulo, is_unit, HasInverse};
ghost use Rattle.algebra.specs.Whole.{residue, balanced, product_of, SameModulo, IsBalanced, AreInvertible, IsChinese, IsChineseRow};

/// The residue modulo `q` keeps zero, one, sums, products and negatives.
pub fn law_residue()
    ensures { (q : ℕ) → 0 < q → Preserves whole_numbers (residues q) (residue q) }
{}

/// Two whole numbers have the same residue exactly where they are equal up to a multiple of `q`.
pub fn law_same_residue()
    ensures { (q : ℕ) → 0 < q → (a b : ℤ) → SameModulo q a b ↔ residue q a ≡ residue q b }
{}

/// The residues of the coefficients keep the operations of the polynomials modulo a list of whole numbers.
pub fn law_residue_row()
    ensures { (q : ℕ) → 0 < q → (g : List ℤ) →
        Preserves (modulo whole_numbers g) (modulo (residues q) (map (residue q) g)) (map (residue q)) }
{}

/// The balanced residue is the one number from above `-n / 2` to `n / 2` that is congruent to a given one.
pub fn law_balanced()
    ensures is { (n : ℕ) → 0 < n → (z : ℤ) → IsBalanced n z (balanced n z) }
    ensures only { (n : ℕ) → 0 < n → (z r : ℤ) → IsBalanced n z r → r ≡ balanced n z }
{}

/// The Chinese remainder law, without primes: where each modulus has an inverse modulo each later one, numbers are equal
/// up to a multiple of the product exactly where they are so for each modulus; and there is one number below the product
/// with given residues.
pub fn law_chinese()
    ensures same { (qs : List ℕ) (a b : ℤ) → AreInvertible qs →
        All (λ q. SameModulo q a b) qs ↔ SameModulo (product_of qs) a b }
    ensures exists { (qs rs : List ℕ) → AreInvertible qs → AllZip (λ q r. r < q) qs rs → (x : ℕ) × IsChinese qs rs x }
    ensures only { (qs rs : List ℕ) (x y : ℕ) → AreInvertible qs → All (λ q. 0 < q) qs →
        IsChinese qs rs x → IsChinese qs rs y → x ≡ y }
{}

/// The same, coefficient by coefficient: rows modulo each modulus and one row modulo the product determine each other.
pub fn law_chinese_rows()
    ensures same { (qs : List ℕ) (f g : List ℤ) → length f ≡ length g → AreInvertible qs → All (λ q. 0 < q) qs →
        All (λ q. map (residue q) f ≡ map (residue q) g) qs ↔ map (residue (product_of qs)) f ≡ map (residue (product_of qs)) g }
    ensures exists { (n : ℕ) (qs : List ℕ) (rows : List (List ℕ)) → AreInvertible qs →
        AllZip (λ q row. (length row ≡ n) × All (λ c. c < q) row) qs rows →
        (f : List ℕ) × (length f ≡ n) × IsChineseRow qs rows f }
{}

/// A number has an inverse modulo `m` exactly where the two have no common divisor above 1, and the test finds it.
pub fn law_units()
    ensures inverse { (m k : ℕ) → 0 < m → 0 < k → UnitModulo m k ↔ HasInverse m k }
    ensures test { (m k : ℕ) → 0 < m → 0 < k → IsTrue (is_unit m k) ↔ UnitModulo m k }
{}

/// Euclid's algorithm with coefficients: a common divisor of two numbers is a multiple of the first less a multiple of the
/// second.
pub fn law_euclid()
    ensures { EuclidLaw }
{}
