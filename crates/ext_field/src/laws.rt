//! Laws of the elements of an extension.
ghost use Rattle.std.specs.Prelude.{◌≡◌, ◌↔◌, IsTrue, MatchOption, List, ℕ, map};
ghost use Rattle.ext_field.specs.Checks.{frobenius_holds, dual_fault};
ghost use Rattle.algebra.specs.Ring.{HeldLaws};
ghost use Rattle.algebra.specs.Power.{power};
ghost use Rattle.algebra.specs.Poly.{value_at};
ghost use Rattle.ext_field.specs.Element.{Extension, IsMonicFactor, IsElement, is_element, elements, eta, number, frob, IsExtension, IsFrobenius, IsDualBasis, IsFirstFailure};
ghost use Rattle.ext_field.specs.FrobeniusLaw.{FrobeniusLaw};

/// The elements are a commutative ring with one.
pub fn law_elements()
    ensures { (f : Extension) → IsMonicFactor f → HeldLaws (is_element f) (elements f) }
{}

/// `frob` takes an element to its value as a polynomial at `eta^p`, which is an element.
pub fn law_frob()
    ensures value { (f : Extension) → IsMonicFactor f → (a : List ℕ) → IsElement f a →
        frob f a ≡ value_at (elements f) (power (elements f) (eta f) f.p) (map (number f) a) }
    ensures element { (f : Extension) → IsMonicFactor f → (a : List ℕ) → IsElement f a → IsElement f (frob f a) }
{}

/// Where `G(eta^p)` is 0, `frob` is a map of rings.
pub fn law_frobenius_map()
    ensures { (f : Extension) → IsExtension f → FrobeniusLaw f }
{}

/// What the tests of an extension and of a dual basis say: the one is true exactly where `G(eta^p)` is 0, and the other
/// names no pair exactly where each pair is as in a dual basis, and else the first that is not.
pub fn law_checks()
    ensures frobenius { (f : Extension) → IsTrue (frobenius_holds f) ↔ IsFrobenius f }
    ensures dual { (f : Extension) → IsMonicFactor f → (dual : List (List ℕ)) →
        MatchOption (dual_fault f dual) (IsDualBasis f dual) (λ at. IsFirstFailure f dual at.0 at.1) }
{}
