//! Rings in code: what a ring can do, and the laws that each one meets.
ghost use Rattle.std.specs.Prelude.{◌≡◌, ◌↔◌, Bool, IsTrue, IfOk};
ghost use Rattle.algebra.specs.Ring.{Ops, HeldLaws};

use std::alloc::{AllocError, Global};

/// A commutative ring with one.
///
/// Contracts see an element as its value, a number or a list. Not each element of the type is one of the ring: `holds`
/// may be asked of any, and all other calls take elements that are held and answer such.
pub trait Ring {
    /// The type of the elements.
    type Elem: Drop;

    // What an element is seen as.
    ghost Val: { Type 0 };

    ghost value: { Self.Elem → Val };

    // What makes a value of this type a ring; each way to make one ensures it.
    ghost valid: { Self → Type 0 };

    // The values of the ring's elements.
    ghost held: { Self → Val → Bool };

    // Zero, one, sum, product and negative.
    ghost ops: { Self → Ops Val };

    /// Whether a is an element of this ring.
    fn holds(&self, a: &Self::Elem) -> bool
        ensures { result ≡ held self.now (value a.now) };

    /// The zero of the ring.
    fn zero(&self, alloc: Global) -> Result<Self::Elem, AllocError>
        requires { valid self.now }
        ensures value { IfOk result (λ r. value r ≡ (ops self.now).zero) }
        ensures held { IfOk result (λ r. IsTrue (held self.now (value r))) };

    /// The one of the ring.
    fn one(&self, alloc: Global) -> Result<Self::Elem, AllocError>
        requires { valid self.now }
        ensures value { IfOk result (λ r. value r ≡ (ops self.now).one) }
        ensures held { IfOk result (λ r. IsTrue (held self.now (value r))) };

    /// The sum `a + b`.
    fn add(&self, alloc: Global, a: &Self::Elem, b: &Self::Elem) -> Result<Self::Elem, AllocError>
        requires ring { valid self.now }
        requires a_held { IsTrue (held self.now (value a.now)) }
        requires b_held { IsTrue (held self.now (value b.now)) }
        ensures value { IfOk result (λ r. value r ≡ (ops self.now).add (value a.now) (value b.now)) }
        ensures held { IfOk result (λ r. IsTrue (held self.now (value r))) };

    /// The difference `a - b`, the sum of a and the negative of b.
    fn sub(&self, alloc: Global, a: &Self::Elem, b: &Self::Elem) -> Result<Self::Elem, AllocError>
        requires ring { valid self.now }
        requires a_held { IsTrue (held self.now (value a.now)) }
        requires b_held { IsTrue (held self.now (value b.now)) }
        ensures value { IfOk result
            (λ r. value r ≡ (ops self.now).add (value a.now) ((ops self.now).neg (value b.now))) }
        ensures held { IfOk result (λ r. IsTrue (held self.now (value r))) };

    /// The product `a * b`.
    fn mul(&self, alloc: Global, a: &Self::Elem, b: &Self::Elem) -> Result<Self::Elem, AllocError>
        requires ring { valid self.now }
        requires a_held { IsTrue (held self.now (value a.now)) }
        requires b_held { IsTrue (held self.now (value b.now)) }
        ensures value { IfOk result (λ r. value r ≡ (ops self.now).mul (value a.now) (value b.now)) }
        ensures held { IfOk result (λ r. IsTrue (held self.now (value r))) };

    /// The negative `-a`.
    fn neg(&self, alloc: Global, a: &Self::Elem) -> Result<Self::Elem, AllocError>
        requires ring { valid self.now }
        requires a_held { IsTrue (held self.now (value a.now)) }
        ensures value { IfOk result (λ r. value r ≡ (ops self.now).neg (value a.now)) }
        ensures held { IfOk result (λ r. IsTrue (held self.now (value r))) };

    /// Whether a and b are the same element.
    fn equal(&self, a: &Self::Elem, b: &Self::Elem) -> bool
        requires ring { valid self.now }
        requires a_held { IsTrue (held self.now (value a.now)) }
        requires b_held { IsTrue (held self.now (value b.now)) }
        ensures { IsTrue result ↔ (value a.now ≡ value b.now) };

    // The held values are a commutative ring with one under these operations.
    ghost laws: { (s : Self) → valid s → HeldLaws (held s) (ops s) };
}
