//! Tables that are accepted.
ghost use Rattle.std.specs.Prelude.{◌≡◌};
ghost use Rattle.std.specs.Option.{ForSome};

use cipher_core::Scheme;
use cyclo_poly::Cyclo;
use slot_factor::Slots;
use std::rc::Rc;

/// What an accepted table sets: its slots, the cyclotomic polynomial, and the scheme of its moduli, which a plain table has
/// not.
#[derive(Drop)]
pub struct Table {
    /// The scheme; none in a plain table.
    pub scheme: Option<Scheme>,
    /// The slots, with their cube and their extension.
    pub slots: Rc<Slots>,
    /// The cyclotomic polynomial.
    pub cyclo: Cyclo,
    pub ghost same_m: { cyclo ≡ slots.value.cube.m },
    pub ghost same_slots: { ForSome scheme (λ s. s.slots.value ≡ slots.value) },
    pub ghost scheme_m: { ForSome scheme (λ s. s.tables.value.moduli.m ≡ cyclo) },
}
