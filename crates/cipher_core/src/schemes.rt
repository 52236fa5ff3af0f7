//! What a table sets for ciphertexts.
ghost use Rattle.std.specs.Prelude.{◌≡◌};
ghost use Rattle.scheme_laws.specs.Scheme.{sizes_of};

use double_crt::RingTables;
use noise_bound::BoundTable;
use slot_factor::Slots;
use std::rc::Rc;

/// The ring with its moduli, the slots, and the bounds, all of one table.
#[derive(Drop)]
pub struct Scheme {
    /// The ring modulo the moduli of the table.
    pub tables: Rc<RingTables>,
    /// The slots of plaintexts.
    pub slots: Rc<Slots>,
    /// The bounds of ciphertexts, and the limits of their levels.
    pub bounds: Rc<BoundTable>,
    pub ghost same_m: { slots.value.cube.m ≡ tables.value.moduli.m },
    pub ghost same_p: { slots.value.cube.p ≡ tables.value.moduli.p },
    pub ghost same_sizes: { bounds.value ≡ sizes_of tables.value },
}
