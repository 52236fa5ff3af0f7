//! The slots of a polynomial, its values at powers of a root of Phi_m, against the instructions on arrays.

ghost use Rattle.ext_field.specs.Element.{Extension};
ghost use Rattle.hyper_cube.specs.Torus.{Torus};
ghost use Rattle.slot_laws.specs.SlotLaws.{InverseLaw, ChecksDecide, PowersOfEta, SlotsSee, SlotsKeep, SlotsMove, EncodesSlots, PlaintextsKeep, SlotSums, ForPackings};

/// `inverse_modulo` of a unit is its inverse, and the only number below n that is.
pub fn law_inverse()
    ensures { InverseLaw }
{}

/// Each test of a table says whether its check passes, and the least slot of eps that fails is named.
pub fn law_checks()
    ensures { (f : Extension) (c : Torus) → ChecksDecide f c }
{}

/// Phi_m is 0 at the powers of eta whose exponents are units modulo m, eta^m is 1, and only the residue modulo m of an
/// exponent counts.
pub fn law_powers_of_eta()
    ensures { ForPackings PowersOfEta }
{}

/// The slots of a polynomial are those of its remainder by Phi_m, of its residues modulo p, and of its balanced residues.
pub fn law_slots_see()
    ensures { ForPackings SlotsSee }
{}

/// The slots of a sum, a difference, a negative and a product in R are those of the arrays.
pub fn law_slots_keep()
    ensures { ForPackings SlotsKeep }
{}

/// The slots of a(X^k), for a unit k modulo m, are those of a after the instruction `auto` with k.
pub fn law_slots_move()
    ensures { ForPackings SlotsMove }
{}

/// `encode` gives n balanced residues modulo p. The slots of what is encoded are the elements of the array; what is encoded
/// from the slots of a is the balanced residue of a; so the slots determine an element of R modulo p.
pub fn law_encodes_slots()
    ensures { ForPackings EncodesSlots }
{}

/// The operations of R on plaintexts, with balanced residues modulo p as their results, are the instructions on slots.
pub fn law_plaintexts_keep()
    ensures { ForPackings PlaintextsKeep }
{}

/// A slot is a sum of numbers times remainders of powers of X by G; what `encode` places for a slot is a sum of whole numbers
/// times remainders of powers of X by Phi_m. The exponents are below m.
pub fn law_slot_sums()
    ensures { ForPackings SlotSums }
{}
