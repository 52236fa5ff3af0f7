//! Laws of the plain machine.
ghost use Rattle.plain_machine.specs.CarryingLaws.{EmptyLaw, CarryingLaw, HistoryLaw, DecryptsLaw};
ghost use Rattle.plain_machine.specs.Lower.{LowerLaws};

use cyclotomic::polynomials::law_degree_is_units;
use he_files::{law_cipher, law_header, law_public_key, law_secret};
use line_text::law_names;
use noise_bound::{law_bound_of, law_form, law_rounding};
use scheme_laws::scheme::{law_decrypts as law_ciphers_decrypt, law_drawn_stands, law_draws};
use shelf_core::law_files;
use slot_array::law_slots_text;
use table_file::law_accepted;

/// Files without keys and ciphertexts carry the state that has nothing.
pub fn law_empty()
    ensures { EmptyLaw }
{}

/// A line leaves files that carry the state that it makes of the one before: the plain machine's where it is done, and the same
/// where it stops.
pub fn law_carrying()
    ensures { CarryingLaw }
{
    lower();
}

/// From files without keys and ciphertexts, any lines lead to files that carry the state that the plain machine reaches.
pub fn law_history()
    ensures { HistoryLaw }
{
    lower();
}

/// Where the files carry a state, a `decrypt` that is done prints the array that the state has for its ciphertext.
pub fn law_decrypts()
    ensures { DecryptsLaw }
{
    lower();
}

/// What is known of names and files, of texts, of the scheme, of bounds, and of the tables that are accepted.
fn lower()
    ensures { LowerLaws }
{
    law_names();
    law_files();
    law_slots_text();
    law_degree_is_units();
    law_rounding();
    law_form();
    law_bound_of();
    law_draws();
    law_drawn_stands();
    law_ciphers_decrypt();
    law_header();
    law_secret();
    law_public_key();
    law_cipher();
    law_accepted();
}
