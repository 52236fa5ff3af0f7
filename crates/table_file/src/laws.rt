//! What is known of accepted tables.
ghost use Rattle.table_file.specs.SchemeLaw.{AcceptedIsScheme};

use cyclotomic::polynomials::law_degree_is_units;
use table_keys::law_documents;

/// The ring and the slots of each accepted table that has moduli make a scheme, of which the laws of keys and ciphertexts
/// speak: its moduli have passed their checks, the weight is at most the degree, and each slot is held once.
pub fn law_accepted()
    ensures { AcceptedIsScheme }
{
    law_documents();
    law_degree_is_units();
    hyper_cube::law_checks();
    ext_field::law_checks();
    moduli_table::laws::law_checks();
}
