//! The reading of a whole table.
ghost use Rattle.std.specs.Prelude.{◌≡◌, bytes_eq, string_bytes, IfOk};
ghost use Rattle.std.specs.BTreeMap.{keys as all_keys};
ghost use Rattle.std.specs.List.{list_all};
ghost use Rattle.line_text.specs.Kinds.{key_word};
ghost use Rattle.table_keys.specs.Documents.{document_of, has_only, is_key, members_of, table_of};
ghost use Rattle.table_keys.specs.Shapes.{IsDocument};
ghost use Rattle.table_keys.specs.Values.{Gives};
ghost use Rattle.toml.specs.View.{table_view};

use crate::documents::TableDocument;
use crate::faults::DocumentFault;
use crate::keys::{dual_of, factor_of, generators_of, m_of, p_of};
use crate::moduli::moduli_of;
use crate::values::word;
use line_text::TableKey;
use std::alloc::Global;
use toml::Table;

/// The keys of a table in order.
const TABLE_KEYS: [TableKey; 10] = [
    TableKey::M,
    TableKey::P,
    TableKey::Factor,
    TableKey::Dual,
    TableKey::Generators,
    TableKey::Weight,
    TableKey::Digits,
    TableKey::Chain,
    TableKey::Special,
    TableKey::Inverse,
];

/// Reads a table, as `document_of` of `specs/Documents.antt` says, want of memory aside.
///
/// The fault is `Text` where the bytes are no document of TOML, and else `Shape` of the first key
/// that fails, in the order of the table's keys, or `Shape(Other)` where a further key is all that
/// is wrong.
#[tactic(auto, unfolding(crate::specs::Documents::document_of))]
pub fn read_document(alloc: Global, bytes: &[u8]) -> Result<TableDocument, DocumentFault>
    ensures gives { Gives (λ document. document) result (document_of bytes.now) }
    ensures shape { IfOk result IsDocument }
{
    let members = members_of(alloc, bytes)?;
    table_of(alloc, &members)
}

/// The document that a text writes.
#[tactic(auto, unfolding(crate::specs::Documents::members_of))]
pub fn members_of(alloc: Global, bytes: &[u8]) -> Result<Table, DocumentFault>
    ensures { Gives table_view result (members_of bytes.now) }
{
    let Ok(text) = std::str::from_utf8(bytes) else {
        return Err(DocumentFault::Text);
    };
    match toml::table_from_str(alloc, text) {
        Ok(members) => Ok(members),
        Err(error) if error.is_memory() => Err(DocumentFault::Memory),
        Err(_) => Err(DocumentFault::Text),
    }
}

/// The table that a document is.
#[tactic(auto, unfolding(crate::specs::Documents::table_of))]
fn table_of(alloc: Global, members: &Table) -> Result<TableDocument, DocumentFault>
    ensures { Gives (λ document. document) result (table_of (table_view members.now)) }
{
    let m = m_of(members)?;
    let p = p_of(members)?;
    let factor = factor_of(alloc, members, p)?;
    let dual = dual_of(alloc, members, p, factor.len() - 1)?;
    let generators = generators_of(alloc, members, m)?;
    let moduli = moduli_of(alloc, members)?;
    if !has_only(members, &TABLE_KEYS) {
        return Err(DocumentFault::Shape(TableKey::Other));
    }
    Ok(TableDocument {
        m,
        p,
        factor,
        dual,
        generators,
        moduli,
    })
}

/// Whether a document has no key but these.
pub fn has_only(members: &Table, keys: &[TableKey]) -> bool
    ensures { result ≡ has_only keys.now (table_view members.now) }
{
    are_keys(members, keys)
}

/// Whether each key of a document is one of these.
fn are_keys(members: &Table, keys: &[TableKey]) -> bool
    ensures { result ≡ list_all (λ key. is_key keys.now (string_bytes key)) (all_keys members.now) }
{
    members.keys().all(|key| is_key(key.as_str(), keys))
}

/// Whether a word is one of the keys.
#[tactic(auto, unfolding(crate::specs::Documents::is_key))]
fn is_key(key: &str, keys: &[TableKey]) -> bool
    ensures { result ≡ is_key keys.now key.now }
{
    keys.iter().any(|known| is_word(*known, key))
}

/// Whether a word is this key's.
fn is_word(key: TableKey, text: &str) -> bool
    ensures { result ≡ bytes_eq text.now (key_word key) }
{
    text == word(key)
}
