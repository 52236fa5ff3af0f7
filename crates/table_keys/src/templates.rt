//! The reading of a template.
ghost use Rattle.std.specs.Prelude.{◌≡◌, IfOk};
ghost use Rattle.std.specs.List.{list_all};
ghost use Rattle.table_keys.specs.Templates.{is_modulus, plain_moduli_at, template_in, template_of, GivesTemplate};
ghost use Rattle.table_keys.specs.Shapes.{IsTemplate};
ghost use Rattle.table_keys.specs.Values.{Gives};
ghost use Rattle.toml.specs.View.{table_view};

use crate::documents::TemplateDocument;
use crate::faults::{DocumentFault, TemplateFault};
use crate::keys::{digits_of, dual_of, factor_of, generators_of, m_of, p_of, weight_of};
use crate::moduli::narrowed;
use crate::tables::{has_only, members_of};
use crate::values::numbers_at;
use line_text::TableKey;
use std::alloc::Global;
use toml::Table;

/// The keys of a template in order.
const TEMPLATE_KEYS: [TableKey; 9] = [
    TableKey::M,
    TableKey::P,
    TableKey::Factor,
    TableKey::Dual,
    TableKey::Generators,
    TableKey::Weight,
    TableKey::Digits,
    TableKey::Chain,
    TableKey::Special,
];

/// Reads a template, as `template_of` of `specs/Templates.antt` says, want of memory aside.
///
/// The fault is `BadTemplate(Text)` where the bytes are no document of TOML, and else
/// `BadTemplate` of the first key that fails, in the order of the template's keys, or
/// `BadTemplate(Other)` where a further key is all that is wrong.
#[tactic(auto, unfolding(crate::specs::Templates::template_of))]
pub fn read_template(alloc: Global, bytes: &[u8]) -> Result<TemplateDocument, TemplateFault>
    ensures gives { GivesTemplate result (template_of bytes.now) }
    ensures shape { IfOk result IsTemplate }
{
    let members = members_of(alloc, bytes)?;
    let template = template_in(alloc, &members)?;
    Ok(template)
}

/// The template that a document is.
#[tactic(auto, unfolding(crate::specs::Templates::template_in))]
fn template_in(alloc: Global, members: &Table) -> Result<TemplateDocument, DocumentFault>
    ensures { Gives (λ template. template) result (template_in (table_view members.now)) }
{
    let m = m_of(members)?;
    let p = p_of(members)?;
    let factor = factor_of(alloc, members, p)?;
    let dual = dual_of(alloc, members, p, factor.len() - 1)?;
    let generators = generators_of(alloc, members, m)?;
    let weight = weight_of(members)?;
    let sizes = digits_of(alloc, members)?;
    let chain = plain_moduli_at(alloc, members, TableKey::Chain, 32)?;
    let digits = narrowed(alloc, sizes.as_slice())?;
    let special = plain_moduli_at(alloc, members, TableKey::Special, 16)?;
    if !has_only(members, &TEMPLATE_KEYS) {
        return Err(DocumentFault::Shape(TableKey::Other));
    }
    Ok(TemplateDocument {
        m,
        p,
        factor,
        dual,
        generators,
        weight,
        digits,
        chain,
        special,
    })
}

/// The list of 1 to `most` odd numbers from 3 to 2^62 - 1 at a key.
#[tactic(auto, unfolding(crate::specs::Templates::plain_moduli_at))]
fn plain_moduli_at(
    alloc: Global,
    members: &Table,
    key: TableKey,
    most: usize,
) -> Result<Vec<u64>, DocumentFault>
    ensures { Gives (λ moduli. moduli.items) result (plain_moduli_at key most (table_view members.now)) }
{
    let moduli = numbers_at(alloc, members, key)?;
    if 1 <= moduli.len() && moduli.len() <= most && are_moduli(moduli.as_slice()) {
        Ok(moduli)
    } else {
        Err(DocumentFault::Shape(key))
    }
}

/// Whether each number is odd and from 3 to 2^62 - 1.
fn are_moduli(numbers: &[u64]) -> bool
    ensures { result ≡ list_all is_modulus numbers.now }
{
    numbers
        .iter()
        .all(|q| 3 <= *q && *q <= (1 << 62) - 1 && *q % 2 == 1)
}
