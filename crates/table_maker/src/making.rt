//! The making of a table.
ghost use Rattle.std.specs.Prelude.{◌≡◌, map, IfOk};
ghost use Rattle.table_keys.specs.Shapes.{IsDocument, IsTemplate};
ghost use Rattle.table_maker.specs.Faults.{Gives};
ghost use Rattle.table_maker.specs.Filled.{filled, filled_of, inverses_of, moduli_of, row_for, with_rows, Makes};

use crate::faults::MakeFault;
use crate::moduli::{inverses, rows};
use std::alloc::{AllocError, Global};
use table_keys::{
    ModuliDocument, RowDocument, TableDocument, TemplateDocument, read_template, write_document,
};

/// Fills a template, as `filled_of` of `specs/Filled.antt` says, want of memory aside: the text is read as the table that
/// the template is filled to.
///
/// Each modulus q becomes the list `[q, zeta, psi, plain inverse]`, with the roots by the least base from 2 to 1000 that
/// passes, and list j of the key `inverse` has the inverses modulo modulus j of the moduli before it. An inverse that does
/// not exist is 0, which the checks of a table refuse later. With m = 7 and p = 2 the chain `[113]` and the special modulus
/// `[337]` give `[113, 7, 40, 1]`, `[337, 285, 191, 1]` and the inverses `[[], [170]]`; with the chain `[15]` the fault is
/// `NoRoot(0)`.
#[tactic(auto, unfolding(crate::specs::Filled::filled_of))]
pub fn make(alloc: Global, bytes: &[u8]) -> Result<Vec<u8>, MakeFault>
    ensures { Makes (λ text. text.items) result (filled_of bytes.now) }
{
    let template = read_template(alloc, bytes)?;
    let document = filled(alloc, template)?;
    let text = write_document(alloc, &document)?;
    Ok(text)
}

/// The table that a template is filled to, or the fault of the first modulus that has no roots.
fn filled(alloc: Global, template: TemplateDocument) -> Result<TableDocument, MakeFault>
    requires { IsTemplate template }
    ensures gives { Gives (λ document. document) result (filled template) }
    ensures shape { IfOk result IsDocument }
{
    let moduli = moduli_of(alloc, &template)?;
    let rows = rows(alloc, template.m, template.p, moduli.as_slice())?;
    let (chain, special) = rows.as_slice().split_at(template.chain.len());
    let chain = Vec::from_slice(alloc, chain)?;
    let special = Vec::from_slice(alloc, special)?;
    let inverse = inverses(alloc, moduli.as_slice())?;
    Ok(with_rows(template, chain, special, inverse))
}

/// The moduli of a template, those of the chain first.
fn moduli_of(alloc: Global, template: &TemplateDocument) -> Result<Vec<u64>, AllocError>
    ensures { IfOk result (λ moduli. moduli.items ≡ moduli_of template.now) }
{
    let mut moduli = Vec::from_slice(alloc, template.chain.as_slice())?;
    moduli.extend_from_slice(template.special.as_slice())?;
    Ok(moduli)
}

/// The template with these rows and inverses.
#[tactic(auto, unfolding(crate::specs::Filled::with_rows))]
fn with_rows(
    template: TemplateDocument,
    chain: Vec<RowDocument>,
    special: Vec<RowDocument>,
    inverse: Vec<Vec<u64>>,
) -> TableDocument
    requires chain { chain.items ≡ map (row_for template.m template.p) template.chain }
    requires special { special.items ≡ map (row_for template.m template.p) template.special }
    requires inverse { map (λ list. list.items) inverse.items ≡ inverses_of (moduli_of template) }
    ensures { result ≡ with_rows template }
{
    TableDocument {
        m: template.m,
        p: template.p,
        factor: template.factor,
        dual: template.dual,
        generators: template.generators,
        moduli: Some(ModuliDocument {
            weight: template.weight,
            digits: template.digits,
            chain,
            special,
            inverse,
        }),
    }
}
