//! The commands of tables.
ghost use Rattle.std.specs.Prelude.{◌≡◌, false, IfErr, IfOk, IsTrue, Ok};
ghost use Rattle.cli_machine.specs.Clauses.{faulted, is_shelf_fault, Counts, Fills, Gives, IsFree, IsOfReading, Meets};
ghost use Rattle.cli_machine.specs.Effects.{left_by};
ghost use Rattle.cli_machine.specs.Machine.{make_table_on, or_template, summarise_on, template_on};
ghost use Rattle.cli_machine.specs.declared.effect.Effect.TheVariants.{Saves};
ghost use Rattle.cli_session.specs.Parts.{save_table_on};
ghost use Rattle.table_keys.specs.Documents.{Document, document_of};
ghost use Rattle.table_maker.specs.Filled.{filled_of};

use crate::reading::{free, load, table, table_in};
use cli_machine::{Cause, Effect, Text};
use line_text::{FileKind, FileName, Name};
use shelf_core::Shelf;
use std::alloc::Global;
use table_file::summary;
use table_maker::{MakeFault, make};

/// `table T`.
#[tactic(auto, unfolding(cli_machine::specs::Machine::summarise_on))]
pub fn summarise<S: Shelf>(alloc: Global, shelf: &mut S, table_name: &Name) -> Result<Effect, Cause>
    ensures tells { S.tells shelf.new ≡ S.tells shelf.old }
    ensures kept { S.files shelf.new ≡ S.files shelf.old }
    ensures gives { IsTrue (S.tells shelf.old) → Gives left_by result (summarise_on table_name.now (S.files shelf.old)) }
    ensures free { IsTrue (S.tells shelf.old) → IfOk result (λ effect. IsFree effect (S.files shelf.old)) }
    ensures counts { Counts (faulted is_shelf_fault result) (S.faults shelf.old) (S.faults shelf.new) }
    ensures cause { IfErr result IsOfReading }
{
    let table = table(alloc, shelf, table_name)?;
    let text = summary(alloc, &table)?;
    Ok(Effect::Prints(Text::new(text)))
}

/// `maketable SRC T`.
#[tactic(auto, unfolding(cli_machine::specs::Machine::make_table_on, crate::specs::Parts::save_table_on))]
pub fn make_table<S: Shelf>(
    alloc: Global,
    shelf: &mut S,
    source: &Name,
    table: &Name,
) -> Result<Effect, Cause>
    ensures tells { S.tells shelf.new ≡ S.tells shelf.old }
    ensures kept { S.files shelf.new ≡ S.files shelf.old }
    ensures gives { IsTrue (S.tells shelf.old) → Meets result (make_table_on source.now table.now (S.files shelf.old)) }
    ensures free { IsTrue (S.tells shelf.old) → IfOk result (λ effect. IsFree effect (S.files shelf.old)) }
    ensures counts { Counts (faulted is_shelf_fault result) (S.faults shelf.old) (S.faults shelf.new) }
    ensures cause { IfErr result IsOfReading }
{
    let filled = template(alloc, shelf, source)?;
    let file = FileName {
        name: table.copy(alloc)?,
        kind: FileKind::Table,
    };
    free(alloc, shelf, &file)?;
    match filled {
        Ok(text) => save_table(alloc, file, text),
        Err(i) => Err(Cause::NoRoot { i }),
    }
}

/// Saves the text of a table, where the table passes the checks of tables.
#[tactic(auto, unfolding(crate::specs::Parts::save_table_on), using(crate::proofs::Making::table_of_text))]
fn save_table(alloc: Global, file: FileName, text: Vec<u8>) -> Result<Effect, Cause>
    ensures gives { (table : Document) → document_of text.items ≡ Ok table → Meets result (save_table_on file table) }
    ensures file { IfOk result (λ effect. effect ≡ Saves file text.items) }
    ensures counts { faulted is_shelf_fault result ≡ false }
    ensures cause { IfErr result IsOfReading }
{
    table_in(alloc, text.as_slice())?;
    Ok(Effect::Saves {
        file,
        text: Text::new(text),
    })
}

/// Reads the template of this name and fills it in. Where a modulus has no roots, the first such is
/// answered in place of the table.
#[tactic(auto, unfolding(cli_machine::specs::Machine::template_on))]
fn template<S: Shelf>(
    alloc: Global,
    shelf: &mut S,
    name: &Name,
) -> Result<Result<Vec<u8>, u32>, Cause>
    ensures tells { S.tells shelf.new ≡ S.tells shelf.old }
    ensures kept { S.files shelf.new ≡ S.files shelf.old }
    ensures gives { IsTrue (S.tells shelf.old) → Fills (λ text. text.items) result (template_on name.now (S.files shelf.old)) }
    ensures counts { Counts (faulted is_shelf_fault result) (S.faults shelf.old) (S.faults shelf.new) }
    ensures cause { IfErr result IsOfReading }
{
    let file = FileName {
        name: name.copy(alloc)?,
        kind: FileKind::Template,
    };
    let text = load(alloc, shelf, &file)?;
    fill(alloc, text.as_slice())
}

/// Fills in the template that a text writes.
fn fill(alloc: Global, text: &[u8]) -> Result<Result<Vec<u8>, u32>, Cause>
    ensures gives { Fills (λ text. text.items) result (or_template (filled_of text.now)) }
    ensures counts { faulted is_shelf_fault result ≡ false }
    ensures cause { IfErr result IsOfReading }
{
    match make(alloc, text) {
        Ok(table) => Ok(Ok(table)),
        Err(MakeFault::NoRoot(i)) => Ok(Err(i)),
        Err(MakeFault::BadTemplate(key)) => Err(Cause::BadTemplate { key }),
        Err(MakeFault::Memory) => Err(Cause::Memory),
    }
}
