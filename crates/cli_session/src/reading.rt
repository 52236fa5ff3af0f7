//! The files of a command: each is loaded and then tested at once.
ghost use Rattle.std.specs.Prelude.{◌≡◌, false, length, None, All, IfErr, IfOk, IfSome, IsTrue, OnOk};
ghost use Rattle.shelf_core.specs.Files.{bytes_of};
ghost use Rattle.slot_array.specs.Arrays.{IsArray};
ghost use Rattle.slot_array.specs.SlotsText.{slots_of};
ghost use Rattle.slot_program.specs.Text.{program_of};
ghost use Rattle.slot_program.specs.WellFormed.{IsProgram};
ghost use Rattle.table_file.specs.Accepted.{table_of};
ghost use Rattle.table_file.specs.Shown.{setting_of};
ghost use Rattle.cipher_core.specs.Shown.{setting_of as scheme_setting};
ghost use Rattle.scheme_laws.specs.Scheme.{IsScheme};
ghost use Rattle.cli_session.specs.Parts.{chained_of};
ghost use Rattle.cli_machine.specs.Clauses.{faulted, is_shelf_fault, Counts, Gives, IsOfReading};
ghost use Rattle.cli_machine.specs.Machine.{array_on, arrays_on, chained_on, free, loaded, or_else, program_on, seed_on, table_on};
ghost use Rattle.cli_machine.specs.declared.cause.Cause.TheVariants.{BadProgram, BadSlots, BadTable};

use cipher_core::Scheme;
use cli_machine::{Cause, Names};
use line_text::{FileKind, FileName, Name, read_seed};
use shelf_core::{Held, Loaded, Shelf};
use slot_array::{SlotArray, SlotsFault, read_slots};
use slot_factor::Slots;
use slot_program::{Program, ProgramFault};
use std::alloc::Global;
use table_file::{Table, TableFault, law_accepted};

/// The bytes of a file.
#[tactic(auto, unfolding(cli_machine::specs::Machine::loaded))]
pub fn load<S: Shelf>(alloc: Global, shelf: &mut S, file: &FileName) -> Result<Vec<u8>, Cause>
    ensures tells { S.tells shelf.new ≡ S.tells shelf.old }
    ensures kept { S.files shelf.new ≡ S.files shelf.old }
    ensures gives { IsTrue (S.tells shelf.old) → Gives (λ bytes. bytes.items) result (loaded file.now (S.files shelf.old)) }
    ensures counts { Counts (faulted is_shelf_fault result) (S.faults shelf.old) (S.faults shelf.new) }
    ensures cause { IfErr result IsOfReading }
{
    match shelf.load(alloc, file) {
        Loaded::Found(bytes) => Ok(bytes),
        Loaded::Absent => Err(Cause::NoFile {
            file: file.copy(alloc)?,
        }),
        Loaded::Failed => Err(Cause::ShelfFault { faults: 1 }),
        Loaded::Memory => Err(Cause::Memory),
    }
}

/// Whether a file may be saved: no file of its name is held.
#[tactic(auto, unfolding(cli_machine::specs::Machine::free))]
pub fn free<S: Shelf>(alloc: Global, shelf: &mut S, file: &FileName) -> Result<(), Cause>
    ensures tells { S.tells shelf.new ≡ S.tells shelf.old }
    ensures kept { S.files shelf.new ≡ S.files shelf.old }
    ensures gives { IsTrue (S.tells shelf.old) → Gives (λ u. u) result (free file.now (S.files shelf.old)) }
    ensures free { IsTrue (S.tells shelf.old) → OnOk result (bytes_of file.now (S.files shelf.old) ≡ None) }
    ensures counts { Counts (faulted is_shelf_fault result) (S.faults shelf.old) (S.faults shelf.new) }
    ensures cause { IfErr result IsOfReading }
{
    match shelf.has(alloc, file) {
        Held::No => Ok(()),
        Held::Yes => Err(Cause::NameTaken {
            file: file.copy(alloc)?,
        }),
        Held::Failed => Err(Cause::ShelfFault { faults: 1 }),
        Held::Memory => Err(Cause::Memory),
    }
}

/// The table that a text writes. Where it has moduli, it makes a scheme.
#[tactic(auto, using(crate::proofs::Schemes::accepted_scheme))]
pub fn table_in(alloc: Global, text: &[u8]) -> Result<Table, Cause>
    ensures gives { Gives setting_of result (or_else (λ fault. BadTable fault) (table_of text.now)) }
    ensures counts { faulted is_shelf_fault result ≡ false }
    ensures cause { IfErr result IsOfReading }
    ensures scheme { IfOk result (λ table. IfSome table.scheme (λ s. IsScheme (scheme_setting s))) }
{
    law_accepted();
    match table_file::read_table(alloc, text) {
        Ok(table) => Ok(table),
        Err(TableFault::Memory) => Err(Cause::Memory),
        Err(fault) => Err(Cause::BadTable { fault }),
    }
}

/// Reads the table of this name.
#[tactic(auto, unfolding(cli_machine::specs::Machine::table_on))]
pub fn table<S: Shelf>(alloc: Global, shelf: &mut S, name: &Name) -> Result<Table, Cause>
    ensures tells { S.tells shelf.new ≡ S.tells shelf.old }
    ensures kept { S.files shelf.new ≡ S.files shelf.old }
    ensures gives { IsTrue (S.tells shelf.old) → Gives setting_of result (table_on name.now (S.files shelf.old)) }
    ensures counts { Counts (faulted is_shelf_fault result) (S.faults shelf.old) (S.faults shelf.new) }
    ensures cause { IfErr result IsOfReading }
    ensures scheme { IfOk result (λ table. IfSome table.scheme (λ s. IsScheme (scheme_setting s))) }
{
    let file = FileName {
        name: name.copy(alloc)?,
        kind: FileKind::Table,
    };
    let text = load(alloc, shelf, &file)?;
    table_in(alloc, text.as_slice())
}

/// Reads the table of this name, which is not to be plain, for its scheme.
#[tactic(auto, unfolding(cli_machine::specs::Machine::chained_on))]
pub fn chained<S: Shelf>(alloc: Global, shelf: &mut S, name: &Name) -> Result<Scheme, Cause>
    ensures tells { S.tells shelf.new ≡ S.tells shelf.old }
    ensures kept { S.files shelf.new ≡ S.files shelf.old }
    ensures gives { IsTrue (S.tells shelf.old) → Gives chained_of result (chained_on name.now (S.files shelf.old)) }
    ensures counts { Counts (faulted is_shelf_fault result) (S.faults shelf.old) (S.faults shelf.new) }
    ensures cause { IfErr result IsOfReading }
    ensures scheme { IfOk result (λ s. IsScheme (scheme_setting s)) }
{
    let table = table(alloc, shelf, name)?;
    let scheme = table.scheme;
    match scheme {
        Some(scheme) => Ok(scheme),
        None => Err(Cause::NoChain {
            file: FileName {
                name: name.copy(alloc)?,
                kind: FileKind::Table,
            },
        }),
    }
}

/// Reads the seed of this name.
#[tactic(auto, unfolding(cli_machine::specs::Machine::seed_on))]
pub fn seed<S: Shelf>(alloc: Global, shelf: &mut S, name: &Name) -> Result<[u8; 32], Cause>
    ensures tells { S.tells shelf.new ≡ S.tells shelf.old }
    ensures kept { S.files shelf.new ≡ S.files shelf.old }
    ensures gives { IsTrue (S.tells shelf.old) → Gives (λ seed. seed) result (seed_on name.now (S.files shelf.old)) }
    ensures counts { Counts (faulted is_shelf_fault result) (S.faults shelf.old) (S.faults shelf.new) }
    ensures cause { IfErr result IsOfReading }
{
    let file = FileName {
        name: name.copy(alloc)?,
        kind: FileKind::Seed,
    };
    let text = load(alloc, shelf, &file)?;
    read_seed(text.as_slice()).ok_or(Cause::BadSeed)
}

/// The program that a text writes.
fn program_in(alloc: Global, slots: &Slots, text: &[u8]) -> Result<Program, Cause>
    ensures gives { Gives (λ program. program) result
        (or_else (λ line. BadProgram line) (program_of slots.now.field slots.now.cube text.now)) }
    ensures counts { faulted is_shelf_fault result ≡ false }
    ensures cause { IfErr result IsOfReading }
    ensures program { IfOk result (λ program. IsProgram slots.now.field slots.now.cube program) }
{
    match slot_program::read(alloc, slots.cube(), slots.ext(), text) {
        Ok(program) => Ok(program),
        Err(ProgramFault::Bad(line)) => Err(Cause::BadProgram { line }),
        Err(ProgramFault::Memory) => Err(Cause::Memory),
    }
}

/// Reads the program of this name.
#[tactic(auto, unfolding(cli_machine::specs::Machine::program_on))]
pub fn program<S: Shelf>(
    alloc: Global,
    shelf: &mut S,
    slots: &Slots,
    name: &Name,
) -> Result<Program, Cause>
    ensures tells { S.tells shelf.new ≡ S.tells shelf.old }
    ensures kept { S.files shelf.new ≡ S.files shelf.old }
    ensures gives { IsTrue (S.tells shelf.old) → Gives (λ program. program) result (program_on slots.now name.now (S.files shelf.old)) }
    ensures counts { Counts (faulted is_shelf_fault result) (S.faults shelf.old) (S.faults shelf.new) }
    ensures cause { IfErr result IsOfReading }
    ensures program { IfOk result (λ program. IsProgram slots.now.field slots.now.cube program) }
{
    let file = FileName {
        name: name.copy(alloc)?,
        kind: FileKind::Prog,
    };
    let text = load(alloc, shelf, &file)?;
    program_in(alloc, slots, text.as_slice())
}

/// The array that a text writes.
fn array_in(alloc: Global, slots: &Slots, text: &[u8]) -> Result<SlotArray, Cause>
    ensures gives { Gives (λ array. array) result
        (or_else (λ line. BadSlots line) (slots_of slots.now.field slots.now.cube text.now)) }
    ensures counts { faulted is_shelf_fault result ≡ false }
    ensures cause { IfErr result IsOfReading }
    ensures array { IfOk result (λ array. IsArray slots.now.field slots.now.cube array) }
{
    match read_slots(alloc, slots.cube(), slots.ext(), text) {
        Ok(array) => Ok(array),
        Err(SlotsFault::Bad(line)) => Err(Cause::BadSlots { line }),
        Err(SlotsFault::Memory) => Err(Cause::Memory),
    }
}

/// Reads the array of this name.
#[tactic(auto, unfolding(cli_machine::specs::Machine::array_on))]
pub fn array<S: Shelf>(
    alloc: Global,
    shelf: &mut S,
    slots: &Slots,
    name: &Name,
) -> Result<SlotArray, Cause>
    ensures tells { S.tells shelf.new ≡ S.tells shelf.old }
    ensures kept { S.files shelf.new ≡ S.files shelf.old }
    ensures gives { IsTrue (S.tells shelf.old) → Gives (λ array. array) result (array_on slots.now name.now (S.files shelf.old)) }
    ensures counts { Counts (faulted is_shelf_fault result) (S.faults shelf.old) (S.faults shelf.new) }
    ensures cause { IfErr result IsOfReading }
    ensures array { IfOk result (λ array. IsArray slots.now.field slots.now.cube array) }
{
    let file = FileName {
        name: name.copy(alloc)?,
        kind: FileKind::Slots,
    };
    let text = load(alloc, shelf, &file)?;
    array_in(alloc, slots, text.as_slice())
}

/// Reads the arrays of these names, in order.
pub fn arrays<S: Shelf>(
    alloc: Global,
    shelf: &mut S,
    slots: &Slots,
    names: &Names,
) -> Result<Vec<SlotArray>, Cause>
    ensures tells { S.tells shelf.new ≡ S.tells shelf.old }
    ensures kept { S.files shelf.new ≡ S.files shelf.old }
    ensures gives { IsTrue (S.tells shelf.old) → Gives (λ arrays. arrays.items) result (arrays_on slots.now names.now (S.files shelf.old)) }
    ensures counts { Counts (faulted is_shelf_fault result) (S.faults shelf.old) (S.faults shelf.new) }
    ensures cause { IfErr result IsOfReading }
    ensures length { IfOk result (λ arrays. length arrays.items ≡ length names.now) }
    ensures arrays { IfOk result (λ arrays. All (λ array. IsArray slots.now.field slots.now.cube array) arrays.items) }
{
    let names = names.names();
    let mut arrays = Vec::new(alloc);
    for name in names {
        arrays.push(array(alloc, shelf, slots, name)?)?;
    }
    Ok(arrays)
}
