//! The command `clear`.
ghost use Rattle.std.specs.Prelude.{◌≡◌, false, IfErr, IfOk, IsTrue};
ghost use Rattle.cli_machine.specs.Clauses.{faulted, is_shelf_fault, Counts, Gives, IsFree, IsOfReading};
ghost use Rattle.cli_machine.specs.Effects.{left_by};
ghost use Rattle.cli_machine.specs.Machine.{clear_on, matched};

use crate::reading::{arrays, program, table};
use cli_machine::{Cause, Effect, Names, Text};
use line_text::Name;
use packed_clear::run_clear;
use shelf_core::Shelf;
use slot_array::print_slots;
use std::alloc::Global;

/// `clear T PROG X ..`.
#[tactic(auto, unfolding(cli_machine::specs::Machine::clear_on))]
pub fn clear<S: Shelf>(
    alloc: Global,
    shelf: &mut S,
    table_name: &Name,
    program_name: &Name,
    names: &Names,
) -> Result<Effect, Cause>
    ensures tells { S.tells shelf.new ≡ S.tells shelf.old }
    ensures kept { S.files shelf.new ≡ S.files shelf.old }
    ensures gives { IsTrue (S.tells shelf.old) → Gives left_by result (clear_on table_name.now program_name.now names.now (S.files shelf.old)) }
    ensures free { IsTrue (S.tells shelf.old) → IfOk result (λ effect. IsFree effect (S.files shelf.old)) }
    ensures counts { Counts (faulted is_shelf_fault result) (S.faults shelf.old) (S.faults shelf.new) }
    ensures cause { IfErr result IsOfReading }
{
    let table = table(alloc, shelf, table_name)?;
    let slots = table.slots.as_ref();
    let program = program(alloc, shelf, slots, program_name)?;
    let inputs = arrays(alloc, shelf, slots, names)?;
    match_inputs(names.len(), program.inputs())?;
    let output = run_clear(alloc, slots, &table.cyclo, &program, inputs.as_slice())?;
    let text = print_slots(alloc, &output)?;
    Ok(Effect::Prints(Text::new(text)))
}

/// Whether as many inputs are given as the program names.
#[tactic(auto, unfolding(cli_machine::specs::Machine::matched))]
fn match_inputs(given: usize, named: u32) -> Result<(), Cause>
    ensures gives { Gives (λ u. u) result (matched given named) }
    ensures counts { faulted is_shelf_fault result ≡ false }
    ensures cause { IfErr result IsOfReading }
    ensures same { IfOk result (λ _. given ≡ named) }
{
    let given = given as u64;
    if given == u64::from(named) {
        Ok(())
    } else {
        Err(Cause::Arity { given, named })
    }
}
