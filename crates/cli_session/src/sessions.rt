//! The one call that does what the program does, over any shelf and any sink.
ghost use Rattle.std.specs.Prelude.{◌≡◌, false, map, IfErr, IfOk, IsTrue, Ok, string_bytes};
ghost use Rattle.cli_machine.specs.Clauses.{faulted, is_shelf_fault, is_sink_fault, outcome_of, Adds, Counts, IsFree, IsOfReading, IsOneFault, IsOwnStop, Leaves, Meets, Shows};
ghost use Rattle.cli_machine.specs.Effects.{left_by};
ghost use Rattle.cli_machine.specs.Machine.{command_on, line_on};
ghost use Rattle.cli_machine.specs.Plain.{ClearPrints};
ghost use Rattle.plain_machine.specs.CarryingLaws.{Reaches, PrintsReached};

use crate::ciphers::{decrypt, encrypt, noise};
use crate::clearing::clear;
use crate::keys::{key_gen, pub_key};
use crate::tables::{make_table, summarise};
use cli_machine::{Cause, Command, Effect, Status, command_of};
use plain_machine::{law_carrying, law_decrypts, law_history};
use shelf_core::{Put, Saved, Shelf, Sink};
use std::alloc::Global;

/// Runs the program's words, one command, over a shelf of files, and prints on a sink.
pub fn session<S: Shelf, O: Sink>(
    alloc: Global,
    words: &Vec<String>,
    shelf: &mut S,
    out: &mut O,
) -> Status
    ensures leaves { IsTrue (S.tells shelf.old)
        → Leaves (outcome_of result) (line_on (map string_bytes words.now.items) (S.files shelf.old)) (S.files shelf.old) (S.files shelf.new) }
    ensures shows { IsTrue (S.tells shelf.old) → IsTrue (O.tells out.old)
        → Shows (outcome_of result) (line_on (map string_bytes words.now.items) (S.files shelf.old)) (O.bytes out.old) (O.bytes out.new) }

    // What a `clear` that is done has printed is the meaning of its program on its arrays.
    ensures clear { IsTrue (S.tells shelf.old) → IsTrue (O.tells out.old)
        → ClearPrints (map string_bytes words.now.items) (S.files shelf.old) result (O.bytes out.old) (O.bytes out.new) }

    // From files without keys and ciphertexts, by any lines before this one, done or not, the plain machine goes on: the files
    // carry its state after this line, and what a `decrypt` that is done has printed is its array.
    ensures carries { IsTrue (S.tells shelf.old)
        → Reaches (map string_bytes words.now.items) (outcome_of result) (S.files shelf.old) (S.files shelf.new) }
    ensures decrypts { IsTrue (S.tells shelf.old) → IsTrue (O.tells out.old)
        → PrintsReached (map string_bytes words.now.items) result (S.files shelf.old) (O.bytes out.old) (O.bytes out.new) }

    ensures shelf_counts { Counts (faulted is_shelf_fault (outcome_of result)) (S.faults shelf.old) (S.faults shelf.new) }
    ensures sink_counts { Counts (faulted is_sink_fault (outcome_of result)) (O.faults out.old) (O.faults out.new) }

    // What tells goes on telling.
    ensures shelf_tells { S.tells shelf.new ≡ S.tells shelf.old }
    ensures sink_tells { O.tells out.new ≡ O.tells out.old }

    // Whatever the shelf holds.
    ensures quiet { IsTrue (O.tells out.old) → Adds (outcome_of result) (O.bytes out.old) (O.bytes out.new) }
    ensures own { IsOwnStop result }
{
    law_carrying();
    law_history();
    law_decrypts();
    one_line(alloc, words.as_slice(), shelf, out)
}

/// The same, but for what it means.
fn one_line<S: Shelf, O: Sink>(
    alloc: Global,
    words: &[String],
    shelf: &mut S,
    out: &mut O,
) -> Status
    ensures shelf_tells { S.tells shelf.new ≡ S.tells shelf.old }
    ensures sink_tells { O.tells out.new ≡ O.tells out.old }
    ensures leaves { IsTrue (S.tells shelf.old)
        → Leaves (outcome_of result) (line_on (map string_bytes words.now) (S.files shelf.old)) (S.files shelf.old) (S.files shelf.new) }
    ensures shows { IsTrue (S.tells shelf.old) → IsTrue (O.tells out.old)
        → Shows (outcome_of result) (line_on (map string_bytes words.now) (S.files shelf.old)) (O.bytes out.old) (O.bytes out.new) }
    ensures shelf_counts { Counts (faulted is_shelf_fault (outcome_of result)) (S.faults shelf.old) (S.faults shelf.new) }
    ensures sink_counts { Counts (faulted is_sink_fault (outcome_of result)) (O.faults out.old) (O.faults out.new) }
    ensures quiet { IsTrue (O.tells out.old) → Adds (outcome_of result) (O.bytes out.old) (O.bytes out.new) }
    ensures own { IsOwnStop result }
{
    match line(alloc, words, shelf, out) {
        Ok(()) => Status::Done,
        Err(cause) => Status::Stopped { line: 0, cause },
    }
}

/// One line: all that it reads, and then its effect.
#[tactic(auto, unfolding(cli_machine::specs::Machine::line_on), using(crate::proofs::ClauseLaws::cause_facts))]
fn line<S: Shelf, O: Sink>(
    alloc: Global,
    words: &[String],
    shelf: &mut S,
    out: &mut O,
) -> Result<(), Cause>
    ensures shelf_tells { S.tells shelf.new ≡ S.tells shelf.old }
    ensures sink_tells { O.tells out.new ≡ O.tells out.old }
    ensures leaves { IsTrue (S.tells shelf.old)
        → Leaves result (line_on (map string_bytes words.now) (S.files shelf.old)) (S.files shelf.old) (S.files shelf.new) }
    ensures shows { IsTrue (S.tells shelf.old) → IsTrue (O.tells out.old)
        → Shows result (line_on (map string_bytes words.now) (S.files shelf.old)) (O.bytes out.old) (O.bytes out.new) }
    ensures shelf_counts { Counts (faulted is_shelf_fault result) (S.faults shelf.old) (S.faults shelf.new) }
    ensures sink_counts { Counts (faulted is_sink_fault result) (O.faults out.old) (O.faults out.new) }
    ensures quiet { IsTrue (O.tells out.old) → Adds result (O.bytes out.old) (O.bytes out.new) }
    ensures own { IfErr result IsOneFault }
{
    let Some(command) = command_of(alloc, words)? else {
        return Err(Cause::Words);
    };
    let effect = effect_of(alloc, shelf, &command)?;
    act(alloc, &effect, shelf, out)
}

/// What a command is to leave behind, of the files that it reads.
fn effect_of<S: Shelf>(alloc: Global, shelf: &mut S, command: &Command) -> Result<Effect, Cause>
    ensures tells { S.tells shelf.new ≡ S.tells shelf.old }
    ensures kept { S.files shelf.new ≡ S.files shelf.old }
    ensures gives { IsTrue (S.tells shelf.old) → Meets result (command_on command.now (S.files shelf.old)) }
    ensures free { IsTrue (S.tells shelf.old) → IfOk result (λ effect. IsFree effect (S.files shelf.old)) }
    ensures counts { Counts (faulted is_shelf_fault result) (S.faults shelf.old) (S.faults shelf.new) }
    ensures cause { IfErr result IsOfReading }
{
    match command {
        Command::Clear {
            table,
            program,
            inputs,
        } => clear(alloc, shelf, table, program, inputs),
        Command::Summarise { table } => summarise(alloc, shelf, table),
        Command::MakeTable { source, table } => make_table(alloc, shelf, source, table),
        Command::KeyGen {
            table,
            key,
            seed,
            stream,
        } => key_gen(alloc, shelf, table, key, seed, *stream),
        Command::PubKey { key, seed, stream } => pub_key(alloc, shelf, key, seed, *stream),
        Command::Encrypt {
            key,
            cipher,
            seed,
            stream,
            input,
        } => encrypt(alloc, shelf, key, cipher, seed, *stream, input),
        Command::Decrypt { key, cipher } => decrypt(alloc, shelf, key, cipher),
        Command::Noise { cipher } => noise(alloc, shelf, cipher),
    }
}

/// Does what an effect says, by one call.
#[tactic(auto, using(crate::proofs::ClauseLaws::goes_on, crate::proofs::ClauseLaws::goes_on_front, crate::proofs::ClauseLaws::stays))]
fn act<S: Shelf, O: Sink>(
    alloc: Global,
    effect: &Effect,
    shelf: &mut S,
    out: &mut O,
) -> Result<(), Cause>
    requires { IsTrue (S.tells shelf.old) → IsFree effect.now (S.files shelf.old) }
    ensures shelf_tells { S.tells shelf.new ≡ S.tells shelf.old }
    ensures sink_tells { O.tells out.new ≡ O.tells out.old }
    ensures leaves { IsTrue (S.tells shelf.old) → Leaves result (Ok (left_by effect.now)) (S.files shelf.old) (S.files shelf.new) }
    ensures shows { IsTrue (O.tells out.old) → Shows result (Ok (left_by effect.now)) (O.bytes out.old) (O.bytes out.new) }
    ensures shelf_counts { Counts (faulted is_shelf_fault result) (S.faults shelf.old) (S.faults shelf.new) }
    ensures sink_counts { Counts (faulted is_sink_fault result) (O.faults out.old) (O.faults out.new) }
    ensures quiet { IsTrue (O.tells out.old) → Adds result (O.bytes out.old) (O.bytes out.new) }
    ensures own { IfErr result IsOneFault }
{
    match effect {
        Effect::Prints(piece) => match out.put(alloc, piece.bytes()) {
            Put::Done => Ok(()),
            Put::Failed => Err(Cause::SinkFault { faults: 1 }),
            Put::Memory => Err(Cause::Memory),
        },
        Effect::Saves { file, text } => match shelf.save(alloc, file, text.bytes()) {
            Saved::Done => Ok(()),
            Saved::Failed => Err(Cause::ShelfFault { faults: 1 }),
            Saved::Memory => Err(Cause::Memory),
        },
    }
}
