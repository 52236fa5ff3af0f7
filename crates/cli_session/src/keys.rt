//! The commands `keygen` and `pubkey`.
ghost use Rattle.std.specs.Prelude.{◌≡◌, false, IfErr, IfOk, IsTrue};
ghost use Rattle.he_files.specs.PublicFile.{public_bytes};
ghost use Rattle.he_files.specs.Secret.{secret_bytes};
ghost use Rattle.residue_rows.specs.Kept.{IsSetting};
ghost use Rattle.scheme_laws.specs.Keys.{public_drawn, secret_drawn, IsSecret};
ghost use Rattle.cli_machine.specs.Clauses.{faulted, is_shelf_fault, Counts, Gives, IsFree, IsOfReading};
ghost use Rattle.cli_machine.specs.Effects.{left_by};
ghost use Rattle.cli_machine.specs.Machine.{draws_of, key_gen_on, pub_key_on};

use crate::opening::first_secret;
use crate::reading::{chained, free, seed};
use cli_machine::{Cause, Effect, Text};
use cyclotomic::polynomials::law_degree_is_units;
use double_crt::RingTables;
use draw_stream::Draws;
use he_files::{Header, write_public, write_secret};
use key_gen::{public, secret};
use key_switch::Secret;
use line_text::{FileKind, FileName, Name};
use shelf_core::Shelf;
use std::alloc::{AllocError, Global};
use std::rc::Rc;

/// `keygen T K SEED STREAM`.
#[tactic(auto, unfolding(cli_machine::specs::Machine::key_gen_on))]
pub fn key_gen<S: Shelf>(
    alloc: Global,
    shelf: &mut S,
    table: &Name,
    key: &Name,
    seed_name: &Name,
    stream: u64,
) -> Result<Effect, Cause>
    ensures tells { S.tells shelf.new ≡ S.tells shelf.old }
    ensures kept { S.files shelf.new ≡ S.files shelf.old }
    ensures gives { IsTrue (S.tells shelf.old) → Gives left_by result (key_gen_on table.now key.now seed_name.now stream (S.files shelf.old)) }
    ensures free { IsTrue (S.tells shelf.old) → IfOk result (λ effect. IsFree effect (S.files shelf.old)) }
    ensures counts { Counts (faulted is_shelf_fault result) (S.faults shelf.old) (S.faults shelf.new) }
    ensures cause { IfErr result IsOfReading }
{
    let scheme = chained(alloc, shelf, table)?;
    let seed = seed(alloc, shelf, seed_name)?;
    let file = FileName {
        name: key.copy(alloc)?,
        kind: FileKind::Secret,
    };
    free(alloc, shelf, &file)?;
    let header = Header {
        table: table.copy(alloc)?,
        key: key.copy(alloc)?,
    };
    let text = secret_text(alloc, &scheme.tables, &header, seed, stream)?;
    Ok(Effect::Saves {
        file,
        text: Text::new(text),
    })
}

/// The file of the secret that a stream of a seed gives.
#[tactic(auto, using(crate::proofs::Rooms::secret_room))]
fn secret_text(
    alloc: Global,
    tables: &Rc<RingTables>,
    header: &Header,
    seed: [u8; 32],
    stream: u64,
) -> Result<Vec<u8>, AllocError>
    requires { IsSetting tables.now.value }
    ensures { IfOk result (λ text. text.items ≡ secret_bytes header.now (secret_drawn tables.now.value (draws_of seed stream))) }
{
    law_degree_is_units();
    let secret = secret(alloc, tables, &mut Draws::new(seed, stream))?;
    write_secret(alloc, header, &secret)
}

/// `pubkey K SEED STREAM`.
#[tactic(auto, unfolding(cli_machine::specs::Machine::pub_key_on))]
pub fn pub_key<S: Shelf>(
    alloc: Global,
    shelf: &mut S,
    key: &Name,
    seed_name: &Name,
    stream: u64,
) -> Result<Effect, Cause>
    ensures tells { S.tells shelf.new ≡ S.tells shelf.old }
    ensures kept { S.files shelf.new ≡ S.files shelf.old }
    ensures gives { IsTrue (S.tells shelf.old) → Gives left_by result (pub_key_on key.now seed_name.now stream (S.files shelf.old)) }
    ensures free { IsTrue (S.tells shelf.old) → IfOk result (λ effect. IsFree effect (S.files shelf.old)) }
    ensures counts { Counts (faulted is_shelf_fault result) (S.faults shelf.old) (S.faults shelf.new) }
    ensures cause { IfErr result IsOfReading }
{
    let opened = first_secret(alloc, shelf, key)?;
    let seed = seed(alloc, shelf, seed_name)?;
    let file = FileName {
        name: key.copy(alloc)?,
        kind: FileKind::Public,
    };
    free(alloc, shelf, &file)?;
    let tables = &opened.scheme.tables;
    let text = public_text(alloc, tables, &opened.header, &opened.value, seed, stream)?;
    Ok(Effect::Saves {
        file,
        text: Text::new(text),
    })
}

/// The file of the public key of a secret that a stream of a seed gives.
#[tactic(auto, using(crate::proofs::Rooms::public_room))]
fn public_text(
    alloc: Global,
    tables: &Rc<RingTables>,
    header: &Header,
    secret: &Secret,
    seed: [u8; 32],
    stream: u64,
) -> Result<Vec<u8>, AllocError>
    requires setting { IsSetting tables.now.value }
    requires secret { IsSecret tables.now.value secret.now.coeffs.items }
    ensures { IfOk result (λ text. text.items ≡ public_bytes tables.now.value header.now
        (public_drawn tables.now.value secret.now.coeffs.items (draws_of seed stream))) }
{
    law_degree_is_units();
    let public = public(alloc, tables, secret, &mut Draws::new(seed, stream))?;
    write_public(alloc, header, &public)
}
