//! The commands `encrypt`, `decrypt` and `noise`.
ghost use Rattle.std.specs.Prelude.{◌≡◌, ◌<◌, false, IfErr, IfOk, IsTrue, Ok, Err, OnOk};
ghost use Rattle.cipher_core.specs.Shown.{cipher_of, setting_of, ArePartsUnder};
ghost use Rattle.he_files.specs.CipherFile.{cipher_bytes};
ghost use Rattle.key_switch.specs.Shown.{key_of, IsPublicUnder};
ghost use Rattle.noise_bound.specs.Value.{value};
ghost use Rattle.scheme_laws.specs.Ciphers.{decrypted, encryption_drawn};
ghost use Rattle.scheme_laws.specs.Scheme.{sizes_of, IsScheme};
ghost use Rattle.slot_array.specs.Arrays.{IsArray};
ghost use Rattle.slot_array.specs.SlotsText.{slots_text};
ghost use Rattle.cli_machine.specs.Clauses.{faulted, is_excused, is_shelf_fault, Counts, Gives, IsFree, IsOfReading};
ghost use Rattle.cli_machine.specs.Effects.{left_by};
ghost use Rattle.cli_machine.specs.Machine.{decrypt_on, draws_of, encrypt_on, noise_on, noise_text, quiet};
ghost use Rattle.cli_session.specs.Parts.{opened_of, save_cipher_on};

use crate::found::Opened;
use crate::opening::{first_cipher, first_public, first_secret, later_cipher};
use crate::reading::{array, free, seed};
use cipher_core::{Cipher, CipherFault, Scheme};
use cli_machine::{Cause, Effect, Text};
use cyclotomic::polynomials::law_degree_is_units;
use draw_stream::Draws;
use he_files::write_cipher;
use key_switch::Public;
use line_text::{FileKind, FileName, Name, put_number};
use noise_bound::law_bound_of;
use shelf_core::Shelf;
use slot_array::{SlotArray, print_slots};
use std::alloc::{AllocError, Global};
use table_file::put_bounded;

/// `encrypt K C SEED STREAM X`.
#[tactic(auto, unfolding(cli_machine::specs::Machine::encrypt_on))]
pub fn encrypt<S: Shelf>(
    alloc: Global,
    shelf: &mut S,
    key: &Name,
    cipher: &Name,
    seed_name: &Name,
    stream: u64,
    input: &Name,
) -> Result<Effect, Cause>
    ensures tells { S.tells shelf.new ≡ S.tells shelf.old }
    ensures kept { S.files shelf.new ≡ S.files shelf.old }
    ensures gives { IsTrue (S.tells shelf.old) → Gives left_by result (encrypt_on key.now cipher.now seed_name.now stream input.now (S.files shelf.old)) }
    ensures free { IsTrue (S.tells shelf.old) → IfOk result (λ effect. IsFree effect (S.files shelf.old)) }
    ensures counts { Counts (faulted is_shelf_fault result) (S.faults shelf.old) (S.faults shelf.new) }
    ensures cause { IfErr result IsOfReading }
{
    let opened = first_public(alloc, shelf, key)?;
    let seed = seed(alloc, shelf, seed_name)?;
    let array = array(alloc, shelf, opened.scheme.slots.as_ref(), input)?;
    save_cipher(alloc, shelf, &opened, seed, stream, &array, cipher)
}

/// Saves the ciphertext of an array that a stream of a seed gives under a public key.
fn save_cipher<S: Shelf>(
    alloc: Global,
    shelf: &mut S,
    opened: &Opened<Public>,
    seed: [u8; 32],
    stream: u64,
    array: &SlotArray,
    name: &Name,
) -> Result<Effect, Cause>
    requires scheme { IsScheme (setting_of opened.now.scheme) }
    requires key { IsPublicUnder opened.now.scheme.tables.value opened.now.value }
    requires array { IsArray opened.now.scheme.slots.value.field opened.now.scheme.slots.value.cube array.now }
    ensures tells { S.tells shelf.new ≡ S.tells shelf.old }
    ensures kept { S.files shelf.new ≡ S.files shelf.old }
    ensures gives { IsTrue (S.tells shelf.old) → Gives left_by result (save_cipher_on (opened_of key_of opened.now) seed stream array.now name.now (S.files shelf.old)) }
    ensures free { IsTrue (S.tells shelf.old) → IfOk result (λ effect. IsFree effect (S.files shelf.old)) }
    ensures counts { Counts (faulted is_shelf_fault result) (S.faults shelf.old) (S.faults shelf.new) }
    ensures cause { IfErr result IsOfReading }
{
    let file = FileName {
        name: name.copy(alloc)?,
        kind: FileKind::Cipher,
    };
    free(alloc, shelf, &file)?;
    let cipher = sealed(alloc, &opened.scheme, &opened.value, seed, stream, array)?;
    let text = write_cipher(alloc, &opened.header, &cipher)?;
    Ok(Effect::Saves {
        file,
        text: Text::new(text),
    })
}

/// The ciphertext of an array that a stream of a seed gives.
#[tactic(auto, using(crate::proofs::Rooms::cipher_room, crate::proofs::Quiet::passes, crate::proofs::Quiet::refuses))]
fn sealed(
    alloc: Global,
    scheme: &Scheme,
    public: &Public,
    seed: [u8; 32],
    stream: u64,
    array: &SlotArray,
) -> Result<Cipher, Cause>
    requires scheme { IsScheme (setting_of scheme.now) }
    requires key { IsPublicUnder scheme.now.tables.value public.now }
    requires array { IsArray scheme.now.slots.value.field scheme.now.slots.value.cube array.now }
    ensures value { IfOk result (λ c. cipher_of c ≡ encryption_drawn (setting_of scheme.now) (key_of public.now) (draws_of seed stream) array.now) }
    ensures tables { IfOk result (λ c. c.c0.tables ≡ scheme.now.tables.value) }
    ensures small { IfOk result (λ c. c.bound.exp < 4096) }
    ensures quiet { OnOk result (quiet scheme.now.tables.value ≡ Ok tt) }
    ensures noisy { IfErr result (λ cause. is_excused cause ≡ false → quiet scheme.now.tables.value ≡ Err cause) }
    ensures counts { faulted is_shelf_fault result ≡ false }
    ensures cause { IfErr result IsOfReading }
{
    law_degree_is_units();
    law_bound_of();
    match scheme.encrypt(alloc, public, &mut Draws::new(seed, stream), array) {
        Ok(cipher) => Ok(cipher),
        Err(CipherFault::TooNoisy { bound, limit }) => Err(Cause::TooNoisy {
            line: 0,
            bound,
            limit,
        }),
        Err(CipherFault::Memory) => Err(Cause::Memory),
    }
}

/// `decrypt K C`.
#[tactic(auto, unfolding(cli_machine::specs::Machine::decrypt_on))]
pub fn decrypt<S: Shelf>(
    alloc: Global,
    shelf: &mut S,
    key: &Name,
    cipher_name: &Name,
) -> Result<Effect, Cause>
    ensures tells { S.tells shelf.new ≡ S.tells shelf.old }
    ensures kept { S.files shelf.new ≡ S.files shelf.old }
    ensures gives { IsTrue (S.tells shelf.old) → Gives left_by result (decrypt_on key.now cipher_name.now (S.files shelf.old)) }
    ensures free { IsTrue (S.tells shelf.old) → IfOk result (λ effect. IsFree effect (S.files shelf.old)) }
    ensures counts { Counts (faulted is_shelf_fault result) (S.faults shelf.old) (S.faults shelf.new) }
    ensures cause { IfErr result IsOfReading }
{
    let opened = first_secret(alloc, shelf, key)?;
    let cipher = later_cipher(alloc, shelf, &opened.header, &opened.scheme, cipher_name)?;
    let array = opened.scheme.decrypt(alloc, &opened.value, &cipher)?;
    let text = print_slots(alloc, &array)?;
    Ok(Effect::Prints(Text::new(text)))
}

/// `noise C`.
#[tactic(auto, unfolding(cli_machine::specs::Machine::noise_on))]
pub fn noise<S: Shelf>(alloc: Global, shelf: &mut S, name: &Name) -> Result<Effect, Cause>
    ensures tells { S.tells shelf.new ≡ S.tells shelf.old }
    ensures kept { S.files shelf.new ≡ S.files shelf.old }
    ensures gives { IsTrue (S.tells shelf.old) → Gives left_by result (noise_on name.now (S.files shelf.old)) }
    ensures free { IsTrue (S.tells shelf.old) → IfOk result (λ effect. IsFree effect (S.files shelf.old)) }
    ensures counts { Counts (faulted is_shelf_fault result) (S.faults shelf.old) (S.faults shelf.new) }
    ensures cause { IfErr result IsOfReading }
{
    let opened = first_cipher(alloc, shelf, name)?;
    let text = noise_line(alloc, &opened.scheme, &opened.value)?;
    Ok(Effect::Prints(Text::new(text)))
}

/// The level of a ciphertext, its bound, and the limit of its level.
#[tactic(auto, unfolding(cli_machine::specs::Machine::noise_text))]
fn noise_line(alloc: Global, scheme: &Scheme, cipher: &Cipher) -> Result<Vec<u8>, AllocError>
    requires { ArePartsUnder scheme.now.tables.value cipher.now }
    ensures { IfOk result (λ text. text.items ≡ noise_text (sizes_of scheme.now.tables.value) cipher.now.level (value cipher.now.bound)) }
{
    let mut text = Vec::new(alloc);
    text.extend_from_slice(b"level ")?;
    put_number(&mut text, u64::from(cipher.level))?;
    put_bounded(&mut text, b" bound ", cipher.bound)?;
    put_bounded(&mut text, b" limit ", scheme.bounds.limit(cipher.level))?;
    text.push(b'\n')?;
    Ok(text)
}
