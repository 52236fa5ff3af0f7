//! Key files and ciphertext files: their headers, the tables that these name, and what stands behind them.
ghost use Rattle.std.specs.Prelude.{◌≡◌, ◌≤◌, false, length, IfErr, IfOk, IsTrue};
ghost use Rattle.cipher_core.specs.Shown.{cipher_of, setting_of, ArePartsUnder};
ghost use Rattle.he_files.specs.CipherFile.{cipher_of_bytes};
ghost use Rattle.he_files.specs.PublicFile.{public_of};
ghost use Rattle.he_files.specs.Secret.{secret_of};
ghost use Rattle.key_switch.specs.Shown.{key_of, IsPublicUnder};
ghost use Rattle.line_text.specs.declared.kinds.FileKind.TheVariants as kinds;
ghost use Rattle.scheme_laws.specs.Keys.{IsSecret};
ghost use Rattle.scheme_laws.specs.Scheme.{IsScheme};
ghost use Rattle.cli_machine.specs.Clauses.{faulted, is_shelf_fault, Counts, Gives, IsOfReading};
ghost use Rattle.cli_machine.specs.Machine.{bad_file, file_of, first_on, headed_on, later_on, or_else, same_names};
ghost use Rattle.cli_session.specs.Parts.{headed_of, opened_of};

use crate::found::{Headed, Opened};
use crate::reading::{chained, load};
use cipher_core::{Cipher, Scheme};
use cli_machine::Cause;
use he_files::{Header, ReadFault, read_cipher, read_header, read_public, read_secret};
use key_switch::{Public, Secret};
use line_text::{FileKind, FileName, Name};
use shelf_core::Shelf;
use std::alloc::{AllocError, Global};

/// The cause of a fault at this offset of a key file or ciphertext file.
fn bad_file(alloc: Global, file: &FileName, place: u64) -> Result<Cause, AllocError>
    ensures value { IfOk result (λ cause. cause ≡ bad_file file.now place) }
    ensures counts { IfOk result (λ cause. is_shelf_fault cause ≡ false) }
    ensures cause { IfOk result IsOfReading }
{
    let file = file.copy(alloc)?;
    Ok(match file.kind {
        FileKind::Cipher => Cause::BadCipher { file, place },
        _ => Cause::BadKey { file, place },
    })
}

/// Reads a key file or ciphertext file as far as its header.
#[tactic(auto, unfolding(cli_machine::specs::Machine::headed_on))]
fn with_header<S: Shelf>(alloc: Global, shelf: &mut S, file: &FileName) -> Result<Headed, Cause>
    ensures tells { S.tells shelf.new ≡ S.tells shelf.old }
    ensures kept { S.files shelf.new ≡ S.files shelf.old }
    ensures gives { IsTrue (S.tells shelf.old) → Gives headed_of result (headed_on file.now (S.files shelf.old)) }
    ensures counts { Counts (faulted is_shelf_fault result) (S.faults shelf.old) (S.faults shelf.new) }
    ensures cause { IfErr result IsOfReading }
{
    let bytes = load(alloc, shelf, file)?;
    match read_header(alloc, file.kind, bytes.as_slice()) {
        Ok((header, from)) => Ok(Headed {
            bytes,
            header,
            from,
        }),
        Err(ReadFault::Bad(place)) => Err(bad_file(alloc, file, place)?),
        Err(ReadFault::Memory) => Err(Cause::Memory),
    }
}

/// The secret behind a header.
fn secret_in(
    alloc: Global,
    scheme: &Scheme,
    file: &FileName,
    found: &Headed,
) -> Result<Secret, Cause>
    ensures gives { Gives (λ s. s.coeffs.items) result
        (or_else (bad_file file.now) (secret_of scheme.now.tables.value found.now.bytes.items found.now.from)) }
    ensures counts { faulted is_shelf_fault result ≡ false }
    ensures cause { IfErr result IsOfReading }
    ensures secret { IfOk result (λ s. IsSecret scheme.now.tables.value s.coeffs.items) }
{
    match read_secret(alloc, &scheme.tables, found.bytes.as_slice(), found.from) {
        Ok(secret) => Ok(secret),
        Err(ReadFault::Bad(place)) => Err(bad_file(alloc, file, place)?),
        Err(ReadFault::Memory) => Err(Cause::Memory),
    }
}

/// The public key behind a header.
fn public_in(
    alloc: Global,
    scheme: &Scheme,
    file: &FileName,
    found: &Headed,
) -> Result<Public, Cause>
    ensures gives { Gives key_of result
        (or_else (bad_file file.now) (public_of scheme.now.tables.value found.now.bytes.items found.now.from)) }
    ensures counts { faulted is_shelf_fault result ≡ false }
    ensures cause { IfErr result IsOfReading }
    ensures key { IfOk result (IsPublicUnder scheme.now.tables.value) }
{
    match read_public(alloc, &scheme.tables, found.bytes.as_slice(), found.from) {
        Ok(public) => Ok(public),
        Err(ReadFault::Bad(place)) => Err(bad_file(alloc, file, place)?),
        Err(ReadFault::Memory) => Err(Cause::Memory),
    }
}

/// The ciphertext behind a header.
fn cipher_in(
    alloc: Global,
    scheme: &Scheme,
    file: &FileName,
    found: &Headed,
) -> Result<Cipher, Cause>
    ensures gives { Gives cipher_of result
        (or_else (bad_file file.now) (cipher_of_bytes scheme.now.tables.value found.now.bytes.items found.now.from)) }
    ensures counts { faulted is_shelf_fault result ≡ false }
    ensures cause { IfErr result IsOfReading }
    ensures parts { IfOk result (ArePartsUnder scheme.now.tables.value) }
{
    match read_cipher(alloc, &scheme.tables, found.bytes.as_slice(), found.from) {
        Ok(cipher) => Ok(cipher),
        Err(ReadFault::Bad(place)) => Err(bad_file(alloc, file, place)?),
        Err(ReadFault::Memory) => Err(Cause::Memory),
    }
}

/// Reads the secret of this name, the first such file of a line.
#[tactic(auto, unfolding(cli_machine::specs::Machine::first_on))]
pub fn first_secret<S: Shelf>(
    alloc: Global,
    shelf: &mut S,
    name: &Name,
) -> Result<Opened<Secret>, Cause>
    ensures tells { S.tells shelf.new ≡ S.tells shelf.old }
    ensures kept { S.files shelf.new ≡ S.files shelf.old }
    ensures gives { IsTrue (S.tells shelf.old) → Gives (opened_of (λ s. s.coeffs.items)) result
        (first_on secret_of (file_of kinds.Secret name.now) (S.files shelf.old)) }
    ensures counts { Counts (faulted is_shelf_fault result) (S.faults shelf.old) (S.faults shelf.new) }
    ensures cause { IfErr result IsOfReading }
    ensures scheme { IfOk result (λ o. IsScheme (setting_of o.scheme)) }
    ensures secret { IfOk result (λ o. IsSecret o.scheme.tables.value o.value.coeffs.items) }
{
    let file = FileName {
        name: name.copy(alloc)?,
        kind: FileKind::Secret,
    };
    let found = with_header(alloc, shelf, &file)?;
    let scheme = chained(alloc, shelf, &found.header.table)?;
    let value = secret_in(alloc, &scheme, &file, &found)?;
    Ok(Opened {
        header: found.header,
        scheme,
        value,
    })
}

/// Reads the public key of this name, the first such file of a line.
#[tactic(auto, unfolding(cli_machine::specs::Machine::first_on))]
pub fn first_public<S: Shelf>(
    alloc: Global,
    shelf: &mut S,
    name: &Name,
) -> Result<Opened<Public>, Cause>
    ensures tells { S.tells shelf.new ≡ S.tells shelf.old }
    ensures kept { S.files shelf.new ≡ S.files shelf.old }
    ensures gives { IsTrue (S.tells shelf.old) → Gives (opened_of key_of) result
        (first_on public_of (file_of kinds.Public name.now) (S.files shelf.old)) }
    ensures counts { Counts (faulted is_shelf_fault result) (S.faults shelf.old) (S.faults shelf.new) }
    ensures cause { IfErr result IsOfReading }
    ensures scheme { IfOk result (λ o. IsScheme (setting_of o.scheme)) }
    ensures key { IfOk result (λ o. IsPublicUnder o.scheme.tables.value o.value) }
{
    let file = FileName {
        name: name.copy(alloc)?,
        kind: FileKind::Public,
    };
    let found = with_header(alloc, shelf, &file)?;
    let scheme = chained(alloc, shelf, &found.header.table)?;
    let value = public_in(alloc, &scheme, &file, &found)?;
    Ok(Opened {
        header: found.header,
        scheme,
        value,
    })
}

/// Reads the ciphertext of this name, the first such file of a line.
#[tactic(auto, unfolding(cli_machine::specs::Machine::first_on))]
pub fn first_cipher<S: Shelf>(
    alloc: Global,
    shelf: &mut S,
    name: &Name,
) -> Result<Opened<Cipher>, Cause>
    ensures tells { S.tells shelf.new ≡ S.tells shelf.old }
    ensures kept { S.files shelf.new ≡ S.files shelf.old }
    ensures gives { IsTrue (S.tells shelf.old) → Gives (opened_of cipher_of) result
        (first_on cipher_of_bytes (file_of kinds.Cipher name.now) (S.files shelf.old)) }
    ensures counts { Counts (faulted is_shelf_fault result) (S.faults shelf.old) (S.faults shelf.new) }
    ensures cause { IfErr result IsOfReading }
    ensures scheme { IfOk result (λ o. IsScheme (setting_of o.scheme)) }
    ensures parts { IfOk result (λ o. ArePartsUnder o.scheme.tables.value o.value) }
{
    let file = FileName {
        name: name.copy(alloc)?,
        kind: FileKind::Cipher,
    };
    let found = with_header(alloc, shelf, &file)?;
    let scheme = chained(alloc, shelf, &found.header.table)?;
    let value = cipher_in(alloc, &scheme, &file, &found)?;
    Ok(Opened {
        header: found.header,
        scheme,
        value,
    })
}

/// Reads the ciphertext of this name, a later such file of a line whose first has this header.
#[tactic(auto, unfolding(cli_machine::specs::Machine::later_on))]
pub fn later_cipher<S: Shelf>(
    alloc: Global,
    shelf: &mut S,
    first: &Header,
    scheme: &Scheme,
    name: &Name,
) -> Result<Cipher, Cause>
    ensures tells { S.tells shelf.new ≡ S.tells shelf.old }
    ensures kept { S.files shelf.new ≡ S.files shelf.old }
    ensures gives { IsTrue (S.tells shelf.old) → Gives cipher_of result
        (later_on cipher_of_bytes first.now scheme.now.tables.value (file_of kinds.Cipher name.now) (S.files shelf.old)) }
    ensures counts { Counts (faulted is_shelf_fault result) (S.faults shelf.old) (S.faults shelf.new) }
    ensures cause { IfErr result IsOfReading }
    ensures parts { IfOk result (ArePartsUnder scheme.now.tables.value) }
{
    let file = FileName {
        name: name.copy(alloc)?,
        kind: FileKind::Cipher,
    };
    let found = with_header(alloc, shelf, &file)?;
    match_names(alloc, first, &found.header)?;
    cipher_in(alloc, scheme, &file, &found)
}

/// Whether a header has the names of the first header of a line.
#[tactic(auto, unfolding(cli_machine::specs::Machine::same_names))]
fn match_names(alloc: Global, want: &Header, got: &Header) -> Result<(), Cause>
    ensures gives { Gives (λ u. u) result (same_names want.now got.now) }
    ensures counts { faulted is_shelf_fault result ≡ false }
    ensures cause { IfErr result IsOfReading }
{
    if want.table.bytes() == got.table.bytes() && want.key.bytes() == got.key.bytes() {
        Ok(())
    } else {
        Err(Cause::WrongKey {
            want: copy_header(alloc, want)?,
            got: copy_header(alloc, got)?,
        })
    }
}

/// The same header in memory of its own.
fn copy_header(alloc: Global, header: &Header) -> Result<Header, AllocError>
    ensures { IfOk result (λ copied. copied ≡ header.now) }
{
    let table = header.table.copy(alloc)?;
    let key = header.key.copy(alloc)?;
    Ok(Header { table, key })
}
