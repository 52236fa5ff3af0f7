//! The header of a file: `HBGV`, the kind, the format, and the names of the table and of the key.
ghost use Rattle.std.specs.Prelude.{◌≡◌, ◌≤◌, ◌++◌, length, IfOk, OnOk};
ghost use Rattle.he_files.specs.Header as form;
ghost use Rattle.he_files.specs.Header.{header_of, header_bytes};
ghost use Rattle.he_files.specs.Reads.{Reads};

use crate::faults::ReadFault;
use crate::fields::{after, bytes_at};
use line_text::{FileKind, Name};
use std::alloc::{AllocError, Global};

/// The names that a file carries.
#[derive(Debug, Drop)]
pub struct Header {
    /// The name of the table.
    pub table: Name,
    /// The name of the key.
    pub key: Name,
}

/// What each file begins with.
const MARK: &[u8] = b"HBGV";

/// The format of all files.
const FORMAT: u8 = 1;

/// The byte of a kind. The kinds of texts have none.
#[tactic(auto, unfolding(crate::specs::Header::kind_byte))]
fn kind_byte(kind: FileKind) -> Option<u8>
    ensures { result ≡ form.kind_byte kind }
{
    match kind {
        FileKind::Secret => Some(1),
        FileKind::Public => Some(2),
        FileKind::Eval => Some(3),
        FileKind::Cipher => Some(4),
        FileKind::Table
        | FileKind::Template
        | FileKind::Slots
        | FileKind::Prog
        | FileKind::Seed
        | FileKind::Script => None,
    }
}

/// The offset after the byte of a kind, which has to stand here.
#[tactic(auto, unfolding(crate::specs::Form::field_at, crate::specs::Form::only, crate::specs::Form::bytes_at))]
fn after_kind(bytes: &[u8], at: usize, kind: FileKind) -> Result<usize, ReadFault>
    requires { at ≤ length bytes.now }
    ensures value { Reads (λ end. (tt, end)) result ((form.kind kind).read bytes.now at) }
    ensures inside { IfOk result (λ end. end ≤ length bytes.now) }
{
    let Some(byte) = kind_byte(kind) else {
        return Err(ReadFault::Bad(at as u64));
    };
    after(bytes, at, &[byte])
}

/// The name at an offset, behind its length, and the offset after it.
#[tactic(auto, unfolding(crate::specs::Header::name_at, crate::specs::Form::field_at, crate::specs::Form::allowed_byte))]
fn name_at(alloc: Global, bytes: &[u8], at: usize) -> Result<(Name, usize), ReadFault>
    requires { at ≤ length bytes.now }
    ensures value { Reads (λ found. found) result (form.name.read bytes.now at) }
    ensures inside { IfOk result (λ found. found.1 ≤ length bytes.now) }
{
    let len = bytes_at(bytes, at, 1)?[0];
    if !(1..=64).contains(&len) {
        return Err(ReadFault::Bad(at as u64));
    }
    let at = at + 1;
    let word = bytes_at(bytes, at, len as usize)?;
    let Some(name) = Name::read(alloc, word)? else {
        return Err(ReadFault::Bad(at as u64));
    };
    Ok((name, at + word.len()))
}

/// The header of a file of this kind, and how long it is: the offset of the body.
///
/// The header is `HBGV`, the byte of the kind, a byte 1, and the names of the table and of the key, each behind a byte for its
/// length. `Bad` names the offset of the first of these fields that is cut short or not allowed; a kind of texts has no
/// byte, so none is allowed for it.
#[tactic(auto, unfolding(crate::specs::Header::header_of))]
pub fn read_header(
    alloc: Global,
    kind: FileKind,
    bytes: &[u8],
) -> Result<(Header, usize), ReadFault>
    ensures value { Reads (λ found. found) result (header_of kind bytes.now) }
    ensures inside { IfOk result (λ found. found.1 ≤ length bytes.now) }
{
    let at = after(bytes, 0, MARK)?;
    let at = after_kind(bytes, at, kind)?;
    let at = after(bytes, at, &[FORMAT])?;
    let (table, at) = name_at(alloc, bytes, at)?;
    let (key, at) = name_at(alloc, bytes, at)?;
    Ok((Header { table, key }, at))
}

/// Appends a header.
#[tactic(auto, unfolding(crate::specs::Header::header_bytes))]
pub(crate) fn put_header(
    out: &mut Vec<u8>,
    kind: FileKind,
    header: &Header,
) -> Result<(), AllocError>
    ensures { OnOk result (out.new.items ≡ out.old.items ++ header_bytes kind header.now) }
{
    out.extend_from_slice(MARK)?;
    if let Some(byte) = kind_byte(kind) {
        out.push(byte)?;
    }
    out.push(FORMAT)?;
    put_name(out, &header.table)?;
    put_name(out, &header.key)
}

/// Appends a name behind its length.
fn put_name(out: &mut Vec<u8>, name: &Name) -> Result<(), AllocError>
    ensures { OnOk result (out.new.items ≡ out.old.items ++ form.name.spelled name.now) }
{
    let bytes = name.bytes();
    out.push(bytes.len() as u8)?;
    out.extend_from_slice(bytes)
}
