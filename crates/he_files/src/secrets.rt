//! The file of a secret: a byte for each of its entries.
ghost use Rattle.std.specs.Prelude.{◌≡◌, ◌+◌, ◌-◌, ◌≤◌, ◌++◌, length, map, IfOk, OnOk};
ghost use Rattle.scheme_laws.specs.Keys.{IsSecret};
ghost use Rattle.he_files.specs.Secret as form;
ghost use Rattle.he_files.specs.Secret.{secret_bytes, secret_of};
ghost use Rattle.he_files.specs.Reads.{Reads};

use crate::faults::ReadFault;
use crate::fields::bytes_at;
use crate::headers::{Header, put_header};
use double_crt::RingTables;
use key_switch::Secret;
use line_text::FileKind;
use std::alloc::{AllocError, Global};
use std::rc::Rc;

/// The entry of a byte, if it is one.
fn entry_of(byte: u8) -> Option<i64>
    ensures { result ≡ form.entry_of byte }
{
    match byte {
        0 => Some(0),
        1 => Some(1),
        255 => Some(-1),
        _ => None,
    }
}

/// The byte of an entry.
fn entry_byte(entry: i64) -> u8
    ensures { result ≡ form.entry_byte entry }
{
    match entry {
        i64::MIN..=-1 => 255,
        0 => 0,
        1.. => 1,
    }
}

/// What an entry takes of the weight.
fn taken(entry: i64) -> u32
    ensures { result ≡ form.taken entry }
{
    if entry == 0 { 0 } else { 1 }
}

/// The entry at an offset, where so much of the weight is left to reach, and so many entries after it; and what is left of the
/// weight then.
#[tactic(auto, unfolding(crate::specs::Form::field_at, crate::specs::Secret::allowed_entry))]
fn entry_at(bytes: &[u8], at: usize, weight: u32, left: u32) -> Result<(i64, u32), ReadFault>
    requires { at ≤ length bytes.now }
    ensures value { Reads (λ found. (found.0, at + 1)) result ((form.entry weight left).read bytes.now at) }
    ensures rest { IfOk result (λ found. found.1 ≡ weight - form.taken found.0) }
    ensures inside { OnOk result (at + 1 ≤ length bytes.now) }
{
    let Some(entry) = entry_of(bytes_at(bytes, at, 1)?[0]) else {
        return Err(ReadFault::Bad(at as u64));
    };
    let taken = taken(entry);
    if taken > weight || weight - taken > left {
        return Err(ReadFault::Bad(at as u64));
    }
    Ok((entry, weight - taken))
}

/// So many entries from an offset on, of which as many as the weight says are not 0, and the offset after them.
fn entries_at(
    alloc: Global,
    bytes: &[u8],
    at: usize,
    n: u32,
    weight: u32,
) -> Result<(Vec<i64>, usize), ReadFault>
    requires { at ≤ length bytes.now }
    ensures value { Reads (λ found. (found.0.items, found.1)) result ((form.entries n weight).read bytes.now at) }
    ensures inside { IfOk result (λ found. found.1 ≤ length bytes.now) }
{
    let mut entries = Vec::new(alloc);
    let mut weight = weight;
    let mut at = at;
    for i in 0..n {
        let (entry, rest) = entry_at(bytes, at, weight, n - 1 - i)?;
        entries.push(entry)?;
        weight = rest;
        at += 1;
    }
    Ok((entries, at))
}

/// Appends the bytes of entries.
fn put_entries(out: &mut Vec<u8>, entries: &[i64]) -> Result<(), AllocError>
    ensures { OnOk result (out.new.items ≡ out.old.items ++ map form.entry_byte entries.now) }
{
    for entry in entries {
        out.push(entry_byte(*entry))?;
    }
    Ok(())
}

/// The secret of a file whose header ends at the offset `from`: a byte for each of n entries, 0 for 0, 1 for 1 and 255 for -1,
/// and no byte after them.
///
/// As many entries as the weight of the tables says are not 0. `Bad` names the offset of the first entry that is missing, that
/// is another byte, that is one too many for the weight, or after which too few are left to reach it; or of the first byte too
/// many.
#[tactic(auto, unfolding(crate::specs::Secret::secret_of))]
pub fn read_secret(
    alloc: Global,
    tables: &Rc<RingTables>,
    bytes: &[u8],
    from: usize,
) -> Result<Secret, ReadFault>
    requires { from ≤ length bytes.now }
    ensures value { Reads (λ s. s.coeffs.items) result (secret_of tables.now.value bytes.now from) }
    ensures secret { IfOk result (λ s. IsSecret tables.now.value s.coeffs.items) }
{
    let (coeffs, end) = entries_at(alloc, bytes, from, tables.n(), tables.weight())?;
    if end != bytes.len() {
        return Err(ReadFault::Bad(end as u64));
    }
    Ok(Secret { coeffs })
}

/// The file of a secret. The one cause to fail is want of memory.
#[tactic(auto, unfolding(crate::specs::Secret::secret_bytes))]
pub fn write_secret(alloc: Global, header: &Header, x: &Secret) -> Result<Vec<u8>, AllocError>
    ensures { IfOk result (λ file. file.items ≡ secret_bytes header.now x.now.coeffs.items) }
{
    let mut out = Vec::new(alloc);
    put_header(&mut out, FileKind::Secret, header)?;
    put_entries(&mut out, &x.coeffs)?;
    Ok(out)
}
