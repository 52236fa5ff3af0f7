//! The file of a ciphertext: its level, its bound, and its two polynomials.
ghost use Rattle.std.specs.Prelude.{◌≡◌, ℕ, ◌+◌, ◌^◌, ◌<◌, ◌≤◌, ◌++◌, nat_le, length, IfOk, OnOk};
ghost use Rattle.std.specs.Int.{w32, from_le_bytes};
ghost use Rattle.noise_bound.specs.Value.{value};
ghost use Rattle.he_files.specs.Form.{number, number_bytes};
ghost use Rattle.cipher_core.specs.Shown.{ArePartsUnder, cipher_of};
ghost use Rattle.he_files.specs.CipherFile as form;
ghost use Rattle.he_files.specs.CipherFile.{cipher_bytes, cipher_of_bytes};
ghost use Rattle.he_files.specs.Reads.{Reads};

use crate::faults::ReadFault;
use crate::fields::bytes_at;
use crate::headers::{Header, put_header};
use crate::polynomials::{polynomial_at, put_polynomial};
use cipher_core::Cipher;
use double_crt::RingTables;
use line_text::FileKind;
use noise_bound::Bound;
use std::alloc::{AllocError, Global};
use std::rc::Rc;

/// The number that four bytes spell, the low one first.
fn u32_of(bytes: &[u8]) -> u32
    requires { length bytes.now ≡ 4 }
    ensures { result ≡ from_le_bytes w32 bytes.now }
{
    u32::from_le_bytes([bytes[0], bytes[1], bytes[2], bytes[3]])
}

/// The level at an offset, at most the top one, and the offset after it.
#[tactic(auto, unfolding(crate::specs::Form::field_at, crate::specs::Form::allowed_number))]
fn level_at(bytes: &[u8], at: usize, top: u32) -> Result<(u32, usize), ReadFault>
    requires { at ≤ length bytes.now }
    ensures value { Reads (λ found. found) result ((number w32 (λ level. nat_le level top)).read bytes.now at) }
    ensures low { IfOk result (λ found. found.0 ≤ top) }
    ensures inside { IfOk result (λ found. found.1 ≤ length bytes.now) }
{
    let level = u32_of(bytes_at(bytes, at, 4)?);
    if level > top {
        return Err(ReadFault::Bad(at as u64));
    }
    Ok((level, at + 4))
}

/// The mantissa at an offset, and the offset after it.
#[tactic(auto, unfolding(crate::specs::Form::field_at, crate::specs::Form::allowed_number))]
fn mantissa_at(bytes: &[u8], at: usize) -> Result<(u32, usize), ReadFault>
    requires { at ≤ length bytes.now }
    ensures value { Reads (λ found. found) result (form.bound_mantissa.read bytes.now at) }
    ensures inside { IfOk result (λ found. found.1 ≤ length bytes.now) }
{
    Ok((u32_of(bytes_at(bytes, at, 4)?), at + 4))
}

/// The exponent at an offset, beside this mantissa, and the offset after it.
#[tactic(auto, unfolding(crate::specs::Form::field_at, crate::specs::Form::allowed_number))]
fn exponent_at(bytes: &[u8], at: usize, man: u32) -> Result<(u32, usize), ReadFault>
    requires { at ≤ length bytes.now }
    ensures value { Reads (λ found. found) result ((form.bound_exponent man).read bytes.now at) }
    ensures normal { IfOk result (λ found. 0 < found.0 → 2 ^ 31 ≤ man) }
    ensures small { IfOk result (λ found. found.0 < 4096) }
    ensures inside { IfOk result (λ found. found.1 ≤ length bytes.now) }
{
    let exp = u32_of(bytes_at(bytes, at, 4)?);
    if exp >= 4096 || (man < 1 << 31 && exp != 0) {
        return Err(ReadFault::Bad(at as u64));
    }
    Ok((exp, at + 4))
}

/// The bound at an offset, and the offset after it.
#[tactic(auto, unfolding(crate::specs::CipherFile::bound_at))]
fn bound_at(bytes: &[u8], at: usize) -> Result<(Bound, usize), ReadFault>
    requires { at ≤ length bytes.now }
    ensures value { Reads (λ found. (value found.0, found.1)) result (form.bound.read bytes.now at) }
    ensures small { IfOk result (λ found. found.0.exp < 4096) }
    ensures inside { IfOk result (λ found. found.1 ≤ length bytes.now) }
{
    let (man, at) = mantissa_at(bytes, at)?;
    let (exp, at) = exponent_at(bytes, at, man)?;
    Ok((Bound { man, exp }, at))
}

/// Appends a number in four bytes, the low one first.
#[tactic(auto, unfolding(crate::specs::Form::number_bytes))]
fn put_u32(out: &mut Vec<u8>, x: u32) -> Result<(), AllocError>
    ensures { OnOk result (out.new.items ≡ out.old.items ++ number_bytes w32 x) }
{
    out.extend_from_slice(&x.to_le_bytes())
}

/// Appends a bound in eight bytes.
fn put_bound(out: &mut Vec<u8>, b: Bound) -> Result<(), AllocError>
    ensures { OnOk result (out.new.items ≡ out.old.items ++ form.bound.spelled (value b)) }
{
    put_u32(out, b.man)?;
    put_u32(out, b.exp)
}

/// The ciphertext of a file whose header ends at the offset `from`: its level, at most the top one; the mantissa and the
/// exponent of its bound; then c0 and c1, each as a row of n values for each modulus of its level; and no byte after them.
///
/// The exponent is below 4096, and 0 where the mantissa is below 2^31. `Bad` names the offset of the first number that is cut
/// short or not allowed, or of the first byte too many.
#[tactic(auto, unfolding(crate::specs::CipherFile::cipher_of_bytes))]
pub fn read_cipher(
    alloc: Global,
    tables: &Rc<RingTables>,
    bytes: &[u8],
    from: usize,
) -> Result<Cipher, ReadFault>
    requires { from ≤ length bytes.now }
    ensures value { Reads cipher_of result (cipher_of_bytes tables.now.value bytes.now from) }
    ensures parts { IfOk result (ArePartsUnder tables.now.value) }
    ensures small { IfOk result (λ c. c.bound.exp < 4096) }
{
    let (level, at) = level_at(bytes, from, tables.chain_len() - 1)?;
    let (bound, at) = bound_at(bytes, at)?;
    let (c0, at) = polynomial_at(alloc, tables, bytes, at, level + 1)?;
    let (c1, end) = polynomial_at(alloc, tables, bytes, at, level + 1)?;
    if end != bytes.len() {
        return Err(ReadFault::Bad(end as u64));
    }
    Ok(Cipher {
        level,
        bound,
        c0,
        c1,
    })
}

/// The file of a ciphertext. The one cause to fail is want of memory.
#[tactic(auto, unfolding(crate::specs::CipherFile::cipher_bytes))]
pub fn write_cipher(alloc: Global, header: &Header, x: &Cipher) -> Result<Vec<u8>, AllocError>
    requires { x.now.bound.exp < 4096 }
    ensures { IfOk result (λ file. file.items ≡ cipher_bytes x.now.c0.tables header.now (cipher_of x.now)) }
{
    let mut out = Vec::new(alloc);
    put_header(&mut out, FileKind::Cipher, header)?;
    put_u32(&mut out, x.level)?;
    put_bound(&mut out, x.bound)?;
    put_polynomial(&mut out, &x.c0)?;
    put_polynomial(&mut out, &x.c1)?;
    Ok(out)
}
