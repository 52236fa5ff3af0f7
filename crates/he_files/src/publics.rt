//! The file of a public key: its polynomials b and a, over the chain.
ghost use Rattle.std.specs.Prelude.{◌≡◌, ◌≤◌, length, IfOk};
ghost use Rattle.key_switch.specs.Shown.{IsPublicUnder, key_of};
ghost use Rattle.he_files.specs.PublicFile.{public_bytes, public_of};
ghost use Rattle.he_files.specs.Reads.{Reads};

use crate::faults::ReadFault;
use crate::headers::{Header, put_header};
use crate::polynomials::{polynomial_at, put_polynomial};
use double_crt::RingTables;
use key_switch::Public;
use line_text::FileKind;
use std::alloc::{AllocError, Global};
use std::rc::Rc;

/// The public key of a file whose header ends at the offset `from`: b, then a, each as a row of n values for each modulus of
/// the chain, and no byte after them.
///
/// `Bad` names the offset of the first value that is cut short or not below its modulus, or of the first byte too many.
#[tactic(auto, unfolding(crate::specs::PublicFile::public_of))]
pub fn read_public(
    alloc: Global,
    tables: &Rc<RingTables>,
    bytes: &[u8],
    from: usize,
) -> Result<Public, ReadFault>
    requires { from ≤ length bytes.now }
    ensures value { Reads key_of result (public_of tables.now.value bytes.now from) }
    ensures key { IfOk result (IsPublicUnder tables.now.value) }
{
    let count = tables.chain_len();
    let (b, at) = polynomial_at(alloc, tables, bytes, from, count)?;
    let (a, end) = polynomial_at(alloc, tables, bytes, at, count)?;
    if end != bytes.len() {
        return Err(ReadFault::Bad(end as u64));
    }
    Ok(Public { b, a })
}

/// The file of a public key. The one cause to fail is want of memory.
#[tactic(auto, unfolding(crate::specs::PublicFile::public_bytes))]
pub fn write_public(alloc: Global, header: &Header, x: &Public) -> Result<Vec<u8>, AllocError>
    requires { IsPublicUnder x.now.b.tables x.now }
    ensures { IfOk result (λ file. file.items ≡ public_bytes x.now.b.tables header.now (key_of x.now)) }
{
    let mut out = Vec::new(alloc);
    put_header(&mut out, FileKind::Public, header)?;
    put_polynomial(&mut out, &x.b)?;
    put_polynomial(&mut out, &x.a)?;
    Ok(out)
}
