//! The fields of a file, read from an offset on.
ghost use Rattle.std.specs.Prelude.{◌≡◌, ◌+◌, ◌≤◌, length, IfOk, OnOk};
ghost use Rattle.he_files.specs.Form.{bytes_at, fixed, byte, number};
ghost use Rattle.he_files.specs.Reads.{Reads};

use crate::faults::ReadFault;

/// The bytes of a field of this width, or the fault of one that is cut short.
#[tactic(auto, unfolding(crate::specs::Form::bytes_at))]
pub(crate) fn bytes_at(bytes: &[u8], at: usize, width: usize) -> Result<&[u8], ReadFault>
    requires { at ≤ length bytes.now }
    ensures value { Reads (λ front. front.now) result (bytes_at width bytes.now at) }
    ensures full { IfOk result (λ front. length front.now ≡ width) }
    ensures inside { OnOk result (at + width ≤ length bytes.now) }
{
    if bytes.len() - at < width {
        return Err(ReadFault::Bad(at as u64));
    }
    Ok(&bytes[at..at + width])
}

/// The offset after this text, which has to stand here.
#[tactic(auto, unfolding(crate::specs::Form::field_at, crate::specs::Form::only))]
pub(crate) fn after(bytes: &[u8], at: usize, text: &[u8]) -> Result<usize, ReadFault>
    requires { at ≤ length bytes.now }
    ensures value { Reads (λ end. (tt, end)) result ((fixed (length text.now) text.now).read bytes.now at) }
    ensures inside { IfOk result (λ end. end ≤ length bytes.now) }
{
    let front = bytes_at(bytes, at, text.len())?;
    if front != text {
        return Err(ReadFault::Bad(at as u64));
    }
    Ok(at + text.len())
}
