//! The printed report of how a session ended, and the exit status.
ghost use Rattle.std.specs.Prelude.{◌≡◌, ◌++◌, codes, decimal, IfOk, OnOk};
ghost use Rattle.line_text.specs.Kinds.{file_text, key_word};
ghost use Rattle.noise_bound.specs.Text.{text_of};
ghost use Rattle.cli_machine.specs.Report.{cause_text, fault_text, header_text, number_of, numbered, paired, placed, report_of};

use crate::cause::{Cause, Status};
use he_files::Header;
use line_text::{FileName, TableKey, put_number};
use noise_bound::Bound;
use std::alloc::{AllocError, Global};
use table_file::{TableFault, put_bound};

/// The report of a status: nothing where all is done, else `stopped`, the number of the line and
/// the cause with its fields.
///
/// A stop for want of the file `q.table` reads `stopped 0 NoFile q.table` and a newline.
#[tactic(auto, unfolding(crate::specs::Report::report_of))]
pub fn report(alloc: Global, status: &Status) -> Result<Vec<u8>, AllocError>
    ensures { IfOk result (λ text. text.items ≡ report_of status.now) }
{
    let mut text = Vec::new(alloc);
    if let Status::Stopped { line, cause } = status {
        text.extend_from_slice(b"stopped ")?;
        put_number(&mut text, u64::from(*line))?;
        text.extend_from_slice(b" ")?;
        put_cause(&mut text, cause)?;
        text.push(b'\n')?;
    }
    Ok(text)
}

/// Appends the name of a cause, and its fields, each after a space.
#[tactic(auto, unfolding(crate::specs::Report::cause_text))]
fn put_cause(text: &mut Vec<u8>, cause: &Cause) -> Result<(), AllocError>
    ensures { OnOk result (text.new.items ≡ text.old.items ++ cause_text cause.now) }
{
    match cause {
        Cause::Words => text.extend_from_slice(b"Words"),
        Cause::NoFile { file } => put_file(text, b"NoFile ", file),
        Cause::NameTaken { file } => put_file(text, b"NameTaken ", file),
        Cause::BadTable { fault } => put_check(text, b"BadTable ", fault),
        Cause::BadSlots { line } => put_numbered(text, b"BadSlots ", u64::from(*line)),
        Cause::BadProgram { line } => put_numbered(text, b"BadProgram ", u64::from(*line)),
        Cause::BadSeed => text.extend_from_slice(b"BadSeed"),
        Cause::BadTemplate { key } => put_key(text, b"BadTemplate ", *key),
        Cause::BadKey { file, place } => put_placed(text, b"BadKey ", file, *place),
        Cause::BadCipher { file, place } => put_placed(text, b"BadCipher ", file, *place),
        Cause::NoRoot { i } => put_numbered(text, b"NoRoot ", u64::from(*i)),
        Cause::Arity { given, named } => put_paired(text, b"Arity ", *given, u64::from(*named)),
        Cause::WrongKey { want, got } => put_headers(text, b"WrongKey ", want, got),
        Cause::TooNoisy { line, bound, limit } => {
            put_bounds(text, b"TooNoisy ", u64::from(*line), *bound, *limit)
        }
        Cause::NoChain { file } => put_file(text, b"NoChain ", file),
        Cause::ShelfFault { faults } => put_numbered(text, b"ShelfFault ", u64::from(*faults)),
        Cause::SinkFault { faults } => put_numbered(text, b"SinkFault ", u64::from(*faults)),
        Cause::Memory => text.extend_from_slice(b"Memory"),
    }
}

/// Appends a word and the name of a file.
fn put_file(text: &mut Vec<u8>, word: &[u8], file: &FileName) -> Result<(), AllocError>
    ensures { OnOk result (text.new.items ≡ text.old.items ++ (word.now ++ file_text file.now)) }
{
    text.extend_from_slice(word)?;
    file.put(text)
}

/// Appends a word, the name of a file, and a place in it.
fn put_placed(
    text: &mut Vec<u8>,
    word: &[u8],
    file: &FileName,
    place: u64,
) -> Result<(), AllocError>
    ensures { OnOk result (text.new.items ≡ text.old.items ++ placed word.now file.now place) }
{
    put_file(text, word, file)?;
    text.extend_from_slice(b" ")?;
    put_number(text, place)
}

/// Appends a word and two pairs of names.
fn put_headers(
    text: &mut Vec<u8>,
    word: &[u8],
    want: &Header,
    got: &Header,
) -> Result<(), AllocError>
    ensures { OnOk result (text.new.items ≡ text.old.items ++ (word.now ++ header_text want.now ++ codes " " ++ header_text got.now)) }
{
    text.extend_from_slice(word)?;
    put_header(text, want)?;
    text.extend_from_slice(b" ")?;
    put_header(text, got)
}

/// Appends the names of a table and of a key, as `a/k`.
fn put_header(text: &mut Vec<u8>, header: &Header) -> Result<(), AllocError>
    ensures { OnOk result (text.new.items ≡ text.old.items ++ header_text header.now) }
{
    text.extend_from_slice(header.table.bytes())?;
    text.extend_from_slice(b"/")?;
    text.extend_from_slice(header.key.bytes())
}

/// Appends a word, a number and two bounds.
fn put_bounds(
    text: &mut Vec<u8>,
    word: &[u8],
    line: u64,
    bound: Bound,
    limit: Bound,
) -> Result<(), AllocError>
    ensures { OnOk result (text.new.items ≡ text.old.items ++ (numbered word.now line ++ codes " " ++ text_of bound ++ codes " " ++ text_of limit)) }
{
    put_numbered(text, word, line)?;
    text.extend_from_slice(b" ")?;
    put_bound(text, bound)?;
    text.extend_from_slice(b" ")?;
    put_bound(text, limit)
}

/// Appends a word and a number.
fn put_numbered(text: &mut Vec<u8>, word: &[u8], i: u64) -> Result<(), AllocError>
    ensures { OnOk result (text.new.items ≡ text.old.items ++ numbered word.now i) }
{
    text.extend_from_slice(word)?;
    put_number(text, i)
}

/// Appends a word and two numbers.
fn put_paired(text: &mut Vec<u8>, word: &[u8], i: u64, j: u64) -> Result<(), AllocError>
    ensures { OnOk result (text.new.items ≡ text.old.items ++ paired word.now i j) }
{
    text.extend_from_slice(word)?;
    put_number(text, i)?;
    text.extend_from_slice(b" ")?;
    put_number(text, j)
}

/// Appends a word and the name of a check with its key or places.
fn put_check(text: &mut Vec<u8>, word: &[u8], fault: &TableFault) -> Result<(), AllocError>
    ensures { OnOk result (text.new.items ≡ text.old.items ++ (word.now ++ fault_text fault.now)) }
{
    text.extend_from_slice(word)?;
    put_fault(text, fault)
}

/// Appends the name of a check, and its key or places, each after a space.
#[tactic(auto, unfolding(crate::specs::Report::fault_text))]
fn put_fault(text: &mut Vec<u8>, fault: &TableFault) -> Result<(), AllocError>
    ensures { OnOk result (text.new.items ≡ text.old.items ++ fault_text fault.now) }
{
    match fault {
        TableFault::Text => text.extend_from_slice(b"Text"),
        TableFault::Shape(key) => put_key(text, b"Shape ", *key),
        TableFault::Weight => text.extend_from_slice(b"Weight"),
        TableFault::NotOrder => text.extend_from_slice(b"NotOrder"),
        TableFault::NotPower(i) => put_numbered(text, b"NotPower ", u64::from(*i)),
        TableFault::WrongCount => text.extend_from_slice(b"WrongCount"),
        TableFault::NotDistinct(a, b) => {
            put_paired(text, b"NotDistinct ", u64::from(*a), u64::from(*b))
        }
        TableFault::Tall => text.extend_from_slice(b"Tall"),
        TableFault::NotFrobenius => text.extend_from_slice(b"NotFrobenius"),
        TableFault::NotDivisor => text.extend_from_slice(b"NotDivisor"),
        TableFault::Idempotent(slot) => put_numbered(text, b"Idempotent ", u64::from(*slot)),
        TableFault::NotAnnihilated => text.extend_from_slice(b"NotAnnihilated"),
        TableFault::NotComplete => text.extend_from_slice(b"NotComplete"),
        TableFault::Dual(i, k) => put_paired(text, b"Dual ", u64::from(*i), u64::from(*k)),
        TableFault::Size(i) => put_numbered(text, b"Size ", u64::from(*i)),
        TableFault::Residue(i) => put_numbered(text, b"Residue ", u64::from(*i)),
        TableFault::HalfRoot(i) => put_numbered(text, b"HalfRoot ", u64::from(*i)),
        TableFault::Root(i) => put_numbered(text, b"Root ", u64::from(*i)),
        TableFault::TwoRoot(i) => put_numbered(text, b"TwoRoot ", u64::from(*i)),
        TableFault::Inverse(i, j) => put_paired(text, b"Inverse ", u64::from(*i), u64::from(*j)),
        TableFault::PlainInverse(i) => put_numbered(text, b"PlainInverse ", u64::from(*i)),
        TableFault::Memory => text.extend_from_slice(b"Memory"),
    }
}

/// Appends a word and the word of a key.
fn put_key(text: &mut Vec<u8>, word: &[u8], key: TableKey) -> Result<(), AllocError>
    ensures { OnOk result (text.new.items ≡ text.old.items ++ (word.now ++ key_word key)) }
{
    text.extend_from_slice(word)?;
    text.extend_from_slice(key.word())
}

/// The exit status: the number of the cause, 0 where all is done.
pub fn number(status: &Status) -> u8
    ensures { result ≡ number_of status.now }
{
    match status {
        Status::Done => 0,
        Status::Stopped { cause, .. } => match cause {
            Cause::Words => 2,
            Cause::NoFile { .. } => 3,
            Cause::NameTaken { .. } => 4,
            Cause::BadTable { .. } => 5,
            Cause::BadSlots { .. } => 6,
            Cause::BadProgram { .. } => 7,
            Cause::BadSeed => 8,
            Cause::BadTemplate { .. } => 9,
            Cause::BadKey { .. } => 10,
            Cause::BadCipher { .. } => 11,
            Cause::NoRoot { .. } => 12,
            Cause::Arity { .. } => 14,
            Cause::WrongKey { .. } => 15,
            Cause::TooNoisy { .. } => 18,
            Cause::NoChain { .. } => 21,
            Cause::ShelfFault { .. } => 30,
            Cause::SinkFault { .. } => 31,
            Cause::Memory => 40,
        },
    }
}
