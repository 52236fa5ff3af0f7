//! The files of the current folder and the standard output, the edge to the system.
ghost use Rattle.std.specs.Prelude.{◌≡◌, ◌≢◌, ◌<◌, ◌≤◌, length, string_bytes, Err, IfOk, IfSome};
ghost use Rattle.std.specs.IoError.{error_kind};
ghost use Rattle.line_text.specs.Kinds.{file_text};
ghost use Rattle.shelf_core.specs.Outcomes.{FindsAtMost, Rises, LoadedCounts, SavedCounts};

use crate::outside::{Held, Loaded, Put, Saved, Shelf, Sink};
use line_text::FileName;
use std::alloc::{AllocError, Global};
use std::fs::{self, File, OpenFile};
use std::io::{self, ErrorKind, Read, Write};
use std::marker::Model;
use std::rt::Files;

/// The greatest number of bytes that a file of the folder may have.
const LONGEST_FILE: u64 = 1 << 30;

/// The files of the current folder, as a shelf that does not tell what it holds.
///
/// A fault is each error of the system but want of memory, a file of more than 2^30 bytes, whether
/// it is loaded or saved, a name that stands for anything but a file, and a name that came to be
/// held between `has` and `save`, since a file is never written over. After a failed `save` the
/// folder may hold a front of the file.
///
/// Contracts see it as its count of faults, which stops at 2^64 - 1.
#[derive(Drop)]
pub struct FolderShelf<'a, R: Files> {
    rt: &'a R,
    faults: u64,
}

impl<'a, R: Files> Model for FolderShelf<'a, R> {
    ghost use Rattle.std.specs.Prelude.{ℕ};

    ghost Value = { ℕ };

    ghost view = { λ shelf. shelf.faults };
}

impl<'a, R: Files> FolderShelf<'a, R> {
    /// The files of the current folder, with no fault so far.
    pub fn new(rt: &'a R) -> FolderShelf<'a, R>
        ensures { result ≡ 0 }
    {
        FolderShelf { rt, faults: 0 }
    }

    fn count_fault(&mut self)
        ensures { Rises self.old self.new }
    {
        self.faults = self.faults.saturating_add(1);
    }
}

impl<R: Files> Shelf for FolderShelf<'_, R> {
    ghost use Rattle.std.specs.Prelude.{false, []};

    ghost tells = { λ _. false };

    ghost files = { λ _. [] };

    ghost faults = { λ count. count };

    fn has(&mut self, alloc: Global, name: &FileName) -> Held {
        match file_length(self.rt, alloc, name) {
            Ok(Some(_)) => Held::Yes,
            Ok(None) => Held::No,
            Err(Stop::Memory) => Held::Memory,
            Err(Stop::Fault) => {
                self.count_fault();
                Held::Failed
            }
        }
    }

    fn load(&mut self, alloc: Global, name: &FileName) -> Loaded
        ensures within { FindsAtMost LONGEST_FILE result }
        ensures counts { LoadedCounts result self.old self.new }
    {
        match read_file(self.rt, alloc, name) {
            Ok(Some(bytes)) => Loaded::Found(bytes),
            Ok(None) => Loaded::Absent,
            Err(Stop::Memory) => Loaded::Memory,
            Err(Stop::Fault) => {
                self.count_fault();
                Loaded::Failed
            }
        }
    }

    fn save(&mut self, alloc: Global, name: &FileName, bytes: &[u8]) -> Saved
        ensures too_long { LONGEST_FILE < length bytes.now → result ≡ Saved.Failed }
        ensures counts { SavedCounts result self.old self.new }
    {
        match write_file(self.rt, alloc, name, bytes) {
            Ok(()) => Saved::Done,
            Err(Stop::Memory) => Saved::Memory,
            Err(Stop::Fault) => {
                self.count_fault();
                Saved::Failed
            }
        }
    }
}

/// Why a call on the folder came to nothing.
#[derive(Clone, Copy)]
enum Stop {
    Fault,
    Memory,
}

impl From<AllocError> for Stop {
    ghost use Rattle.std.specs.Prelude.{◌≡◌};
    ghost use Rattle.shelf_core.specs.declared.host.Stop.TheVariants.{Memory};

    ghost from_gives = { λ _ stop. stop ≡ Memory };

    fn from(_error: AllocError) -> Stop {
        Stop::Memory
    }
}

impl From<io::Error> for Stop {
    fn from(error: io::Error) -> Stop
        ensures memory { error_kind error ≡ ErrorKind.OutOfMemory → result ≡ Stop.Memory }
        ensures fault { error_kind error ≢ ErrorKind.OutOfMemory → result ≡ Stop.Fault }
    {
        match error.kind() {
            ErrorKind::OutOfMemory => Stop::Memory,
            _ => Stop::Fault,
        }
    }
}

/// The path of the file, from the current folder.
fn path_of(alloc: Global, name: &FileName) -> Result<String, Stop>
    ensures { IfOk result (λ path. string_bytes path ≡ file_text name.now) }
{
    let mut path = Vec::new(alloc);
    name.put(&mut path)?;
    String::from_utf8(path).map_err(|_| Stop::Fault)
}

/// The number of bytes of the file, if there is one. What is no file is a fault.
fn file_length<R: Files>(rt: &R, alloc: Global, name: &FileName) -> Result<Option<u64>, Stop> {
    let path = path_of(alloc, name)?;
    match fs::metadata(rt, &path) {
        Ok(found) if found.is_file() => Ok(Some(found.len())),
        Ok(_) => Err(Stop::Fault),
        Err(error) if error.kind() == ErrorKind::NotFound => Ok(None),
        Err(error) => Err(Stop::from(error)),
    }
}

/// The bytes of the file, if there is one.
fn read_file<R: Files>(rt: &R, alloc: Global, name: &FileName) -> Result<Option<Vec<u8>>, Stop>
    ensures { IfOk result (λ found. IfSome found (λ bytes. length bytes.items ≤ LONGEST_FILE)) }
{
    let Some(length) = file_length(rt, alloc, name)? else {
        return Ok(None);
    };
    if length > LONGEST_FILE {
        return Err(Stop::Fault);
    }
    let path = path_of(alloc, name)?;
    let mut bytes = Vec::new(alloc);
    let read = File::open(rt, &path)?
        .take(LONGEST_FILE + 1)
        .read_to_end(&mut bytes)?;
    if read as u64 > LONGEST_FILE {
        return Err(Stop::Fault);
    }
    Ok(Some(bytes))
}

/// Makes the file and writes its bytes. An error in writing is a fault of whatever kind, since a
/// front of the file may be there.
fn write_file<R: Files>(rt: &R, alloc: Global, name: &FileName, bytes: &[u8]) -> Result<(), Stop>
    ensures { LONGEST_FILE < length bytes.now → result ≡ Err Stop.Fault }
{
    if bytes.len() as u64 > LONGEST_FILE {
        return Err(Stop::Fault);
    }
    let path = path_of(alloc, name)?;
    let mut file = File::create_new(rt, &path)?;
    file.write_all(bytes).map_err(|_| Stop::Fault)
}

/// The standard output, as a sink that does not tell what it holds. Each error is a fault.
///
/// Contracts see it as its count of faults, which stops at 2^64 - 1.
#[derive(Drop)]
pub struct OutSink<'a, P: Print> {
    rt: &'a P,
    faults: u64,
}

impl<'a, P: Print> Model for OutSink<'a, P> {
    ghost use Rattle.std.specs.Prelude.{ℕ};

    ghost Value = { ℕ };

    ghost view = { λ sink. sink.faults };
}

impl<'a, P: Print> OutSink<'a, P> {
    /// The standard output, with no fault so far.
    pub fn new(rt: &'a P) -> OutSink<'a, P>
        ensures { result ≡ 0 }
    {
        OutSink { rt, faults: 0 }
    }
}

impl<P: Print> Sink for OutSink<'_, P> {
    ghost use Rattle.std.specs.Prelude.{false, []};

    ghost tells = { λ _. false };

    ghost bytes = { λ _. [] };

    ghost faults = { λ count. count };

    fn put(&mut self, _alloc: Global, piece: &[u8]) -> Put {
        match self.rt.write_all(piece) {
            Ok(()) => Put::Done,
            Err(_) => {
                self.faults = self.faults.saturating_add(1);
                Put::Failed
            }
        }
    }
}
