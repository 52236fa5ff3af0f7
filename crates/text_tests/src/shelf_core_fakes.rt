//! The folder and the standard output over a system that gives trouble in mid-stream.
ghost use Rattle.std.specs.Prelude.{◌≡◌, IfOk};

use crate::shelf_core_rows::{file_name, held_word, put_loaded, put_word, saved_word};
use line_text::FileKind;
use shelf_core::{FolderShelf, OutSink, Shelf, Sink};
use std::alloc::{Allocator, Global};
use std::fmt::Display;
use std::fs::{Metadata, OpenFile, OpenOptions};
use std::io::{self, Error, ErrorKind, Read, Seek, SeekFrom, Write};
use std::rt::Files;
use std::test::Fail;

/// What goes wrong in a system that has one file, `xxxx`, and can make and print others.
#[derive(Clone, Copy, Debug)]
enum Trouble {
    Nothing,
    FileMissing,
    NoWayToLook,
    NoMemoryToLook,
    LongestFile,
    TooLongFile,
    NoWayToOpen,
    ErrorInStream,
    NoMemoryInStream,
    WriteTakesNothing,
}

/// The open file, and how many of its bytes were read or written.
#[derive(Drop)]
struct TroubledFile {
    trouble: Trouble,
    done: usize,
}

impl TroubledFile {
    /// One byte more, but for the trouble after two of them.
    fn step(&mut self) -> io::Result<usize>
        ensures { IfOk result (λ taken. taken ≡ 1) }
    {
        match self.trouble {
            Trouble::ErrorInStream if self.done == 2 => Err(Error::from(ErrorKind::StorageFull)),
            Trouble::NoMemoryInStream if self.done == 2 => Err(Error::from(ErrorKind::OutOfMemory)),
            _ => {
                self.done = self.done.saturating_add(1);
                Ok(1)
            }
        }
    }
}

impl Read for TroubledFile {
    fn read(&mut self, buf: &mut [u8]) -> io::Result<usize> {
        if self.done >= 4 || buf.is_empty() {
            return Ok(0);
        }
        let read = self.step()?;
        buf[0] = b'x';
        Ok(read)
    }
}

impl Write for TroubledFile {
    fn write(&mut self, buf: &[u8]) -> io::Result<usize> {
        if matches!(self.trouble, Trouble::WriteTakesNothing) || buf.is_empty() {
            return Ok(0);
        }
        self.step()
    }

    fn flush(&mut self) -> io::Result<()> {
        Ok(())
    }
}

impl Seek for TroubledFile {
    fn seek(&mut self, _to: SeekFrom) -> io::Result<u64> {
        Err(Error::from(ErrorKind::Unsupported))
    }
}

impl OpenFile for TroubledFile {
    fn metadata(&self) -> io::Result<Metadata> {
        Err(Error::from(ErrorKind::Unsupported))
    }

    fn set_len(&self, _size: u64) -> io::Result<()> {
        Err(Error::from(ErrorKind::Unsupported))
    }

    fn sync_all(&self) -> io::Result<()> {
        Err(Error::from(ErrorKind::Unsupported))
    }

    fn sync_data(&self) -> io::Result<()> {
        Err(Error::from(ErrorKind::Unsupported))
    }
}

impl Files for Trouble {
    type File = TroubledFile;

    type Dir = TroubledFile;

    fn open_file(&self, _how: &OpenOptions, _path: &str) -> io::Result<TroubledFile> {
        match *self {
            Trouble::NoWayToOpen => Err(Error::from(ErrorKind::PermissionDenied)),
            trouble => Ok(TroubledFile { trouble, done: 0 }),
        }
    }

    fn open_dir(&self, _path: &str) -> io::Result<TroubledFile> {
        Err(Error::from(ErrorKind::Unsupported))
    }

    fn metadata(&self, _path: &str) -> io::Result<Metadata> {
        match self {
            Trouble::FileMissing => Err(Error::from(ErrorKind::NotFound)),
            Trouble::NoWayToLook => Err(Error::from(ErrorKind::PermissionDenied)),
            Trouble::NoMemoryToLook => Err(Error::from(ErrorKind::OutOfMemory)),
            Trouble::LongestFile => Ok(Metadata::of_file(1 << 30)),
            Trouble::TooLongFile => Ok(Metadata::of_file((1 << 30) + 1)),
            _ => Ok(Metadata::of_file(4)),
        }
    }

    fn symlink_metadata(&self, _path: &str) -> io::Result<Metadata> {
        Err(Error::from(ErrorKind::Unsupported))
    }

    fn copy(&self, _from: &str, _to: &str) -> io::Result<u64> {
        Err(Error::from(ErrorKind::Unsupported))
    }

    fn rename(&self, _from: &str, _to: &str) -> io::Result<()> {
        Err(Error::from(ErrorKind::Unsupported))
    }

    fn remove_file(&self, _path: &str) -> io::Result<()> {
        Err(Error::from(ErrorKind::Unsupported))
    }

    fn create_dir(&self, _path: &str) -> io::Result<()> {
        Err(Error::from(ErrorKind::Unsupported))
    }

    fn remove_dir(&self, _path: &str) -> io::Result<()> {
        Err(Error::from(ErrorKind::Unsupported))
    }

    fn remove_dir_all<B: Allocator>(&self, _alloc: B, _path: &str) -> io::Result<()> {
        Err(Error::from(ErrorKind::Unsupported))
    }
}

impl Print for Trouble {
    fn print<D: Display + Drop>(&self, _value: D) -> io::Result<()> {
        Err(Error::from(ErrorKind::Unsupported))
    }

    fn println<D: Display + Drop>(&self, _value: D) -> io::Result<()> {
        Err(Error::from(ErrorKind::Unsupported))
    }

    fn write_all(&self, bytes: &[u8]) -> io::Result<()> {
        let mut file = TroubledFile {
            trouble: *self,
            done: 0,
        };
        file.write_all(bytes)
    }
}

/// What `has`, `load`, `save` and `put` answer.
fn answers(alloc: Global, trouble: &Trouble) -> Result<String, Fail> {
    let name = file_name(alloc, b"k", FileKind::Cipher)?;
    let mut shelf = FolderShelf::new(trouble);
    let mut sink = OutSink::new(trouble);
    let mut out = String::new(alloc);
    out.push_str(held_word(shelf.has(alloc, &name)))?;
    put_loaded(shelf.load(alloc, &name), &mut out)?;
    out.push_str(saved_word(shelf.save(alloc, &name, b"abcd")))?;
    out.push_str(put_word(sink.put(alloc, b"abcd")))?;
    Ok(out)
}

#[test]
fn trouble_in_mid_stream(rt: HostRuntime) -> Result<(), Fail> {
    let rows: [(Trouble, &str); 10] = [
        (Trouble::Nothing, "yes xxxx done done "),
        (Trouble::FileMissing, "no absent done done "),
        (Trouble::NoWayToLook, "failed failed done done "),
        (Trouble::NoMemoryToLook, "memory memory done done "),
        (Trouble::LongestFile, "yes xxxx done done "),
        (Trouble::TooLongFile, "yes failed done done "),
        (Trouble::NoWayToOpen, "yes failed failed done "),
        (Trouble::ErrorInStream, "yes failed failed failed "),
        (Trouble::NoMemoryInStream, "yes memory failed failed "),
        (Trouble::WriteTakesNothing, "yes xxxx failed failed "),
    ];
    for (trouble, want) in rows {
        let got = answers(rt.alloc(), &trouble)?;
        assert_eq!(rt; got.as_str(), want, "{trouble:?}");
    }
    Ok(())
}
