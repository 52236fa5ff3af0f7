//! A shelf and a sink in memory that never fail.
ghost use Rattle.std.specs.Prelude.{◌≡◌, ◌∷◌, ◌++◌, [], false, None, option_map, OnOk, OnErr};
ghost use Rattle.shelf_core.specs.Files.{bytes_of, files_of, AreDistinct};
ghost use Rattle.shelf_core.specs.Outcomes.{IsHeld, IsLoaded, IsSaved, IsPut, held_failed, load_failed, save_failed, put_failed};

use crate::files::find;
use crate::outside::{Held, Loaded, Put, Saved, Shelf, Sink};
use line_text::FileName;
use std::alloc::{AllocError, Global};
use std::marker::Model;

/// A shelf in memory that never fails. Contracts see it as the list of its files.
#[derive(Drop)]
pub struct SureShelf {
    files: Vec<(FileName, Vec<u8>)>,
}

impl Model for SureShelf {
    ghost use Rattle.std.specs.Prelude.{List};
    ghost use Rattle.shelf_core.specs.Files.{File, files_of, AreDistinct};

    ghost Value = { List File };

    ghost view = { λ shelf. files_of shelf.files.items };

    ghost invariant = { λ shelf. AreDistinct (files_of shelf.files.items) };
}

impl SureShelf {
    /// A shelf that holds these files, no two of which have the same name.
    pub fn new(files: Vec<(FileName, Vec<u8>)>) -> SureShelf
        requires { AreDistinct (files_of files.items) }
        ensures { result ≡ files_of files.items }
    {
        SureShelf { files }
    }

    /// The files held, in the order in which they were written.
    pub fn files(&self) -> &[(FileName, Vec<u8>)]
        ensures files { files_of result.now ≡ self.now }
        ensures distinct { AreDistinct self.now }
    {
        self.files.as_slice()
    }

    fn find(&self, name: &FileName) -> Option<&[u8]>
        ensures { option_map (λ bytes. bytes.now) result ≡ bytes_of name.now self.now }
    {
        find(self.files.as_slice(), name)
    }

    fn add(&mut self, alloc: Global, name: &FileName, bytes: &[u8]) -> Result<(), AllocError>
        requires { bytes_of name.now self.old ≡ None }
        ensures ok { OnOk result (self.new ≡ self.old ++ record { name = name.now; bytes = bytes.now } ∷ []) }
        ensures err { OnErr result (self.new ≡ self.old) }
    {
        let name = name.copy(alloc)?;
        let bytes = Vec::from_slice(alloc, bytes)?;
        self.files.push((name, bytes))?;
        Ok(())
    }
}

impl Shelf for SureShelf {
    ghost use Rattle.std.specs.Prelude.{true};

    ghost tells = { λ _. true };

    ghost files = { λ shelf. shelf };

    ghost faults = { λ _. 0 };

    fn has(&mut self, _alloc: Global, name: &FileName) -> Held
        ensures kept { self.new ≡ self.old }
        ensures held { IsHeld result (bytes_of name.now self.old) }
        ensures sure { held_failed result ≡ false }
    {
        match self.find(name) {
            Some(_) => Held::Yes,
            None => Held::No,
        }
    }

    fn load(&mut self, alloc: Global, name: &FileName) -> Loaded
        ensures kept { self.new ≡ self.old }
        ensures loaded { IsLoaded result (bytes_of name.now self.old) }
        ensures sure { load_failed result ≡ false }
    {
        let Some(bytes) = self.find(name) else {
            return Loaded::Absent;
        };
        match Vec::from_slice(alloc, bytes) {
            Ok(bytes) => Loaded::Found(bytes),
            Err(_) => Loaded::Memory,
        }
    }

    fn save(&mut self, alloc: Global, name: &FileName, bytes: &[u8]) -> Saved
        requires { bytes_of name.now self.old ≡ None }
        ensures saved { IsSaved result (record { name = name.now; bytes = bytes.now }) self.old self.new }
        ensures sure { save_failed result ≡ false }
    {
        match self.add(alloc, name, bytes) {
            Ok(()) => Saved::Done,
            Err(_) => Saved::Memory,
        }
    }
}

/// A sink in memory that never fails. Contracts see it as the list of its bytes.
#[derive(Drop)]
pub struct SureSink {
    bytes: Vec<u8>,
}

impl Model for SureSink {
    ghost use Rattle.std.specs.Prelude.{ℕ, List};

    ghost Value = { List ℕ };

    ghost view = { λ sink. sink.bytes.items };
}

impl SureSink {
    /// A sink that holds nothing.
    pub fn new(alloc: Global) -> SureSink
        ensures { result ≡ [] }
    {
        SureSink {
            bytes: Vec::new(alloc),
        }
    }

    /// The bytes so far.
    pub fn bytes(&self) -> &[u8]
        ensures { result.now ≡ self.now }
    {
        self.bytes.as_slice()
    }
}

impl Sink for SureSink {
    ghost use Rattle.std.specs.Prelude.{true};

    ghost tells = { λ _. true };

    ghost bytes = { λ sink. sink };

    ghost faults = { λ _. 0 };

    fn put(&mut self, _alloc: Global, piece: &[u8]) -> Put
        ensures put { IsPut result piece.now self.old self.new }
        ensures sure { put_failed result ≡ false }
    {
        match self.bytes.extend_from_slice(piece) {
            Ok(()) => Put::Done,
            Err(_) => Put::Memory,
        }
    }
}
