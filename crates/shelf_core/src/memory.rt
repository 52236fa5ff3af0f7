//! A shelf and a sink in memory that fail the calls that they are told to fail.
ghost use Rattle.std.specs.Prelude.{◌≡◌, [], None, IsTrue};
ghost use Rattle.shelf_core.specs.Files.{bytes_of, files_of, AreDistinct};
ghost use Rattle.shelf_core.specs.Outcomes.{IsHeld, IsLoaded, IsSaved, IsPut, HeldCounts, LoadedCounts, SavedCounts, PutCounts, held_failed, load_failed, save_failed, put_failed};
ghost use Rattle.shelf_core.specs.Calls.{IsCall};

use crate::numbered::CallCount;
use crate::outside::{Held, Loaded, Put, Saved, Shelf, Sink};
use crate::sure::{SureShelf, SureSink};
use line_text::FileName;
use std::alloc::Global;
use std::marker::Model;

/// A shelf in memory whose calls fail where their number is in a list. The calls of `has`, `load`
/// and `save` are numbered together from 0. After 2^64 - 1 calls none fails any more.
///
/// Contracts see it as its files and its calls.
#[derive(Drop)]
pub struct MemShelf {
    shelf: SureShelf,
    calls: CallCount,
}

impl Model for MemShelf {
    ghost use Rattle.shelf_core.specs.Calls.{ShelfState};

    ghost Value = { ShelfState };

    ghost view = { λ shelf. record { files = shelf.shelf; calls = shelf.calls } };
}

impl MemShelf {
    /// A shelf that holds these files, no two of which have the same name, and that fails the calls
    /// with these numbers.
    pub fn new(files: Vec<(FileName, Vec<u8>)>, failing: Vec<u64>) -> MemShelf
        requires { AreDistinct (files_of files.items) }
        ensures { result ≡ record {
          files = files_of files.items;
          calls = record { failing = failing.items; made = 0; faults = 0 };
        } }
    {
        MemShelf {
            shelf: SureShelf::new(files),
            calls: CallCount::new(failing),
        }
    }

    /// The files held, in the order in which they were written.
    pub fn files(&self) -> &[(FileName, Vec<u8>)]
        ensures files { files_of result.now ≡ self.now.files }
        ensures distinct { AreDistinct self.now.files }
    {
        self.shelf.files()
    }
}

impl Shelf for MemShelf {
    ghost use Rattle.std.specs.Prelude.{true};

    ghost tells = { λ _. true };

    ghost files = { λ shelf. shelf.files };

    ghost faults = { λ shelf. shelf.calls.faults };

    fn has(&mut self, alloc: Global, name: &FileName) -> Held
        ensures kept { self.new.files ≡ self.old.files }
        ensures held { IsHeld result (bytes_of name.now self.old.files) }
        ensures counts { HeldCounts result self.old.calls.faults self.new.calls.faults }
        ensures call { IsCall (held_failed result) self.old.calls self.new.calls }
    {
        if self.calls.next_fails() {
            return Held::Failed;
        }
        self.shelf.has(alloc, name)
    }

    fn load(&mut self, alloc: Global, name: &FileName) -> Loaded
        ensures kept { self.new.files ≡ self.old.files }
        ensures loaded { IsLoaded result (bytes_of name.now self.old.files) }
        ensures counts { LoadedCounts result self.old.calls.faults self.new.calls.faults }
        ensures call { IsCall (load_failed result) self.old.calls self.new.calls }
    {
        if self.calls.next_fails() {
            return Loaded::Failed;
        }
        self.shelf.load(alloc, name)
    }

    fn save(&mut self, alloc: Global, name: &FileName, bytes: &[u8]) -> Saved
        requires { bytes_of name.now self.old.files ≡ None }
        ensures saved { IsSaved result (record { name = name.now; bytes = bytes.now }) self.old.files self.new.files }
        ensures counts { SavedCounts result self.old.calls.faults self.new.calls.faults }
        ensures call { IsCall (save_failed result) self.old.calls self.new.calls }
    {
        if self.calls.next_fails() {
            return Saved::Failed;
        }
        self.shelf.save(alloc, name, bytes)
    }
}

/// A sink in memory whose calls of `put` fail where their number, from 0, is in a list. A call that
/// fails appends nothing. After 2^64 - 1 calls none fails any more.
///
/// Contracts see it as its bytes and its calls.
#[derive(Drop)]
pub struct MemSink {
    sink: SureSink,
    calls: CallCount,
}

impl Model for MemSink {
    ghost use Rattle.shelf_core.specs.Calls.{SinkState};

    ghost Value = { SinkState };

    ghost view = { λ sink. record { bytes = sink.sink; calls = sink.calls } };
}

impl MemSink {
    /// A sink that holds nothing, and that fails the calls with these numbers.
    pub fn new(alloc: Global, failing: Vec<u64>) -> MemSink
        ensures { result ≡ record {
          bytes = [];
          calls = record { failing = failing.items; made = 0; faults = 0 };
        } }
    {
        MemSink {
            sink: SureSink::new(alloc),
            calls: CallCount::new(failing),
        }
    }

    /// The bytes so far.
    pub fn bytes(&self) -> &[u8]
        ensures { result.now ≡ self.now.bytes }
    {
        self.sink.bytes()
    }
}

impl Sink for MemSink {
    ghost use Rattle.std.specs.Prelude.{true};

    ghost tells = { λ _. true };

    ghost bytes = { λ sink. sink.bytes };

    ghost faults = { λ sink. sink.calls.faults };

    fn put(&mut self, alloc: Global, piece: &[u8]) -> Put
        ensures put { IsPut result piece.now self.old.bytes self.new.bytes }
        ensures nothing { IsTrue (put_failed result) → self.new.bytes ≡ self.old.bytes }
        ensures counts { PutCounts result self.old.calls.faults self.new.calls.faults }
        ensures call { IsCall (put_failed result) self.old.calls self.new.calls }
    {
        if self.calls.next_fails() {
            return Put::Failed;
        }
        self.sink.put(alloc, piece)
    }
}
