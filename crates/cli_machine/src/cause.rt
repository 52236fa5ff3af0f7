//! How a session ends, and why it stops.
use he_files::Header;
use line_text::{FileName, TableKey};
use noise_bound::Bound;
use std::alloc::{AllocError, AllocFailed};
use table_file::TableFault;

/// Why a line stops.
#[derive(Debug, Drop)]
pub enum Cause {
    /// The words are in no command's grammar.
    Words,
    /// The shelf has no file of this name.
    NoFile {
        file: FileName,
    },
    /// The shelf has a file of the name that is to be saved.
    NameTaken {
        file: FileName,
    },
    /// The table fails this check, which is never `Memory`.
    BadTable {
        fault: TableFault,
    },
    /// The text of an array breaks its grammar at this line.
    BadSlots {
        line: u32,
    },
    /// The text of a program breaks its grammar at this line.
    BadProgram {
        line: u32,
    },
    /// The text of a seed breaks its grammar.
    BadSeed,
    /// The text is no template: the first key that is missing or not of its form.
    BadTemplate {
        key: TableKey,
    },
    /// The bytes are no key of the table: the offset of the first fault.
    BadKey {
        file: FileName,
        place: u64,
    },
    /// The bytes are no ciphertext of the table: the offset of the first fault.
    BadCipher {
        file: FileName,
        place: u64,
    },
    /// No base gives roots for this modulus of the template.
    NoRoot {
        i: u32,
    },
    /// The program names another number of inputs than are given.
    Arity {
        given: u64,
        named: u32,
    },
    /// The file is of the key `got`, and the first file of the command is of the key `want`.
    WrongKey {
        want: Header,
        got: Header,
    },
    /// The bound of a ciphertext is not below the limit of its level: line 0 at an encryption.
    TooNoisy {
        line: u32,
        bound: Bound,
        limit: Bound,
    },
    /// The table of this file is plain, and the command needs its moduli.
    NoChain {
        file: FileName,
    },
    /// The shelf failed, in this many answers of the line: 1.
    ShelfFault {
        faults: u32,
    },
    /// The sink failed, in this many answers of the line: 1.
    SinkFault {
        faults: u32,
    },
    /// There was not memory enough.
    Memory,
}

impl From<AllocError> for Cause {
    ghost use Rattle.std.specs.Prelude.{◌≡◌};
    ghost use Rattle.cli_machine.specs.declared.cause.Cause.TheVariants.{Memory};

    ghost from_gives = { λ _ cause. cause ≡ Memory };

    fn from(_error: AllocError) -> Cause {
        Cause::Memory
    }
}

impl<T: Drop> From<AllocFailed<T>> for Cause {
    ghost use Rattle.std.specs.Prelude.{◌≡◌};
    ghost use Rattle.cli_machine.specs.declared.cause.Cause.TheVariants.{Memory};

    ghost from_gives = { λ _ cause. cause ≡ Memory };

    fn from(_error: AllocFailed<T>) -> Cause {
        Cause::Memory
    }
}

/// How a session ends.
#[derive(Debug, Drop)]
pub enum Status {
    /// Each line has done what it asks for.
    Done,
    /// This line did not: 0 for the program's own words.
    Stopped { line: u32, cause: Cause },
}
