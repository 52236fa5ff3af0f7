//! The outside of a session: a shelf of files and a sink of bytes, as traits whose contracts a
//! caller is proved against, and six types that meet them.
//!
//! - [`MemShelf`] and [`MemSink`] keep everything in memory, and fail the calls that they are told
//!   to fail.
//! - [`SureShelf`] and [`SureSink`] are the same and never fail.
//! - [`FolderShelf`] and [`OutSink`] are the files of the current folder and the standard output.
#![tactic(auto)]

mod files;
mod host;
mod memory;
mod numbered;
mod outside;
mod sure;

pub use files::{are_distinct, law_files};
pub use host::{FolderShelf, OutSink};
pub use memory::{MemShelf, MemSink};
pub use outside::{Held, Loaded, Put, Saved, Shelf, Sink};
pub use sure::{SureShelf, SureSink};
