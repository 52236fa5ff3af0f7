//! The machine of the program: the words of a line as a command, what a command asks of the files,
//! the causes of a stop, and the report and exit status of a session's end.
//!
//! The definition of the machine stands in `specs/`: `Commands` has the grammar of the words,
//! `Machine` what each command asks for, `Effects` what may be left behind, `Clauses` what the end
//! of a line says of the files and of the printed bytes, and `Report` the printed report.
#![tactic(auto)]

mod cause;
mod command;
mod effect;
mod names;
mod reports;

pub use cause::{Cause, Status};
pub use command::{Command, command_of};
pub use effect::{Effect, Text};
pub use names::Names;
pub use reports::{number, report};
