//! Runs one command of its words over the files of the current folder, prints the answer, and ends
//! with the number of the cause where it stops.
#![tactic(auto)]

use cli_machine::{Cause, Status, number, report};
use cli_session::session;
use shelf_core::{FolderShelf, OutSink, Sink};
use std::env;
use std::io::ErrorKind;
use std::process::ExitCode;
use std::rt::Env;

fn main(rt: HostRuntime) -> ExitCode {
    let alloc = rt.alloc();
    let mut out = OutSink::new(&rt);
    let status = match words_of(&rt) {
        Ok(words) => session(alloc, &words, &mut FolderShelf::new(&rt), &mut out),
        Err(cause) => Status::Stopped { line: 0, cause },
    };
    if let Ok(text) = report(alloc, &status) {
        let _ = out.put(alloc, text.as_slice());
    }
    ExitCode::from(number(&status))
}

/// The arguments after the program's own name, which are to be UTF-8.
fn words_of<R: Env + AllocGlobal>(rt: &R) -> Result<Vec<String>, Cause> {
    let arguments = match env::args(rt) {
        Ok(arguments) => arguments,
        Err(error) if error.kind() == ErrorKind::OutOfMemory => return Err(Cause::Memory),
        Err(_) => return Err(Cause::Words),
    };
    let mut words = Vec::new(rt.alloc());
    for argument in arguments.skip(1) {
        words.push(argument)?;
    }
    Ok(words)
}
