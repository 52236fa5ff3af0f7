//! Programs of as many lines as are allowed and of one more, and a line that is given memory enough.
use crate::commands;
use crate::runs::{Case, SURE, check, run_line, shelf_of};
use crate::spelling::{file_name, files_of};
use shelf_core::MemSink;
use std::alloc::Global;
use std::test::Fail;

#[test]
fn session_always_memory(rt: HostRuntime) -> Result<(), Fail> {
    let case = Case {
        lines: "clear a prod x y",
        prints: "1 1 0;1 1 1;",
        status: 0,
    };
    check(&rt, commands::files(), case, SURE)
}

/// What a program of two instructions behind so many blank lines prints and reports.
fn output_of_long(alloc: Global, blank: usize) -> Result<Vec<u8>, Fail> {
    let mut text = vec![in alloc; b'\n'; blank]?;
    text.extend_from_slice(b"input x\noutput x\n")?;
    let mut files = files_of(alloc, commands::files())?;
    files.push((file_name(alloc, "blank.prog")?, text))?;
    let mut shelf = shelf_of(alloc, files, &[])?;
    let mut sink = MemSink::new(alloc, Vec::new(alloc));
    run_line(alloc, "clear a blank x", &mut shelf, &mut sink)?;
    Ok(Vec::from_slice(alloc, sink.bytes())?)
}

#[test]
fn programs_of_100000_lines(rt: HostRuntime) -> Result<(), Fail> {
    let output = output_of_long(rt.alloc(), 99_998)?;
    assert_eq!(rt; output.as_slice(), b"0 1 0\n1 0 0\n".as_slice());
    Ok(())
}

#[test]
fn programs_of_100001_lines(rt: HostRuntime) -> Result<(), Fail> {
    let output = output_of_long(rt.alloc(), 99_999)?;
    assert_eq!(rt;
        output.as_slice(),
        b"stopped 0 BadProgram 100001\n".as_slice()
    );
    Ok(())
}
