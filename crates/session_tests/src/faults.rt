//! Calls of the shelf and of the sink that fail: the line stops with its fault, and the files stay as they were.
use crate::runs::{Case, Failing, check};
use crate::{ciphers, commands};
use std::process::Abort;
use std::test::Fail;

/// Asserts that a line stops at each failing call of the shelf, of which it makes so many.
fn check_calls<R: Abort + AllocGlobal>(
    rt: &R,
    list: &str,
    lines: &str,
    calls: u64,
) -> Result<(), Fail> {
    let case = Case {
        lines,
        prints: "stopped 0 ShelfFault 1;",
        status: 30,
    };
    for call in 0..calls {
        let failing = Failing {
            shelf: &[call],
            sink: &[],
        };
        check(rt, list, case, failing)?;
    }
    Ok(())
}

/// Asserts that a line that prints stops at the failing call of the sink.
fn check_print<R: Abort + AllocGlobal>(rt: &R, list: &str, lines: &str) -> Result<(), Fail> {
    let case = Case {
        lines,
        prints: "stopped 0 SinkFault 1;",
        status: 31,
    };
    let failing = Failing {
        shelf: &[],
        sink: &[0],
    };
    check(rt, list, case, failing)
}

#[test]
fn each_call_of_a_plain_line_fails(rt: HostRuntime) -> Result<(), Fail> {
    check_calls(&rt, commands::files(), "clear a prod x y", 4)?;
    check_calls(&rt, commands::files(), "table a", 1)?;
    check_calls(&rt, commands::files(), "maketable mb made", 3)
}

#[test]
fn each_call_of_a_key_line_fails(rt: HostRuntime) -> Result<(), Fail> {
    check_calls(&rt, ciphers::files(), "keygen a n z 1", 4)?;
    check_calls(&rt, ciphers::files(), "pubkey k2 z 2", 5)
}

#[test]
fn each_call_of_a_cipher_line_fails(rt: HostRuntime) -> Result<(), Fail> {
    check_calls(&rt, ciphers::files(), "encrypt k e z 3 x", 6)?;
    check_calls(&rt, ciphers::files(), "decrypt k c", 3)?;
    check_calls(&rt, ciphers::files(), "noise c", 2)
}

#[test]
fn the_call_of_the_sink_fails(rt: HostRuntime) -> Result<(), Fail> {
    check_print(&rt, commands::files(), "clear a prod x y")?;
    check_print(&rt, commands::files(), "table a")?;
    check_print(&rt, ciphers::files(), "decrypt k c")?;
    check_print(&rt, ciphers::files(), "noise c")
}

/// The fourth save of four lines fails, and what the first three saved stands.
#[test]
fn the_fourth_save_fails(rt: HostRuntime) -> Result<(), Fail> {
    let case = Case {
        lines: "keygen a n z 1|pubkey n z 2|encrypt n e z 3 x|encrypt n f z 4 x|same n.sk n1.sk|decrypt n e|decrypt n f",
        prints: "stopped 0 ShelfFault 1;0 1 0;1 0 0;stopped 0 NoFile f.ct;",
        status: 3,
    };
    let failing = Failing {
        shelf: &[20],
        sink: &[],
    };
    check(&rt, ciphers::files(), case, failing)
}

/// A line that stopped at a fault can be given again.
#[test]
fn a_line_again_after_a_fault(rt: HostRuntime) -> Result<(), Fail> {
    let case = Case {
        lines: "keygen a n z 1|keygen a n z 1|same n.sk n1.sk|decrypt k c|decrypt k c",
        prints: "stopped 0 ShelfFault 1;stopped 0 SinkFault 1;0 1 0;1 0 0;",
        status: 0,
    };
    let failing = Failing {
        shelf: &[3],
        sink: &[2],
    };
    check(&rt, ciphers::files(), case, failing)
}
