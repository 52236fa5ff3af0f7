//! Arrays as texts.
use crate::fixtures::assert_bytes;
use crate::rows::{fields_of, text_of};
use crate::tables::slots_named;
use slot_array::{SlotsFault, print_slots, read_slots};
use slot_factor::Slots;
use std::alloc::Global;
use std::process::Abort;
use std::test::Fail;

/// Texts: a table, the text, and what is printed of its array, or its first line that is no line of a slot, is one too many, or
/// is missing.
static TEXTS: &str = "\
a:0 1 1;1 0 1:0 1 1;1 0 1;
large:00000000000000131070 1 2~;  3   004 5 ;:131070 1 2;3 4 5;
product:64;0;:64;0;
five:0 1 0 0 0;0 1 1 0 1;0 0 0 0 1;1 0 1 0 0;0 1 0 0 0;0 0 0 0 0;:0 1 0 0 0;0 1 1 0 1;0 0 0 0 1;1 0 1 0 0;0 1 0 0 0;0 0 0 0 0;
large:131071 0 0;0 0 0;:bad 1
large:1 2 3;4 5 131071;:bad 2
a:0 1 0;1 0;:bad 2
a:0 1 0;1 0 0 0;:bad 2
a:0 1 0;1 0 x;:bad 2
a:0 1 0;1 0 2;0 0 0;:bad 2
a:;0 1 0;1 0 0;:bad 1
a:0 1 0;1 0 0;;:bad 3
a:0 1 0~~;1 0 0;:bad 1
a:0 1 000000000000000000001;1 0 0;:bad 1
c:1 1;2 1;3 1;4 1;5 1;6 1;7 1;:bad 8";

/// The texts.
fn texts() -> &'static str {
    TEXTS
}

/// What is printed of the array that a text writes, or its first line at fault.
fn answer(alloc: Global, slots: &Slots, text: &[u8]) -> Result<Vec<u8>, Fail> {
    match read_slots(alloc, slots.cube(), slots.ext(), text) {
        Ok(array) => {
            let copy = array.copy(alloc)?;
            Ok(print_slots(alloc, &copy)?)
        }
        Err(SlotsFault::Bad(line)) => Ok(format!(in alloc; "bad {line}")?.into_bytes()),
        Err(SlotsFault::Memory) => Err(Fail::from("memory")),
    }
}

/// Asserts what a row says of its text.
fn check_text<R: Abort + AllocGlobal>(rt: &R, row: &str) -> Result<(), Fail> {
    let fields = fields_of(rt.alloc(), row)?;
    let [table, text, wanted] = fields.as_slice() else {
        return Err(Fail::from("no text"));
    };
    let slots = slots_named(rt, table)?;
    let text = text_of(rt.alloc(), text)?;
    let found = answer(rt.alloc(), &slots, &text)?;
    assert_bytes(rt, &found, wanted, row)
}

#[test]
fn arrays_as_texts(rt: HostRuntime) -> Result<(), Fail> {
    for row in texts().lines() {
        check_text(&rt, row)?;
    }
    Ok(())
}
