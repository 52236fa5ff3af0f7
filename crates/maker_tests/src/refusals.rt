//! Templates that are not filled.
use crate::texts::{SMALL, edited};
use line_text::TableKey;
use std::process::Abort;
use std::test::Fail;
use table_maker::{MakeFault, make};

/// Some lines of the template with others in their place, and the fault then.
type Row<'a> = (&'a [(usize, &'a str)], MakeFault);

/// Asserts that each edited template has its fault.
fn assert_faults<R: Abort + AllocGlobal>(rt: &R, rows: &[Row<'_>]) -> Result<(), Fail> {
    for (edits, fault) in rows.iter() {
        let text = edited(rt.alloc(), &SMALL, edits)?;
        let given = make(rt.alloc(), text.as_bytes()).err();
        assert_eq!(rt; given, Some(*fault), "of {text}");
    }
    Ok(())
}

#[test]
fn bad_templates(rt: HostRuntime) -> Result<(), Fail> {
    let bad = MakeFault::BadTemplate;
    assert_faults(
        &rt,
        &[
            (&[(0, "m = ")], bad(TableKey::Text)),
            (
                &[(8, "special = [9223372036854775808]")],
                bad(TableKey::Text),
            ),
            (&[(0, "")], bad(TableKey::M)),
            (&[(1, "")], bad(TableKey::P)),
            (&[(1, "p = 1")], bad(TableKey::P)),
            (&[(2, "factor = [1, 1, 0, 0]")], bad(TableKey::Factor)),
            (&[(3, "dual = [[1, 0, 0]]")], bad(TableKey::Dual)),
            (&[(4, "generators = [6, 2]")], bad(TableKey::Generators)),
            (&[(5, "")], bad(TableKey::Weight)),
            (&[(6, "digits = [2]")], bad(TableKey::Digits)),
            (&[(7, "chain = [[113, 7, 40, 1]]")], bad(TableKey::Chain)),
            (&[(7, "chain = [112]")], bad(TableKey::Chain)),
            (
                &[(8, "special = [4611686018427387905]")],
                bad(TableKey::Special),
            ),
            (&[(8, "")], bad(TableKey::Special)),
            (
                &[(8, "special = [337]\ninverse = [[], [170]]")],
                bad(TableKey::Other),
            ),
            (&[(5, ""), (7, "chain = [15]")], bad(TableKey::Weight)),
        ],
    )
}

#[test]
fn no_roots(rt: HostRuntime) -> Result<(), Fail> {
    let rootless = MakeFault::NoRoot;
    assert_faults(
        &rt,
        &[
            (&[(7, "chain = [15]")], rootless(0)),
            (&[(8, "special = [15]")], rootless(1)),
            (&[(7, "chain = [15]"), (8, "special = [15]")], rootless(0)),
            (
                &[(6, "digits = [2]"), (7, "chain = [113, 15]")],
                rootless(1),
            ),
            (&[(8, "special = [337, 113, 15, 3]")], rootless(3)),
            (&[(7, "chain = [38081]")], rootless(0)),
        ],
    )
}
