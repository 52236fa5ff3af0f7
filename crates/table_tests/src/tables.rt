//! Tables and what is wrong with them.
use crate::texts::edited;
use line_text::TableKey;
use std::process::Abort;
use std::test::Fail;
use table_keys::{DocumentFault, law_documents, read_document, write_document};

/// A whole table, one key a line.
const TABLE: [&str; 10] = [
    "m = 7",
    "p = 2",
    "factor = [1, 1, 0, 1]",
    "dual = [[1, 0, 0], [0, 0, 1], [0, 1, 0]]",
    "generators = [[6, 2]]",
    "weight = 2",
    "digits = [1]",
    "chain = [[113, 7, 40, 1]]",
    "special = [[337, 285, 191, 1]]",
    "inverse = [[], [170]]",
];

/// Some lines of the table with others in their place, and the key at fault then.
type Row<'a> = (&'a [(usize, &'a str)], TableKey);

/// Asserts that each edited table has a fault of shape at its key.
fn assert_shapes<R: Abort + AllocGlobal>(rt: &R, rows: &[Row<'_>]) -> Result<(), Fail> {
    for (edits, key) in rows.iter() {
        let text = edited(rt.alloc(), &TABLE, edits)?;
        let fault = read_document(rt.alloc(), text.as_bytes()).err();
        assert_eq!(rt; fault, Some(DocumentFault::Shape(*key)), "of {text}");
    }
    Ok(())
}

#[test]
fn a_whole_table(rt: HostRuntime) -> Result<(), Fail> {
    law_documents();
    let text = edited(rt.alloc(), &TABLE, &[])?;
    let table = read_document(rt.alloc(), text.as_bytes())?;
    assert_eq!(rt; (table.m, table.p), (7, 2));
    assert_eq!(rt; table.factor.as_slice(), [1, 1, 0, 1].as_slice());
    assert_eq!(rt; table.dual.len(), 3);
    assert_eq!(rt; table.dual[1].as_slice(), [0, 0, 1].as_slice());
    assert_eq!(rt; table.generators.as_slice(), [(6, 2)].as_slice());
    let Some(moduli) = &table.moduli else {
        return Err(Fail::new("no moduli"));
    };
    assert_eq!(rt; moduli.weight, 2);
    assert_eq!(rt; moduli.digits.as_slice(), [1].as_slice());
    assert_eq!(rt; (moduli.chain.len(), moduli.special.len()), (1, 1));
    let row = moduli.special[0];
    assert_eq!(rt;
        (row.q, row.zeta, row.psi, row.plain_inverse),
        (337, 285, 191, 1)
    );
    assert_eq!(rt; moduli.inverse.len(), 2);
    assert_eq!(rt; moduli.inverse[1].as_slice(), [170].as_slice());
    Ok(())
}

#[test]
fn a_plain_table(rt: HostRuntime) -> Result<(), Fail> {
    let text = edited(rt.alloc(), &TABLE[..5], &[(1, "p = 2 # two")])?;
    let table = read_document(rt.alloc(), text.as_bytes())?;
    assert_eq!(rt; (table.m, table.p), (7, 2));
    assert!(rt; table.moduli.is_none());
    Ok(())
}

#[test]
fn no_document(rt: HostRuntime) -> Result<(), Fail> {
    let rows: [&[(usize, &str)]; 5] = [
        &[(0, "m = ")],
        &[(0, "m = 2"), (1, "m = 7")],
        &[(0, "m = 9223372036854775808")],
        &[(2, "factor = [1, 1, 0, 1")],
        &[(0, "m = 2"), (9, "inverse")],
    ];
    for edits in rows {
        let text = edited(rt.alloc(), &TABLE, edits)?;
        let fault = read_document(rt.alloc(), text.as_bytes()).err();
        assert_eq!(rt; fault, Some(DocumentFault::Text), "of {text}");
    }
    let fault = read_document(rt.alloc(), b"m = 7 # \xff\n").err();
    assert_eq!(rt; fault, Some(DocumentFault::Text));
    Ok(())
}

#[test]
fn numbers(rt: HostRuntime) -> Result<(), Fail> {
    assert_shapes(
        &rt,
        &[
            (&[(0, "")], TableKey::M),
            (&[(0, "m = 2")], TableKey::M),
            (&[(0, "m = 65537")], TableKey::M),
            (&[(0, "m = -7")], TableKey::M),
            (&[(0, "m = 7.0")], TableKey::M),
            (&[(0, "m = [7]")], TableKey::M),
            (&[(0, "m.n = 7")], TableKey::M),
            (&[(1, "p = 1")], TableKey::P),
            (&[(1, "p = 131072")], TableKey::P),
            (&[(5, "weight = 0")], TableKey::Weight),
            (&[(5, "weight = 65537")], TableKey::Weight),
        ],
    )
}

#[test]
fn lists(rt: HostRuntime) -> Result<(), Fail> {
    assert_shapes(
        &rt,
        &[
            (&[(2, "factor = [1]"), (3, "dual = []")], TableKey::Factor),
            (&[(2, "factor = [1, 2, 0, 1]")], TableKey::Factor),
            (&[(2, "factor = [1, 1, 1, 0]")], TableKey::Factor),
            (&[(2, "factor = [1, '1', 0, 1]")], TableKey::Factor),
            (&[(3, "dual = [[1, 0, 0], [0, 0, 1]]")], TableKey::Dual),
            (
                &[(3, "dual = [[1, 0], [0, 0, 1], [0, 1, 0]]")],
                TableKey::Dual,
            ),
            (
                &[(3, "dual = [[1, 0, 2], [0, 0, 1], [0, 1, 0]]")],
                TableKey::Dual,
            ),
            (&[(3, "dual = [1, 0, 0]")], TableKey::Dual),
            (&[(4, "generators = [[7, 2]]")], TableKey::Generators),
            (&[(4, "generators = [[0, 2]]")], TableKey::Generators),
            (&[(4, "generators = [[6, 8]]")], TableKey::Generators),
            (&[(4, "generators = [[6, 0]]")], TableKey::Generators),
            (&[(4, "generators = [[6]]")], TableKey::Generators),
        ],
    )
}

#[test]
fn moduli(rt: HostRuntime) -> Result<(), Fail> {
    assert_shapes(
        &rt,
        &[
            (&[(8, "special = []")], TableKey::Special),
            (&[(8, "special = [[337, 285, 191]]")], TableKey::Special),
            (&[(8, "special = [[337, 285, 191, -1]]")], TableKey::Special),
            (&[(7, "chain = [113, 7, 40, 1]")], TableKey::Digits),
            (&[(7, "chain = [113]")], TableKey::Chain),
            (&[(7, "chain = 113")], TableKey::Chain),
            (&[(9, "inverse = [[]]")], TableKey::Inverse),
            (&[(9, "inverse = [[], []]")], TableKey::Inverse),
            (&[(9, "inverse = [[1], [170]]")], TableKey::Inverse),
            (&[(9, "inverse = [[], [170], []]")], TableKey::Inverse),
        ],
    )
}

#[test]
fn digits_against_chain(rt: HostRuntime) -> Result<(), Fail> {
    let wrapping = "digits = [1, 9223372036854775807, 9223372036854775807, 2]";
    assert_shapes(
        &rt,
        &[
            (&[(6, "digits = [2]")], TableKey::Digits),
            (&[(6, "digits = [1, 0]")], TableKey::Digits),
            (&[(6, wrapping)], TableKey::Digits),
            (&[(7, "chain = []")], TableKey::Digits),
            (&[(6, "digits = []"), (7, "chain = []")], TableKey::Chain),
            (&[(6, "digits = []"), (7, "chain = 1")], TableKey::Chain),
            (&[(6, "digits = []"), (7, "")], TableKey::Chain),
            (&[(6, wrapping), (7, "")], TableKey::Chain),
        ],
    )
}

#[test]
fn first_of_two(rt: HostRuntime) -> Result<(), Fail> {
    assert_shapes(
        &rt,
        &[
            (&[(5, "weight = 'x'"), (6, "")], TableKey::Weight),
            (&[(5, ""), (6, "digits = [2]")], TableKey::Weight),
            (&[(6, "")], TableKey::Digits),
            (&[(9, "")], TableKey::Inverse),
            (&[(5, ""), (6, ""), (7, ""), (9, "")], TableKey::Weight),
            (&[(0, "m = 2"), (1, "p = 1")], TableKey::M),
            (&[(4, ""), (9, "inverse = 1")], TableKey::Generators),
            (&[(9, "inverse = [[], [170]]\nother = 1")], TableKey::Other),
            (&[(9, "inverse = [[], [170]]\ntext.m = 1")], TableKey::Other),
            (&[(9, "inverse = [[], [170]]\n[M]")], TableKey::Other),
            (&[(0, "m = 2\nother = 1")], TableKey::M),
        ],
    )
}

#[test]
fn tables_are_written(rt: HostRuntime) -> Result<(), Fail> {
    for lines in [&TABLE[..5], &TABLE] {
        let text = edited(rt.alloc(), lines, &[])?;
        let table = read_document(rt.alloc(), text.as_bytes())?;
        let written = write_document(rt.alloc(), &table)?;
        let read = read_document(rt.alloc(), written.as_slice())?;
        assert_eq!(rt; read.generators.as_slice(), table.generators.as_slice());
        assert_eq!(rt; read.moduli.is_some(), table.moduli.is_some());
    }
    Ok(())
}
