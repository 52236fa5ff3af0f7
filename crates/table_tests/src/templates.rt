//! Templates and what is wrong with them.
use crate::texts::edited;
use line_text::TableKey;
use std::test::Fail;
use table_keys::{TemplateFault, law_templates, read_template};

/// A whole template, one key a line.
const TEMPLATE: [&str; 9] = [
    "m = 7",
    "p = 2",
    "factor = [1, 1, 0, 1]",
    "dual = [[1, 0, 0], [0, 0, 1], [0, 1, 0]]",
    "generators = [[6, 2]]",
    "weight = 2",
    "digits = [1]",
    "chain = [4611686018427387903]",
    "special = [3]",
];

#[test]
fn a_whole_template(rt: HostRuntime) -> Result<(), Fail> {
    law_templates();
    let text = edited(rt.alloc(), &TEMPLATE, &[])?;
    let template = read_template(rt.alloc(), text.as_bytes())?;
    assert_eq!(rt; (template.m, template.p, template.weight), (7, 2, 2));
    assert_eq!(rt; template.factor.as_slice(), [1, 1, 0, 1].as_slice());
    assert_eq!(rt; template.dual.len(), 3);
    assert_eq!(rt; template.generators.as_slice(), [(6, 2)].as_slice());
    assert_eq!(rt; template.digits.as_slice(), [1].as_slice());
    assert_eq!(rt;
        template.chain.as_slice(),
        [4_611_686_018_427_387_903].as_slice()
    );
    assert_eq!(rt; template.special.as_slice(), [3].as_slice());
    Ok(())
}

#[test]
fn bad_templates(rt: HostRuntime) -> Result<(), Fail> {
    let rows: [(&[(usize, &str)], TableKey); 15] = [
        (&[(0, "m")], TableKey::Text),
        (&[(0, "m = 65537")], TableKey::M),
        (&[(1, "")], TableKey::P),
        (&[(2, "factor = [0, 0]")], TableKey::Factor),
        (&[(3, "dual = []")], TableKey::Dual),
        (&[(4, "generators = 6")], TableKey::Generators),
        (&[(5, "")], TableKey::Weight),
        (&[(6, "digits = [3]")], TableKey::Digits),
        (&[(7, "chain = [114]")], TableKey::Chain),
        (&[(7, "chain = [1]")], TableKey::Chain),
        (&[(7, "chain = [4611686018427387905]")], TableKey::Chain),
        (&[(7, "chain = [[113, 7, 40, 1]]")], TableKey::Chain),
        (&[(8, "special = []")], TableKey::Special),
        (
            &[(8, "special = [3]\ninverse = [[], [2]]")],
            TableKey::Other,
        ),
        (&[(8, "other = [3]")], TableKey::Special),
    ];
    for (edits, key) in rows {
        let text = edited(rt.alloc(), &TEMPLATE, edits)?;
        let fault = read_template(rt.alloc(), text.as_bytes()).err();
        assert_eq!(rt; fault, Some(TemplateFault::BadTemplate(key)), "of {text}");
    }
    Ok(())
}
