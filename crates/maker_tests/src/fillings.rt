//! Templates that are filled: the rows and the inverses of the table.
use crate::texts::{SMALL, edited};
use std::process::Abort;
use std::test::Fail;
use table_keys::{ModuliDocument, TableDocument, read_document};
use table_maker::make;

/// Asserts that two tables have the same moduli.
fn assert_same_moduli<R: Abort + AllocGlobal>(
    rt: &R,
    given: &ModuliDocument,
    wanted: &ModuliDocument,
) {
    assert_eq!(rt; given.weight, wanted.weight);
    assert_eq!(rt; given.digits.as_slice(), wanted.digits.as_slice());
    assert_eq!(rt; given.chain.as_slice(), wanted.chain.as_slice());
    assert_eq!(rt; given.special.as_slice(), wanted.special.as_slice());
    assert_eq!(rt; given.inverse.as_slice(), wanted.inverse.as_slice());
}

/// Asserts that two tables are the same.
fn assert_same<R: Abort + AllocGlobal>(
    rt: &R,
    given: &TableDocument,
    wanted: &TableDocument,
) -> Result<(), Fail> {
    assert_eq!(rt; (given.m, given.p), (wanted.m, wanted.p));
    assert_eq!(rt; given.factor.as_slice(), wanted.factor.as_slice());
    assert_eq!(rt; given.dual.as_slice(), wanted.dual.as_slice());
    assert_eq!(rt; given.generators.as_slice(), wanted.generators.as_slice());
    let (Some(given), Some(wanted)) = (&given.moduli, &wanted.moduli) else {
        return Err(Fail::new("no moduli"));
    };
    assert_same_moduli(rt, given, wanted);
    Ok(())
}

/// Asserts that a template, some of its lines replaced, is filled to the table of its first seven lines and the three
/// given.
fn assert_filled<R: Abort + AllocGlobal>(
    rt: &R,
    lines: &[&str; 9],
    edits: &[(usize, &str)],
    filled: &[&str; 3],
) -> Result<(), Fail> {
    let template = edited(rt.alloc(), lines, edits)?;
    let mut table = edited(rt.alloc(), &lines[..7], edits)?;
    let rows = edited(rt.alloc(), filled, &[])?;
    table.push_str(rows.as_str())?;
    let text = make(rt.alloc(), template.as_bytes())?;
    let given = read_document(rt.alloc(), text.as_slice())?;
    let wanted = read_document(rt.alloc(), table.as_bytes())?;
    assert_same(rt, &given, &wanted)
}

#[test]
fn three_moduli_of_seven(rt: HostRuntime) -> Result<(), Fail> {
    assert_filled(
        &rt,
        &[
            "m = 7",
            "p = 2",
            "factor = [1, 1, 0, 1]",
            "dual = [[1, 0, 0], [0, 0, 1], [0, 1, 0]]",
            "generators = [[6, 2]]",
            "weight = 2",
            "digits = [1, 1, 1]",
            "chain = [469762049, 7340033, 998244353]",
            "special = [31525197391593473]",
        ],
        &[],
        &[
            "chain = [
                [469762049, 427195177, 426037461, 1],
                [7340033, 1904075, 5712452, 1],
                [998244353, 467509451, 929031873, 1]]",
            "special = [[31525197391593473, 11086612459078427, 1791537114801093, 1]]",
            "inverse = [
                [],
                [5825423],
                [554580198, 96127235],
                [27584547658924033, 25731875709086467, 15029981476160933]]",
        ],
    )
}

#[test]
fn a_power_of_two(rt: HostRuntime) -> Result<(), Fail> {
    assert_filled(
        &rt,
        &[
            "m = 32",
            "p = 17",
            "factor = [14, 0, 1]",
            "dual = [[9, 0], [0, 3]]",
            "generators = [[31, 2], [5, 4]]",
            "weight = 4",
            "digits = [1, 1]",
            "chain = [4222124650659841, 7881299347898369]",
            "special = [31525197391593473]",
        ],
        &[],
        &[
            "chain = [
                [4222124650659841, 2830761366850775, 2830761366850775, 16],
                [7881299347898369, 404482719196168, 404482719196168, 10]]",
            "special = [[31525197391593473, 29516193166700266, 29516193166700266, 14]]",
            "inverse = [[], [4850030367937460], [29250183146839306, 10508399130531159]]",
        ],
    )
}

#[test]
fn two_prime_divisors(rt: HostRuntime) -> Result<(), Fail> {
    assert_filled(
        &rt,
        &[
            "m = 24",
            "p = 5",
            "factor = [2, 1, 1]",
            "dual = [[4, 2], [2, 4]]",
            "generators = [[7, 2], [13, 2]]",
            "weight = 2",
            "digits = [1, 1]",
            "chain = [3799912185593857, 4222124650659841]",
            "special = [1945555039024054273]",
        ],
        &[],
        &[
            "chain = [
                [3799912185593857, 7014859846282, 2095257252996073, 3],
                [4222124650659841, 3535227505815659, 2119895745090146, 1]]",
            "special = [[1945555039024054273, 1486685084386423166, 12231171487184614, 2]]",
            "inverse = [[], [10], [285551130972219317, 579689082962799991]]",
        ],
    )
}

#[test]
fn a_ring_of_a_size_as_in_use(rt: HostRuntime) -> Result<(), Fail> {
    assert_filled(
        &rt,
        &[
            "m = 4096",
            "p = 65537",
            "factor = [11088, 1]",
            "dual = [[1]]",
            "generators = [[4095, 2], [5, 1024]]",
            "weight = 64",
            "digits = [2, 2, 2, 1]",
            "chain = [
1231453023109121,
1337006139375617,
3799912185593857,
4222124650659841,
7881299347898369,
31525197391593473,
180143985094819841]",
            "special = [1945555039024054273, 4179340454199820289]",
        ],
        &[],
        &[
            "chain = [
                [1231453023109121, 780276059352177, 780276059352177, 2427],
                [1337006139375617, 72118864546070, 72118864546070, 8738],
                [3799912185593857, 2455206406674934, 2455206406674934, 55051],
                [4222124650659841, 1382246022435631, 1382246022435631, 23406],
                [7881299347898369, 4484037688735112, 4484037688735112, 41264],
                [31525197391593473, 10685641567815319, 10685641567815319, 15351],
                [180143985094819841, 28926655053941789, 28926655053941789, 9128]]",
            "special = [
                [1945555039024054273, 760262610774259588, 760262610774259588, 39601],
                [4179340454199820289, 2851580052554115727, 2851580052554115727, 30056]]",
            "inverse = [
                [],
                [891337426250424],
                [3643751410843426, 1954240552591128],
                [1738521914977583, 3398295450531093, 10],
                [5837999516961756, 6694867187999691, 5707147803650545, 4850030367937460],
                [6663862863263662, 8230354563772656, 5440897011747098, 29250183146839306, 10508399130531159],
                [119741724605799620, 19637892117774537, 173386788527017342, 132585973029787404, 117741166728640420, 54589086392369650],
                [385407267552095007, 274838080180639323, 285551130972219317, 579689082962799991, 330099983378863364, 874355323420222039, 714693687804754632],
                [2399894283163913345, 1785333601803345663, 722217752828962171, 3994787902625568130, 75577816580671515, 3217320718813976749, 640079168661233739, 3505253284167591212]]",
        ],
    )
}

/// Lines of the template of small numbers with others in their place, and the last three lines of its table.
type Row<'a> = (&'a [(usize, &'a str)], [&'a str; 3]);

#[test]
fn small_numbers(rt: HostRuntime) -> Result<(), Fail> {
    let rows: [Row<'_>; 6] = [
        (
            &[],
            [
                "chain = [[113, 7, 40, 1]]",
                "special = [[337, 285, 191, 1]]",
                "inverse = [[], [170]]",
            ],
        ),
        (
            &[(7, "chain = [337]"), (8, "special = [113]")],
            [
                "chain = [[337, 285, 191, 1]]",
                "special = [[113, 7, 40, 1]]",
                "inverse = [[], [56]]",
            ],
        ),
        // equal moduli have no inverse
        (
            &[
                (6, "digits = [2]"),
                (7, "chain = [113, 337]"),
                (8, "special = [113]"),
            ],
            [
                "chain = [[113, 7, 40, 1], [337, 285, 191, 1]]",
                "special = [[113, 7, 40, 1]]",
                "inverse = [[], [170], [0, 56]]",
            ],
        ),
        // moduli with a common divisor have none
        (
            &[
                (0, "m = 4"),
                (4, "generators = []"),
                (7, "chain = [697]"),
                (8, "special = [41]"),
            ],
            [
                "chain = [[697, 355, 355, 1]]",
                "special = [[41, 38, 38, 1]]",
                "inverse = [[], [0]]",
            ],
        ),
        // p divides a modulus
        (
            &[(1, "p = 113")],
            [
                "chain = [[113, 7, 40, 0]]",
                "special = [[337, 285, 191, 56]]",
                "inverse = [[], [170]]",
            ],
        ),
        (
            &[(1, "p = 337"), (8, "special = [337, 113]")],
            [
                "chain = [[113, 7, 40, 170]]",
                "special = [[337, 285, 191, 0], [113, 7, 40, 170]]",
                "inverse = [[], [170], [0, 56]]",
            ],
        ),
    ];
    for (edits, filled) in rows {
        assert_filled(&rt, &SMALL, edits, &filled)?;
    }
    Ok(())
}
