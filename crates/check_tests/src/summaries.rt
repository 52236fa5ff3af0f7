//! Templates that are filled and read: the summary of the table, or the report.
use crate::told::{TEMPLATE, assert_refused, edited, told, told_filled};
use std::process::Abort;
use std::test::Fail;

/// The last three lines of the table that it is filled to.
const FILLED: [&str; 3] = [
    "chain = [[113, 7, 40, 1]]",
    "special = [[337, 285, 191, 1]]",
    "inverse = [[], [170]]",
];

/// The lines of its summary.
const SMALL_SUMMARY: [&str; 6] = [
    "m 7 n 6 p 2 d 3 slots 2",
    "dim 0 generator 6 size 2 good",
    "chain 1 special 1 columns 1",
    "height 1 weight 2",
    "fresh 1086 switch 27 settle 54",
    "limit 0 56",
];

/// Asserts that the table of an edited template is accepted and has this summary.
fn assert_accepted<R: Abort + AllocGlobal>(
    rt: &R,
    lines: &[&str],
    edits: &[(usize, &str)],
    summary: &[&str],
) -> Result<(), Fail> {
    let text = edited(rt.alloc(), lines, edits)?;
    let told = told_filled(rt.alloc(), text.as_bytes())?;
    let wanted = edited(rt.alloc(), summary, &[])?;
    assert_eq!(rt; told.as_slice(), wanted.as_bytes(), "of {text}");
    Ok(())
}

#[test]
fn one_modulus_of_seven(rt: HostRuntime) -> Result<(), Fail> {
    assert_accepted(&rt, &TEMPLATE, &[], &SMALL_SUMMARY)?;
    let mut table = edited(rt.alloc(), &TEMPLATE[..7], &[])?;
    let rows = edited(rt.alloc(), &FILLED, &[])?;
    table.push_str(rows.as_str())?;
    let given = told(rt.alloc(), table.as_bytes())?;
    let wanted = edited(rt.alloc(), &SMALL_SUMMARY, &[])?;
    assert_eq!(rt; given.as_slice(), wanted.as_bytes());
    Ok(())
}

#[test]
fn a_plain_table(rt: HostRuntime) -> Result<(), Fail> {
    let table = edited(rt.alloc(), &TEMPLATE[..5], &[])?;
    let given = told(rt.alloc(), table.as_bytes())?;
    let wanted = edited(rt.alloc(), &SMALL_SUMMARY[..2], &[])?;
    assert_eq!(rt; given.as_slice(), wanted.as_bytes());
    Ok(())
}

#[test]
fn three_moduli_of_seven(rt: HostRuntime) -> Result<(), Fail> {
    assert_accepted(
        &rt,
        &TEMPLATE,
        &[
            (6, "digits = [1, 1, 1]"),
            (7, "chain = [469762049, 7340033, 998244353]"),
            (8, "special = [31525197391593473]"),
        ],
        &[
            "m 7 n 6 p 2 d 3 slots 2",
            "dim 0 generator 6 size 2 good",
            "chain 3 special 1 columns 3",
            "height 1 weight 2",
            "fresh 1086 switch 27 settle 54",
            "limit 0 234881024",
            "limit 1 3288334791*2^19",
            "limit 2 3057123754*2^49",
        ],
    )
}

#[test]
fn a_power_of_two(rt: HostRuntime) -> Result<(), Fail> {
    assert_accepted(
        &rt,
        &[
            "m = 32",
            "p = 17",
            "factor = [14, 0, 1]",
            "dual = [[9, 0], [0, 3]]",
            "generators = [[31, 2], [5, 4]]",
            "weight = 4",
            "digits = [1, 1]",
            "chain = [4222124650659841, 7881299347898369]",
            "special = [31525197391593473]",
        ],
        &[],
        &[
            "m 32 n 16 p 17 d 2 slots 8",
            "dim 0 generator 31 size 2 good",
            "dim 1 generator 5 size 4 bad",
            "chain 2 special 1 columns 2",
            "height 1 weight 4",
            "fresh 57248 switch 720 settle 1440",
            "limit 0 4026531840*2^19",
            "limit 1 3523215360*2^72",
        ],
    )
}

#[test]
fn two_prime_divisors(rt: HostRuntime) -> Result<(), Fail> {
    assert_accepted(
        &rt,
        &[
            "m = 24",
            "p = 5",
            "factor = [2, 1, 1]",
            "dual = [[4, 2], [2, 4]]",
            "generators = [[7, 2], [13, 2]]",
            "weight = 2",
            "digits = [1, 1]",
            "chain = [3799912185593857, 4222124650659841]",
            "special = [1945555039024054273]",
        ],
        &[],
        &[
            "m 24 n 8 p 5 d 2 slots 4",
            "dim 0 generator 7 size 2 good",
            "dim 1 generator 13 size 2 good",
            "chain 2 special 1 columns 2",
            "height 1 weight 2",
            "fresh 4416 switch 72 settle 144",
            "limit 0 3623878656*2^19",
            "limit 1 3397386240*2^71",
        ],
    )
}

#[test]
fn a_ring_of_a_size_as_in_use(rt: HostRuntime) -> Result<(), Fail> {
    assert_accepted(
        &rt,
        &[
            "m = 4096",
            "p = 65537",
            "factor = [11088, 1]",
            "dual = [[1]]",
            "generators = [[4095, 2], [5, 1024]]",
            "weight = 64",
            "digits = [2, 2, 2, 1]",
            "chain = [
1231453023109121, 1337006139375617, 3799912185593857,
4222124650659841, 7881299347898369, 31525197391593473,
180143985094819841]",
            "special = [1945555039024054273, 4179340454199820289]",
        ],
        &[],
        &[
            "m 4096 n 2048 p 65537 d 1 slots 2048",
            "dim 0 generator 4095 size 2 good",
            "dim 1 generator 5 size 1024 good",
            "chain 7 special 2 columns 4",
            "height 1 weight 64",
            "fresh 2769659156*2^10 switch 2181104640*2^1 settle 2181104640*2^2",
            "limit 0 2348810240*2^18",
            "limit 1 2789212160*2^68",
            "limit 2 2353397760*2^120",
            "limit 3 2206310400*2^172",
            "limit 4 3861043200*2^224",
            "limit 5 3378412800*2^279",
            "limit 6 4223016000*2^336",
        ],
    )
}

#[test]
fn templates_that_are_refused(rt: HostRuntime) -> Result<(), Fail> {
    assert_refused(
        &rt,
        &[
            (&[(0, "m")], "BadTemplate text"),
            (&[(0, "m = 65537")], "BadTemplate m"),
            (&[(1, "")], "BadTemplate p"),
            (&[(2, "factor = [0, 0]")], "BadTemplate factor"),
            (&[(3, "dual = []")], "BadTemplate dual"),
            (&[(4, "generators = 6")], "BadTemplate generators"),
            (&[(5, "")], "BadTemplate weight"),
            (&[(6, "digits = [3]")], "BadTemplate digits"),
            (&[(7, "chain = [114]")], "BadTemplate chain"),
            (&[(8, "special = []")], "BadTemplate special"),
            (&[(5, "weight = 2\ninverse = []")], "BadTemplate other"),
        ],
    )
}

#[test]
fn templates_with_no_table(rt: HostRuntime) -> Result<(), Fail> {
    assert_refused(
        &rt,
        &[
            (&[(7, "chain = [15]"), (8, "")], "BadTemplate special"),
            (&[(5, "weight = 7"), (7, "chain = [15]")], "NoRoot 0"),
            (&[(7, "chain = [15]")], "NoRoot 0"),
            (&[(7, "chain = [15]"), (8, "special = [15]")], "NoRoot 0"),
            (&[(8, "special = [337, 15]")], "NoRoot 2"),
            (&[(4, "generators = []")], "BadTable WrongCount"),
            (&[(8, "special = [113]")], "BadTable Inverse 0 1"),
        ],
    )
}

#[test]
fn worked_tables_that_are_refused(rt: HostRuntime) -> Result<(), Fail> {
    let rows: [(&str, &str, &str, &str); 3] = [
        (
            "chain = [[113, 7, 41, 1]]",
            FILLED[1],
            FILLED[2],
            "TwoRoot 0",
        ),
        (FILLED[0], FILLED[1], "inverse = [[], [171]]", "Inverse 0 1"),
        ("chain = [[113, 1, 40, 1]]", FILLED[1], FILLED[2], "Root 0"),
    ];
    for (chain, special, inverse, fault) in rows {
        let mut table = edited(rt.alloc(), &TEMPLATE[..7], &[])?;
        let last = format!(in rt.alloc(); "{chain}\n{special}\n{inverse}\n")?;
        table.push_str(last.as_str())?;
        let told = told(rt.alloc(), table.as_bytes())?;
        let wanted = format!(in rt.alloc(); "stopped 0 BadTable {fault}\n")?;
        assert_eq!(rt; told.as_slice(), wanted.as_bytes());
    }
    Ok(())
}
