ghost use Rattle.std.specs.Prelude.{◌≡◌, ◌+◌, ◌<◌, ◌≤◌, ◌^◌, ◌↔◌, IsTrue, IfOk, length, sum};
ghost use Rattle.std.specs.List.{All};
ghost use Rattle.noise_bound.specs.Machine.{IsModulus, IsSizes};

use crate::calls::{Form, bound, form_of};
use noise_bound::{Bound, BoundTable};
use std::alloc::Global;
use std::process::Abort;
use std::test::Fail;

/// What a table is made from, and the bounds that it has.
struct Case {
    n: u32,
    p: u32,
    weight: u32,
    height: u32,
    chain: &'static [u64],
    special: &'static [u64],
    digits: &'static [u32],
    fresh: Form,
    switch_add: Form,
    settle: Form,
    limits: &'static [Form],
    key_switches: &'static [Form],
    /// What 1086 becomes by the drop from each level above 0.
    dropped_fresh: &'static [Form],
    /// What 4294967291 * 2^200 becomes.
    dropped_large: &'static [Form],
}

static CASES: [Case; 7] = [
    // three moduli, each a group
    Case {
        n: 6,
        p: 2,
        weight: 2,
        height: 1,
        chain: &[469762049, 7340033, 998244353],
        special: &[31525197391593473],
        digits: &[1, 1, 1],
        fresh: (1086, 0),
        switch_add: (27, 0),
        settle: (54, 0),
        limits: &[(234881024, 0), (3288334791, 19), (3057123754, 49)],
        key_switches: &[(1, 0), (2, 0), (3, 0)],
        dropped_fresh: &[(28, 0), (28, 0)],
        dropped_large: &[(2454266691, 178), (2309898374, 171)],
    },
    // one modulus
    Case {
        n: 6,
        p: 2,
        weight: 2,
        height: 1,
        chain: &[113],
        special: &[337],
        digits: &[1],
        fresh: (1086, 0),
        switch_add: (27, 0),
        settle: (54, 0),
        limits: &[(56, 0)],
        key_switches: &[(121, 0)],
        dropped_fresh: &[],
        dropped_large: &[],
    },
    // m = 32, p = 17
    Case {
        n: 16,
        p: 17,
        weight: 4,
        height: 1,
        chain: &[4222124650659841, 7881299347898369],
        special: &[31525197391593473],
        digits: &[1, 1],
        fresh: (57248, 0),
        switch_add: (720, 0),
        settle: (1440, 0),
        limits: &[(4026531840, 19), (3523215360, 72)],
        key_switches: &[(2915, 0), (8356, 0)],
        dropped_fresh: &[(721, 0)],
        dropped_large: &[(3067833781, 150)],
    },
    // m = 24, p = 5
    Case {
        n: 8,
        p: 5,
        weight: 2,
        height: 1,
        chain: &[3799912185593857, 4222124650659841],
        special: &[1945555039024054273],
        digits: &[1, 1],
        fresh: (4416, 0),
        switch_add: (72, 0),
        settle: (144, 0),
        limits: &[(3623878656, 19), (3397386240, 71)],
        key_switches: &[(4, 0), (8, 0)],
        dropped_fresh: &[(73, 0)],
        dropped_large: &[(2290649223, 149)],
    },
    // m = 4096, p = 65537, groups of two and of one
    Case {
        n: 2048,
        p: 65537,
        weight: 64,
        height: 1,
        chain: &[
            1231453023109121,
            1337006139375617,
            3799912185593857,
            4222124650659841,
            7881299347898369,
            31525197391593473,
            180143985094819841,
        ],
        special: &[1945555039024054273, 4179340454199820289],
        digits: &[2, 2, 2, 1],
        fresh: (2769659156, 10),
        switch_add: (2181104640, 1),
        settle: (2181104640, 2),
        limits: &[
            (2348810240, 18),
            (2789212160, 68),
            (2353397760, 120),
            (2206310400, 172),
            (3861043200, 224),
            (3378412800, 279),
            (4223016000, 336),
        ],
        key_switches: &[
            (1, 0),
            (278303, 0),
            (278304, 0),
            (2990179, 0),
            (2990180, 0),
            (44987427, 0),
            (44987428, 0),
        ],
        dropped_fresh: &[
            (2181104641, 1),
            (2181104641, 1),
            (2181104641, 1),
            (2181104641, 1),
            (2181104641, 1),
            (2181104641, 1),
        ],
        dropped_large: &[
            (3617697574, 164),
            (2544233736, 164),
            (4008636140, 152),
            (4141575604, 152),
            (4256619370, 152),
            (4288256406, 152),
        ],
    },
    // the largest sizes
    Case {
        n: 65536,
        p: 131071,
        weight: 65536,
        height: 2147483647,
        chain: &[
            4611686018427387903,
            4611686018427387901,
            4611686018427387899,
            4611686018427387897,
            4611686018427387895,
            4611686018427387893,
            4611686018427387891,
            4611686018427387889,
            4611686018427387887,
            4611686018427387885,
            4611686018427387883,
            4611686018427387881,
            4611686018427387879,
            4611686018427387877,
            4611686018427387875,
            4611686018427387873,
            4611686018427387871,
            4611686018427387869,
            4611686018427387867,
            4611686018427387865,
            4611686018427387863,
            4611686018427387861,
            4611686018427387859,
            4611686018427387857,
            4611686018427387855,
            4611686018427387853,
            4611686018427387851,
            4611686018427387849,
            4611686018427387847,
            4611686018427387845,
            4611686018427387843,
            4611686018427387841,
        ],
        special: &[
            4611686018427387903,
            4611686018427387903,
            4611686018427387903,
            4611686018427387903,
            4611686018427387903,
            4611686018427387903,
            4611686018427387903,
            4611686018427387903,
            4611686018427387903,
            4611686018427387903,
            4611686018427387903,
            4611686018427387903,
            4611686018427387903,
            4611686018427387903,
            4611686018427387903,
            4611686018427387903,
        ],
        digits: &[5, 20, 7],
        fresh: (2684355584, 22),
        switch_add: (2147516416, 17),
        settle: (2147516416, 18),
        limits: &[
            (1073741824, 0),
            (2147483648, 61),
            (4294967294, 122),
            (4294967293, 184),
            (4294967292, 246),
            (4294967291, 308),
            (4294967290, 370),
            (4294967289, 432),
            (4294967288, 494),
            (4294967287, 556),
            (4294967286, 618),
            (4294967285, 680),
            (4294967284, 742),
            (4294967283, 804),
            (4294967282, 866),
            (4294967281, 928),
            (4294967280, 990),
            (4294967279, 1052),
            (4294967278, 1114),
            (4294967277, 1176),
            (4294967276, 1238),
            (4294967275, 1300),
            (4294967274, 1362),
            (4294967273, 1424),
            (4294967272, 1486),
            (4294967271, 1548),
            (4294967270, 1610),
            (4294967269, 1672),
            (4294967268, 1734),
            (4294967267, 1796),
            (4294967266, 1858),
            (4294967265, 1920),
        ],
        key_switches: &[
            (1, 0),
            (1, 0),
            (1, 0),
            (1, 0),
            (1, 0),
            (2, 0),
            (2, 0),
            (2, 0),
            (2, 0),
            (2, 0),
            (2, 0),
            (2, 0),
            (2, 0),
            (2, 0),
            (2, 0),
            (2, 0),
            (2, 0),
            (2, 0),
            (2, 0),
            (2, 0),
            (2684334091, 20),
            (2684334091, 82),
            (2684334091, 144),
            (2684334091, 206),
            (2684334091, 268),
            (2684334092, 268),
            (2684334092, 268),
            (2684334092, 268),
            (2684334092, 268),
            (2684334092, 268),
            (2684334092, 268),
            (2684334092, 268),
        ],
        dropped_fresh: &[
            (2147516417, 17),
            (2147516417, 17),
            (2147516417, 17),
            (2147516417, 17),
            (2147516417, 17),
            (2147516417, 17),
            (2147516417, 17),
            (2147516417, 17),
            (2147516417, 17),
            (2147516417, 17),
            (2147516417, 17),
            (2147516417, 17),
            (2147516417, 17),
            (2147516417, 17),
            (2147516417, 17),
            (2147516417, 17),
            (2147516417, 17),
            (2147516417, 17),
            (2147516417, 17),
            (2147516417, 17),
            (2147516417, 17),
            (2147516417, 17),
            (2147516417, 17),
            (2147516417, 17),
            (2147516417, 17),
            (2147516417, 17),
            (2147516417, 17),
            (2147516417, 17),
            (2147516417, 17),
            (2147516417, 17),
            (2147516417, 17),
        ],
        dropped_large: &[
            (4288675837, 149),
            (4284481533, 149),
            (4280287229, 149),
            (4276092925, 149),
            (4271898621, 149),
            (4267704317, 149),
            (4263510013, 149),
            (4259315709, 149),
            (4255121405, 149),
            (4250927101, 149),
            (4246732797, 149),
            (4242538493, 149),
            (4238344189, 149),
            (4234149885, 149),
            (4229955581, 149),
            (4225761277, 149),
            (4221566973, 149),
            (4217372669, 149),
            (4213178365, 149),
            (4208984061, 149),
            (4204789757, 149),
            (4200595453, 149),
            (4196401149, 149),
            (4192206845, 149),
            (4188012541, 149),
            (4183818237, 149),
            (4179623933, 149),
            (4175429629, 149),
            (4171235325, 149),
            (4167041021, 149),
            (4162846717, 149),
        ],
    },
    // moduli around p, and small ones
    Case {
        n: 10,
        p: 131071,
        weight: 3,
        height: 5,
        chain: &[3, 131071, 65537, 9, 4611686018427387903, 262141],
        special: &[3, 5],
        digits: &[1, 4, 1],
        fresh: (184154750, 0),
        switch_add: (2621440, 0),
        settle: (5242880, 0),
        limits: &[
            (0, 0),
            (39321, 0),
            (2577000037, 0),
            (2899125041, 3),
            (2899125040, 65),
            (2899091862, 83),
        ],
        key_switches: &[
            (13107100, 0),
            (2236979201, 8),
            (2236962135, 24),
            (2516582401, 27),
            (2516582401, 89),
            (2516582402, 89),
        ],
        dropped_fresh: &[
            (2621440, 0),
            (2622526, 0),
            (2622526, 0),
            (2621441, 0),
            (2621441, 0),
        ],
        dropped_large: &[
            (2621440, 0),
            (4294770688, 200),
            (4294967292, 200),
            (4292870141, 149),
            (2147508223, 183),
        ],
    },
];

fn are_moduli(moduli: &[u64]) -> bool
    ensures { IsTrue result ↔ All IsModulus moduli.now }
{
    moduli.iter().all(|q| *q >= 3 && *q < 1 << 62)
}

fn are_positive(digits: &[u32]) -> bool
    ensures { IsTrue result ↔ All (λ d. 0 < d) digits.now }
{
    digits.iter().all(|d| *d > 0)
}

fn sum_of(digits: &[u32]) -> u64
    requires { length digits.now ≤ 32 }
    ensures { result ≡ sum digits.now }
{
    let mut sum = 0;
    for d in digits {
        sum += *d as u64;
    }
    sum
}

fn table_of(rt: &impl Abort, alloc: Global, case: &Case) -> Result<BoundTable, Fail>
    ensures { IfOk result (λ t. t.chain ≡ case.now.chain.now) }
{
    assert!(rt; case.n >= 1 && case.n <= 65536);
    assert!(rt; case.p >= 2 && case.p <= 131071);
    assert!(rt; case.weight >= 1 && case.weight <= case.n);
    assert!(rt; case.height >= 1 && case.height < 1 << 31);
    assert!(rt; !case.chain.is_empty() && case.chain.len() <= 32);
    assert!(rt; !case.special.is_empty() && case.special.len() <= 16);
    assert!(rt; are_moduli(case.chain));
    assert!(rt; are_moduli(case.special));
    assert!(rt; are_positive(case.digits));
    assert!(rt; case.digits.len() <= 32);
    assert!(rt; sum_of(case.digits) == case.chain.len() as u64);
    Ok(BoundTable::new(
        alloc,
        case.n,
        case.p,
        case.weight,
        case.height,
        case.chain,
        case.special,
        case.digits,
    )?)
}

/// The bounds of a table: of a fresh cipher, of one division, and the one above which is settled.
fn parts_of(table: &BoundTable) -> (Form, Form, Form) {
    (
        form_of(table.fresh()),
        form_of(table.switch_add()),
        form_of(table.settle()),
    )
}

/// Of a level: its limit, and what switching keys adds.
fn level_of(rt: &impl Abort, table: &BoundTable, levels: usize, level: usize) -> (Form, Form)
    requires { levels ≡ length table.now.chain }
{
    assert!(rt; levels <= 32);
    assert!(rt; level < levels);
    let level = level as u32;
    (
        form_of(table.limit(level)),
        form_of(table.key_switch(level)),
    )
}

/// What 1086 and 4294967291 * 2^200 become by the drop from a level.
fn dropped_at(rt: &impl Abort, table: &BoundTable, levels: usize, level: usize) -> (Form, Form)
    requires { levels ≡ length table.now.chain }
{
    assert!(rt; levels <= 32);
    assert!(rt; level < levels);
    assert!(rt; level > 0);
    let level = level as u32;
    (
        form_of(table.dropped(bound(rt, (1086, 0)), level)),
        form_of(table.dropped(bound(rt, (4294967291, 200)), level)),
    )
}

fn check_case(rt: &impl Abort, alloc: Global, case: &Case) -> Result<(), Fail> {
    let table = table_of(rt, alloc, case)?;
    let levels = case.chain.len();
    let wanted = (case.fresh, case.switch_add, case.settle);
    assert_eq!(rt; parts_of(&table), wanted);
    assert_eq!(rt;
        (case.limits.len(), case.key_switches.len()),
        (levels, levels)
    );
    for (level, (limit, key_switch)) in case.limits.iter().zip(case.key_switches).enumerate() {
        let wanted = (*limit, *key_switch);
        assert_eq!(rt;
            level_of(rt, &table, levels, level),
            wanted,
            "level {level}"
        );
    }
    for (place, (fresh, large)) in case
        .dropped_fresh
        .iter()
        .zip(case.dropped_large)
        .enumerate()
    {
        let wanted = (*fresh, *large);
        assert!(rt; place < 32);
        assert_eq!(rt;
            dropped_at(rt, &table, levels, place + 1),
            wanted,
            "place {place}"
        );
    }
    Ok(())
}

#[test]
fn holds_the_bounds_of_each_table(rt: HostRuntime) -> Result<(), Fail> {
    for case in &CASES {
        check_case(&rt, rt.alloc(), case)?;
    }
    Ok(())
}

/// A product of two settled bounds at a level.
fn product_of(table: &BoundTable, a: Bound, b: Bound, level: u32) -> Bound
    requires in_range { level < length table.now.chain }
    requires a_small { a.exp < 30000 }
    requires b_small { b.exp < 30000 }
    ensures { result.exp ≤ a.exp + b.exp + 5000 }
{
    a.times(b)
        .plus(table.key_switch(level))
        .plus(table.switch_add())
}

/// The bounds of a session on three moduli: `x * x`, its square, that plus `x`, an automorphism's
/// image of `x`, and `x` plus and times a constant of 1-norm 4.
fn session_of(table: &BoundTable) -> (Form, Form, Form, Form, Form, Form)
    requires { 2 < length table.now.chain }
{
    let fresh = table.fresh();
    let four = Bound::up(4);
    let settled = table.dropped(fresh, 2);
    let product = product_of(table, settled, settled, 1);
    let lowered = table.dropped(product, 1);
    let square = product_of(table, lowered, lowered, 0);
    let image = fresh.plus(table.key_switch(2)).plus(table.switch_add());
    (
        form_of(product),
        form_of(square),
        form_of(square.plus(table.dropped(settled, 1))),
        form_of(image),
        form_of(fresh.plus(four)),
        form_of(settled.times(four)),
    )
}

#[test]
fn follows_a_session(rt: HostRuntime) -> Result<(), Fail> {
    let case = &CASES[0];
    let table = table_of(&rt, rt.alloc(), case)?;
    assert!(rt; case.chain.len() == 3);
    let wanted = ((813, 0), (812, 0), (840, 0), (1116, 0), (1090, 0), (112, 0));
    assert_eq!(rt; session_of(&table), wanted);
    Ok(())
}

#[test]
fn doubles_up_to_the_limit(rt: HostRuntime) -> Result<(), Fail> {
    let case = &CASES[0];
    let table = table_of(&rt, rt.alloc(), case)?;
    assert!(rt; case.chain.len() == 3);
    let mut sum = bound(&rt, (812, 0));
    for _ in 0..18 {
        assert!(rt; sum.exp < 4096);
        sum = sum.plus(sum);
    }
    assert_eq!(rt; form_of(sum), (212860928, 0));
    assert!(rt; !sum.at_least(table.limit(0)));
    assert!(rt; sum.exp < 4096);
    let last = sum.plus(sum);
    assert_eq!(rt; form_of(last), (425721856, 0));
    assert!(rt; last.at_least(table.limit(0)));
    Ok(())
}
