use moduli_table::{find_roots, inverse_or_zero};
use std::test::Fail;

#[test]
fn roots_by_the_least_base(rt: HostRuntime) -> Result<(), Fail> {
    assert_eq!(rt; find_roots(7, 113), Some((7, 40)));
    assert_eq!(rt; find_roots(7, 337), Some((285, 191)));
    assert_eq!(rt; find_roots(7, 15), None);
    // a prime with roots of other bases, and composite moduli with a late base and with none
    assert_eq!(rt; find_roots(3, 313), Some((215, 5)));
    assert_eq!(rt; find_roots(4, 697), Some((355, 355)));
    assert_eq!(rt; find_roots(7, 38081), None);
    assert_eq!(rt;
        find_roots(4096, 1945555039024054273),
        Some((760262610774259588, 760262610774259588))
    );
    assert_eq!(rt;
        find_roots(65535, 4611685493375631361),
        Some((2472704561727366992, 1853890223748043056))
    );
    Ok(())
}

#[test]
fn inverses_or_zero(rt: HostRuntime) -> Result<(), Fail> {
    assert_eq!(rt; inverse_or_zero(113, 337), 170);
    assert_eq!(rt; inverse_or_zero(337, 113), 56);
    assert_eq!(rt; inverse_or_zero(6, 15), 0);
    assert_eq!(rt; inverse_or_zero(0, 15), 0);
    assert_eq!(rt; inverse_or_zero(337, 2), 1);
    assert_eq!(rt;
        inverse_or_zero(5, 4611686018427387903),
        2767011611056432742
    );
    assert_eq!(rt; inverse_or_zero(3, 4611686018427387903), 0);
    assert_eq!(rt;
        inverse_or_zero(18446744073709551615, 4611686018427387903),
        0
    );
    assert_eq!(rt;
        inverse_or_zero(4611686018427387902, 4611686018427387903),
        4611686018427387902
    );
    Ok(())
}
