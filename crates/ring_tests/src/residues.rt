//! Words of residues, and the generic functions at them.
use cyclo_poly::{Poly, divide_monic};
use mod_ring::{Ring, Zq, horner, lazy, power, sum};
use std::test::Fail;

#[test]
fn moduli(rt: HostRuntime) {
    for (q, valid) in [
        (0, false),
        (1, false),
        (2, true),
        ((1 << 62) - 1, true),
        (1 << 62, false),
        (u64::MAX, false),
    ] {
        assert_eq!(rt; Zq::new(q).is_some(), valid, "at {q}");
    }
}

/// A modulus q, a, b, a + b, a - b, -a, a * b, e and a^e modulo q.
static WORDS: [(u64, u64, u64, u64, u64, u64, u64, u64, u64); 26] = [
    (2, 0, 0, 0, 0, 0, 0, 691672907343361484, 0),
    (2, 1, 1, 0, 0, 1, 1, 0, 1),
    (2, 1, 1, 0, 0, 1, 1, 18446744073709551615, 1),
    (2, 1, 0, 1, 1, 1, 0, 18446744073709551615, 1),
    (2, 1, 0, 1, 1, 1, 0, 1, 1),
    (3, 0, 0, 0, 0, 0, 0, 18446744073709551615, 0),
    (3, 2, 2, 1, 0, 1, 1, 0, 1),
    (3, 1, 2, 0, 2, 2, 2, 18446744073709551615, 1),
    (3, 0, 2, 2, 1, 0, 0, 11418711589407294900, 0),
    (3, 0, 1, 1, 2, 0, 0, 2, 0),
    (113, 0, 0, 0, 0, 0, 0, 2, 0),
    (113, 112, 112, 111, 0, 1, 1, 18446744073709551615, 112),
    (113, 1, 112, 0, 2, 112, 112, 18446744073709551615, 1),
    (113, 59, 74, 20, 98, 54, 72, 0, 1),
    (113, 58, 46, 104, 12, 55, 69, 18446744073709551615, 86),
    (113, 3, 100, 103, 16, 110, 74, 8, 7),
    (2305843009213693951, 0, 0, 0, 0, 0, 0, 0, 1),
    (
        2305843009213693951,
        2305843009213693950,
        2305843009213693950,
        2305843009213693949,
        0,
        1,
        1,
        18446744073709551615,
        2305843009213693950,
    ),
    (
        2305843009213693951,
        1,
        2305843009213693950,
        0,
        2,
        2305843009213693950,
        2305843009213693950,
        18446744073709551615,
        1,
    ),
    (
        2305843009213693951,
        1051937880483634397,
        1936833846231855825,
        682928717501796271,
        1420947043465472523,
        1253905128730059554,
        1475131553166126905,
        1,
        1051937880483634397,
    ),
    (
        2305843009213693951,
        2178286303445379127,
        1093196330498178433,
        965639624729863609,
        1085089972947200694,
        127556705768314824,
        85208941761829795,
        1,
        2178286303445379127,
    ),
    (4611686018427387903, 0, 0, 0, 0, 0, 0, 1, 0),
    (
        4611686018427387903,
        4611686018427387902,
        4611686018427387902,
        4611686018427387901,
        0,
        1,
        1,
        18197105775792414541,
        4611686018427387902,
    ),
    (
        4611686018427387903,
        1,
        4611686018427387902,
        0,
        2,
        4611686018427387902,
        4611686018427387902,
        0,
        1,
    ),
    (
        4611686018427387903,
        1802937280120004432,
        4018724538286372818,
        1209975799978989347,
        2395898760261019517,
        2808748738307383471,
        2564183405738670996,
        1,
        1802937280120004432,
    ),
    (
        4611686018427387903,
        371615660802510908,
        2071511243525913370,
        2443126904328424278,
        2911790435703985441,
        4240070357624876995,
        2151763993952031431,
        2,
        3294568675484825431,
    ),
];

#[test]
fn words(rt: HostRuntime) -> Result<(), Fail> {
    for (q, a, b, total, difference, minus, product, e, raised) in WORDS {
        let zq = Zq::new(q).ok_or("refused")?;
        assert!(rt; a < zq.modulus());
        assert!(rt; b < zq.modulus());
        assert_eq!(rt; zq.add_word(a, b), total, "{a} + {b} modulo {q}");
        assert_eq!(rt; zq.sub_word(a, b), difference, "{a} - {b} modulo {q}");
        assert_eq!(rt; zq.neg_word(a), minus, "-{a} modulo {q}");
        assert_eq!(rt; zq.mul_word(a, b), product, "{a} * {b} modulo {q}");
        assert_eq!(rt; zq.power_word(a, e), raised, "{a} ^ {e} modulo {q}");
    }
    Ok(())
}

#[test]
fn lazy_words(rt: HostRuntime) -> Result<(), Fail> {
    for (q, w, x, product) in [
        (2, 1, 1, 1),
        (113, 7, 100, 22),
        (113, 112, u64::MAX, 84),
        ((1 << 62) - 1, (1 << 62) - 2, u64::MAX, (1 << 62) - 4),
    ] {
        let zq = Zq::new(q).ok_or("refused")?;
        let modulus = zq.modulus();
        assert!(rt; w < modulus);
        let product_lazy = lazy::mul_lazy(w, lazy::quotient_of(w, modulus), x, modulus);
        assert_eq!(rt;
            lazy::reduce_once(product_lazy, modulus),
            product,
            "{w} * {x} modulo {q}"
        );
        let double = product_lazy + 2 * modulus;
        assert_eq!(rt;
            lazy::reduce_double(double, modulus) % modulus,
            product,
            "at {double}"
        );
    }
    Ok(())
}

/// A modulus q, a whole number, its residue, and its balanced residue.
static SIGNED: [(u64, i64, u64, i64); 39] = [
    (2, i64::MIN, 0, 0),
    (2, -1, 1, 1),
    (2, 9223372036854775807, 1, 1),
    (3, i64::MIN, 1, 1),
    (3, -1, 2, -1),
    (3, 9223372036854775807, 1, 1),
    (4, i64::MIN, 0, 0),
    (4, -1953140924512765436, 0, 0),
    (4, -4, 0, 0),
    (4, -2, 2, 2),
    (4, -1, 3, -1),
    (4, 0, 0, 0),
    (4, 1, 1, 1),
    (4, 2, 2, 2),
    (4, 4, 0, 0),
    (4, 9223372036854775807, 3, -1),
    (113, i64::MIN, 98, -15),
    (113, -113, 0, 0),
    (113, -56, 57, -56),
    (113, -1, 112, -1),
    (113, 0, 0, 0),
    (113, 1, 1, 1),
    (113, 56, 56, 56),
    (113, 113, 0, 0),
    (113, 2477205244250231900, 39, 39),
    (113, 9223372036854775807, 14, 14),
    (2305843009213693951, i64::MIN, 2305843009213693947, -4),
    (2305843009213693951, -1, 2305843009213693950, -1),
    (2305843009213693951, 9223372036854775807, 3, 3),
    (4611686018427387903, i64::MIN, 4611686018427387901, -2),
    (
        4611686018427387903,
        -5372370996297519859,
        3851001040557255947,
        -760684977870131956,
    ),
    (4611686018427387903, -4611686018427387903, 0, 0),
    (
        4611686018427387903,
        -2305843009213693951,
        2305843009213693952,
        -2305843009213693951,
    ),
    (4611686018427387903, -1, 4611686018427387902, -1),
    (4611686018427387903, 0, 0, 0),
    (4611686018427387903, 1, 1, 1),
    (
        4611686018427387903,
        2305843009213693951,
        2305843009213693951,
        2305843009213693951,
    ),
    (4611686018427387903, 4611686018427387903, 0, 0),
    (4611686018427387903, 9223372036854775807, 1, 1),
];

#[test]
fn signed(rt: HostRuntime) -> Result<(), Fail> {
    for (q, x, residue, balanced) in SIGNED {
        let zq = Zq::new(q).ok_or("refused")?;
        let a = zq.from_signed(x);
        assert_eq!(rt; a, residue, "{x} modulo {q}");
        assert_eq!(rt; zq.balanced(a), balanced, "{a} modulo {q}");
    }
    Ok(())
}

#[test]
fn folds(rt: HostRuntime) -> Result<(), Fail> {
    let alloc = rt.alloc();
    let zq = Zq::new(113).ok_or("refused")?;
    let three = 3;
    assert!(rt; zq.holds(&three));
    assert_eq!(rt; power(alloc, &zq, &three, 8)?, 7);
    assert_eq!(rt; power(alloc, &zq, &three, 0)?, 1);
    let list = [100, 50, 7];
    assert_eq!(rt; sum(alloc, &zq, &list)?, 44);
    assert_eq!(rt; sum(alloc, &zq, &[])?, 0);
    // 100 + 50 * 3 + 7 * 9
    assert_eq!(rt; horner(alloc, &zq, &list, &three)?, 87);
    assert_eq!(rt; horner(alloc, &zq, &[], &three)?, 0);
    Ok(())
}

#[test]
fn ring_of_residues(rt: HostRuntime) -> Result<(), Fail> {
    let alloc = rt.alloc();
    let zq = Zq::new(5).ok_or("refused")?;
    let two = 2;
    let four = 4;
    assert!(rt; zq.holds(&two));
    assert!(rt; zq.holds(&four));
    assert!(rt; !zq.holds(&5));
    assert_eq!(rt; zq.zero(alloc)?, 0);
    assert_eq!(rt; zq.one(alloc)?, 1);
    assert_eq!(rt; zq.add(alloc, &two, &four)?, 1);
    assert_eq!(rt; zq.sub(alloc, &two, &four)?, 3);
    assert_eq!(rt; zq.mul(alloc, &two, &four)?, 3);
    assert_eq!(rt; zq.neg(alloc, &two)?, 3);
    assert!(rt; zq.equal(&two, &two));
    assert!(rt; !zq.equal(&two, &four));
    Ok(())
}

// x^2 + 1 = (x + 2) (x + 3) modulo 5, and a shorter polynomial is its own remainder
#[test]
fn division(rt: HostRuntime) -> Result<(), Fail> {
    let alloc = rt.alloc();
    let zq = Zq::new(5).ok_or("refused")?;
    let divisor = Poly {
        coeffs: vec![in alloc; 2, 1]?,
    };
    let dividend = Poly {
        coeffs: vec![in alloc; 1, 0, 1]?,
    };
    let (quotient, rest) = divide_monic(alloc, &zq, &dividend, &divisor)?;
    assert_eq!(rt; quotient.coeffs.as_slice(), [3, 1].as_slice());
    assert_eq!(rt; rest.coeffs.as_slice(), [0].as_slice());
    let (quotient, rest) = divide_monic(alloc, &zq, &divisor, &dividend)?;
    assert!(rt; quotient.coeffs.is_empty());
    assert_eq!(rt; rest.coeffs.as_slice(), [2, 1].as_slice());
    Ok(())
}
