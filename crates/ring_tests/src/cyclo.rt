//! Phi_m, heights and remainders by Phi_m. The expected values come from a plain program of the definitions: lists are
//! told apart by their value at a large number modulo 2^61 - 1, the last coefficient being the constant one.
ghost use Rattle.std.specs.Prelude.{◌≡◌, ◌<◌, ◌≤◌, ◌^◌, IfOk, All, vec_len};
ghost use Rattle.mod_ring.specs.Zq.{modulus_of};

use cyclo_poly::{Cyclo, CycloFault};
use mod_ring::Zq;
use std::alloc::{AllocError, Global};
use std::test::Fail;

const MODULUS: u64 = (1 << 61) - 1;

const POINT: u64 = 1234567890123456789;

/// The first of some numbers m, the one after the last, and the value of the list of 7 times Phi_m plus the height of m.
static RANGES: [(u32, u32, u64); 22] = [
    (3, 10, 1552833995905658149),
    (10, 20, 425345779985138061),
    (20, 30, 326392178236834495),
    (30, 40, 822111386360451440),
    (40, 50, 1800802405181751349),
    (50, 60, 854646932947985912),
    (60, 70, 382481591040842482),
    (70, 80, 392732722876911430),
    (80, 90, 1865720381486120565),
    (90, 100, 1958229644010400228),
    (100, 110, 982159410925995797),
    (110, 120, 1960547555458893571),
    (120, 130, 485535024604678626),
    (130, 140, 407164205122132446),
    (140, 150, 282935327678687540),
    (150, 160, 1506591326218391694),
    (160, 170, 296744434454491773),
    (170, 180, 981140047641830399),
    (180, 190, 1595096495671851589),
    (190, 200, 1046917771180576003),
    (200, 210, 259336896007059804),
    (210, 211, 1973795525650851033),
];

/// The numbers up to 210 whose height is 2. That of the others is 1.
static OF_HEIGHT_TWO: [u32; 4] = [105, 165, 195, 210];

/// A number m, the value of Phi_m, the height and the degree.
static MEMBERS: [(u32, u64, u32, u32); 2] = [
    (1155, 1688376160161429847, 9, 480),
    (4095, 1491243448185115966, 7, 1728),
];

/// A number m, a modulus q, and the value of the remainder of `row` by Phi_m.
static FOLDS: [(u32, u64, u64); 14] = [
    (7, 113, 951299984997779066),
    (12, 113, 1589072240608657796),
    (15, 113, 1668692242498579472),
    (16, 113, 481821956100685080),
    (16, 4611686018427387847, 322353711344353082),
    (30, 113, 1615862870551847029),
    (30, 4611686018427387847, 1064861478274779359),
    (105, 113, 1148039266620356658),
    (105, 4611686018427387847, 1970475730493829507),
    (210, 113, 1462065094556403008),
    (210, 4611686018427387847, 1092572088589794917),
    (1155, 4611686018427387847, 1823188164338884945),
    (4095, 113, 1191694916866356452),
    (4096, 4611686018427387847, 615388027257606580),
];

/// The residues of 2^61 - 1.
fn large_ring() -> Zq
    ensures { modulus_of result ≡ 2305843009213693951 }
{
    Zq::new(MODULUS).unwrap()
}

fn value_of(zq: &Zq, coeffs: &[i64]) -> u64
    requires { POINT < modulus_of zq.now }
    ensures { result < modulus_of zq.now }
{
    let mut value = 0;
    for c in coeffs {
        value = zq.add_word(zq.mul_word(value, POINT), zq.from_signed(*c));
    }
    value
}

fn value_of_row(zq: &Zq, values: &[u64]) -> u64
    requires { POINT < modulus_of zq.now }
{
    let mut value = 0;
    for v in values {
        value = zq.add_word(zq.mul_word(value, POINT), *v % zq.modulus());
    }
    value
}

/// The value of the list of 7 times Phi_m plus the height of m.
fn value_between(alloc: Global, zq: &Zq, first: u32, end: u32) -> Result<u64, CycloFault>
    requires low { 3 ≤ first }
    requires high { end ≤ 2 ^ 16 }
    requires point { POINT < modulus_of zq.now }
{
    let mut all = 0;
    for m in first..end {
        let cyclo = Cyclo::new(alloc, m)?;
        let value = zq.mul_word(value_of(zq, cyclo.phi()), 7);
        let next = zq.add_word(value, zq.from_signed(cyclo.height() as i64));
        all = zq.add_word(zq.mul_word(all, POINT), next);
    }
    Ok(all)
}

/// The residues of 7 i^2 + 1000003^2 i + 3, for i below m.
fn row(alloc: Global, zq: &Zq, m: u32) -> Result<Vec<u64>, AllocError>
    requires { m ≤ 2 ^ 16 }
    ensures long { IfOk result (λ v. vec_len v ≡ m) }
    ensures below { IfOk result (λ v. All (λ c. c < modulus_of zq.now) v.items) }
{
    let mut list = Vec::new(alloc);
    for i in 0..m {
        let place = i as i64;
        list.push(zq.from_signed(7 * place * place + 1000006000009 * place + 3))?;
    }
    Ok(list)
}

#[test]
fn ranges(rt: HostRuntime) -> Result<(), Fail> {
    let alloc = rt.alloc();
    let zq = large_ring();
    for (first, end, want) in RANGES {
        assert!(rt; first >= 3 && end <= 65536);
        let value = value_between(alloc, &zq, first, end)?;
        assert_eq!(rt; value, want, "from {first}");
    }
    Ok(())
}

#[test]
fn heights(rt: HostRuntime) -> Result<(), Fail> {
    let alloc = rt.alloc();
    for m in 3..211 {
        let want = if OF_HEIGHT_TWO.contains(&m) { 2 } else { 1 };
        assert_eq!(rt; Cyclo::new(alloc, m)?.height(), want, "of {m}");
    }
    Ok(())
}

#[test]
fn members(rt: HostRuntime) -> Result<(), Fail> {
    let alloc = rt.alloc();
    let zq = large_ring();
    for (m, value, height, degree) in MEMBERS {
        assert!(rt; m >= 3 && m <= 65536);
        let cyclo = Cyclo::new(alloc, m)?;
        assert_eq!(rt; cyclo.m(), m);
        assert_eq!(rt; value_of(&zq, cyclo.phi()), value, "of {m}");
        assert_eq!(rt; cyclo.height(), height);
        assert_eq!(rt; cyclo.degree(), degree);
    }
    Ok(())
}

#[test]
fn coefficients(rt: HostRuntime) -> Result<(), Fail> {
    let alloc = rt.alloc();
    let twelve = Cyclo::new(alloc, 12)?;
    assert_eq!(rt; twelve.phi(), [1, 0, -1, 0, 1].as_slice());
    let large = Cyclo::new(alloc, 105)?.copy(alloc)?;
    assert_eq!(rt; large.phi().get(7).copied(), Some(-2));
    Ok(())
}

#[test]
fn folds(rt: HostRuntime) -> Result<(), Fail> {
    let alloc = rt.alloc();
    let test = large_ring();
    for (m, q, value) in FOLDS {
        assert!(rt; m >= 3 && m <= 65536);
        let zq = Zq::new(q).ok_or("refused")?;
        let cyclo = Cyclo::new(alloc, m)?;
        let mut values = row(alloc, &zq, m)?;
        cyclo.fold(&zq, &mut values);
        assert_eq!(rt;
            value_of_row(&test, &values),
            value,
            "by Phi_{m} modulo {q}"
        );
    }
    Ok(())
}
