//! A ring of remainders over a ring of remainders over the residues modulo 3: `x^2 = -1` and `y^2 = x`.
ghost use Rattle.std.specs.Prelude.{◌≡◌, IsTrue, IfOk};

use cyclo_poly::{Poly, Quot, divide_monic};
use mod_ring::{Ring, Zq, horner, power, sum};
use std::alloc::{AllocError, Global};
use std::process::Abort;
use std::test::Fail;

/// A polynomial in x out of its two coefficients.
fn inner(alloc: Global, numbers: [u64; 2]) -> Result<Poly<Zq>, AllocError> {
    let coeffs = Vec::from_array(alloc, numbers)?;
    Ok(Poly { coeffs })
}

/// An element out of its numbers: those of the constant coefficient, and those of y.
fn element(alloc: Global, low: [u64; 2], high: [u64; 2]) -> Result<Poly<Quot<Zq>>, AllocError> {
    let coeffs = Vec::from_array(alloc, [inner(alloc, low)?, inner(alloc, high)?])?;
    Ok(Poly { coeffs })
}

/// The remainders by `y^2 - x` over those by `x^2 + 1`.
fn tower(rt: &impl Abort, alloc: Global) -> Result<Quot<Quot<Zq>>, AllocError>
    ensures { IfOk result (λ s. ⟦<Quot<Quot<Zq>> as Ring>⟧.valid s) }
{
    let zq = Zq::new(3).unwrap();
    let modulus = Poly {
        coeffs: vec![in alloc; 1, 0, 1]?,
    };
    let nine = Quot::new(alloc, zq, modulus)?;
    let x = inner(alloc, [0, 1])?;
    assert!(rt; nine.holds(&x));
    let minus = nine.neg(alloc, &x)?;
    let zero = nine.zero(alloc)?;
    let one = nine.one(alloc)?;
    let modulus = Poly {
        coeffs: Vec::from_array(alloc, [minus, zero, one])?,
    };
    let tower = Quot::new(alloc, nine, modulus)?;
    Ok(tower)
}

/// All numbers of an element, in order.
fn numbers(alloc: Global, a: &Poly<Quot<Zq>>) -> Result<Vec<u64>, AllocError> {
    let mut list = Vec::new(alloc);
    for coefficient in &a.coeffs {
        list.extend_from_slice(&coefficient.coeffs)?;
    }
    Ok(list)
}

/// All numbers of a list of elements.
fn all_numbers(alloc: Global, elements: &[Poly<Quot<Zq>>]) -> Result<Vec<u64>, AllocError> {
    let mut list = Vec::new(alloc);
    for a in elements {
        list.extend_from_slice(&numbers(alloc, a)?)?;
    }
    Ok(list)
}

/// What the calls of a ring answer: zero, one, `a + b`, `a - b`, `a * b` and `-a`.
fn answers<R: Ring>(
    alloc: Global,
    ring: &R,
    a: &R::Elem,
    b: &R::Elem,
) -> Result<Vec<R::Elem>, AllocError>
    requires ring { R.valid ring.now }
    requires a_held { IsTrue (R.held ring.now (R.value a.now)) }
    requires b_held { IsTrue (R.held ring.now (R.value b.now)) }
{
    let mut list = Vec::new(alloc);
    list.push(ring.zero(alloc)?)?;
    list.push(ring.one(alloc)?)?;
    list.push(ring.add(alloc, a, b)?)?;
    list.push(ring.sub(alloc, a, b)?)?;
    list.push(ring.mul(alloc, a, b)?)?;
    list.push(ring.neg(alloc, a)?)?;
    Ok(list)
}

// over the residues modulo 113, and with 1 + y and x + y
#[test]
fn rings(rt: HostRuntime) -> Result<(), Fail> {
    let alloc = rt.alloc();
    let zq = Zq::new(113).ok_or("refused")?;
    let (a, b) = (100, 50);
    assert!(rt; zq.holds(&a) && zq.holds(&b));
    let list = answers(alloc, &zq, &a, &b)?;
    assert_eq!(rt; list.as_slice(), [0, 1, 37, 50, 28, 13].as_slice());

    let ring = tower(&rt, alloc)?;
    let a = element(alloc, [1, 0], [1, 0])?;
    let b = element(alloc, [0, 1], [1, 0])?;
    assert!(rt; ring.holds(&a) && ring.holds(&b));
    assert!(rt; ring.equal(&a, &a) && !ring.equal(&a, &b));
    let list = answers(alloc, &ring, &a, &b)?;
    let want = [
        0, 0, 0, 0, 1, 0, 0, 0, 1, 1, 2, 0, 1, 2, 0, 0, 0, 2, 1, 1, 2, 0, 2, 0,
    ];
    assert_eq!(rt; all_numbers(alloc, &list)?.as_slice(), want.as_slice());
    Ok(())
}

// what no ring holds
#[test]
fn others(rt: HostRuntime) -> Result<(), Fail> {
    let alloc = rt.alloc();
    let ring = tower(&rt, alloc)?;
    let large = element(alloc, [1, 0], [3, 0])?;
    assert!(rt; !ring.holds(&large));
    let short = Poly {
        coeffs: Vec::from_array(alloc, [inner(alloc, [1, 0])?])?,
    };
    assert!(rt; !ring.holds(&short));
    Ok(())
}

#[test]
fn powers(rt: HostRuntime) -> Result<(), Fail> {
    let alloc = rt.alloc();
    let ring = tower(&rt, alloc)?;
    let y = element(alloc, [0, 0], [1, 0])?;
    assert!(rt; ring.holds(&y));
    for (e, want) in [
        (0, [1, 0, 0, 0]),
        (1, [0, 0, 1, 0]),
        (2, [0, 1, 0, 0]),
        (3, [0, 0, 0, 1]),
        (4, [2, 0, 0, 0]),
        (5, [0, 0, 2, 0]),
        (8, [1, 0, 0, 0]),
    ] {
        let raised = power(alloc, &ring, &y, e)?;
        assert_eq!(rt;
            numbers(alloc, &raised)?.as_slice(),
            want.as_slice(),
            "y^{e}"
        );
    }
    Ok(())
}

// 1 + y*y + x*y^2 is x
#[test]
fn values(rt: HostRuntime) -> Result<(), Fail> {
    let alloc = rt.alloc();
    let ring = tower(&rt, alloc)?;
    let y = element(alloc, [0, 0], [1, 0])?;
    assert!(rt; ring.holds(&y));
    let one = ring.one(alloc)?;
    let first = power(alloc, &ring, &y, 1)?;
    let second = power(alloc, &ring, &y, 2)?;
    let coeffs = Vec::from_array(alloc, [one, first, second])?;
    let value = horner(alloc, &ring, &coeffs, &y)?;
    assert_eq!(rt; numbers(alloc, &value)?.as_slice(), [0, 1, 0, 0].as_slice());
    Ok(())
}

// 1 + y^3
#[test]
fn sums(rt: HostRuntime) -> Result<(), Fail> {
    let alloc = rt.alloc();
    let ring = tower(&rt, alloc)?;
    let y = element(alloc, [0, 0], [1, 0])?;
    assert!(rt; ring.holds(&y));
    let one = ring.one(alloc)?;
    let third = power(alloc, &ring, &y, 3)?;
    let list = Vec::from_array(alloc, [one, third])?;
    let total = sum(alloc, &ring, &list)?;
    assert_eq!(rt; numbers(alloc, &total)?.as_slice(), [1, 0, 0, 1].as_slice());
    Ok(())
}

// z^2 + 1 by z + y: the quotient is z - y and the remainder 1 + x
#[test]
fn quotients(rt: HostRuntime) -> Result<(), Fail> {
    let alloc = rt.alloc();
    let ring = tower(&rt, alloc)?;
    let y = element(alloc, [0, 0], [1, 0])?;
    assert!(rt; ring.holds(&y));
    let constant = ring.one(alloc)?;
    let zero = ring.zero(alloc)?;
    let top = ring.one(alloc)?;
    let dividend = Poly {
        coeffs: Vec::from_array(alloc, [constant, zero, top])?,
    };
    let one = ring.one(alloc)?;
    let divisor = Poly {
        coeffs: Vec::from_array(alloc, [y, one])?,
    };
    let (quotient, rest) = divide_monic(alloc, &ring, &dividend, &divisor)?;
    assert_eq!(rt;
        all_numbers(alloc, &quotient.coeffs)?.as_slice(),
        [0, 0, 2, 0, 1, 0, 0, 0].as_slice()
    );
    assert_eq!(rt;
        all_numbers(alloc, &rest.coeffs)?.as_slice(),
        [1, 1, 0, 0].as_slice()
    );
    Ok(())
}
