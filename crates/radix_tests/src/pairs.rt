ghost use Rattle.std.specs.Prelude.{◌≡◌, ◌<◌, ◌≤◌, ◌∷◌, [], length, IfOk};

use mixed_radix::Radix;
use mod_ring::Zq;
use std::alloc::{AllocError, Global};
use std::test::Fail;

/// The radix of 113 and 337.
fn small_radix(alloc: Global) -> Result<Radix, AllocError>
    ensures { IfOk result (λ radix. radix.moduli ≡ 113 ∷ 337 ∷ []) }
{
    let none = Vec::new(alloc);
    let one = Vec::from_slice(alloc, &[170])?;
    Radix::new(alloc, &[113, 337], &[none, one])
}

/// The digits of a number with these residues.
fn digits_of(radix: &Radix, first: u64, second: u64) -> [i64; 2]
    requires moduli { radix.now.moduli ≡ 113 ∷ 337 ∷ [] }
    requires first_in { first < 113 }
    requires second_in { second < 337 }
{
    let mut digits = [0; 2];
    radix.digits(&[first, second], &mut digits);
    digits
}

/// The residues of the sum of all digits and of the sum from the second on.
fn residues_of(radix: &Radix, digits: &[i64; 2], target: &Zq) -> [u64; 2]
    requires { radix.now.moduli ≡ 113 ∷ 337 ∷ [] }
{
    [
        radix.residue_from_digits(digits, 0, target),
        radix.residue_from_digits(&digits[1..], 1, target),
    ]
}

/// The radix of three moduli of 61 bits.
fn large_radix(alloc: Global) -> Result<Radix, AllocError>
    ensures { IfOk result
        (λ radix. radix.moduli ≡ 2305843009213693951 ∷ 2305843009213693921 ∷ 2305843009213693907 ∷ []) }
{
    let none = Vec::new(alloc);
    let one = Vec::from_slice(alloc, &[2228981575573237457])?;
    let two = Vec::from_slice(alloc, &[1100515981670172092, 164703072086692422])?;
    Radix::new(
        alloc,
        &[
            2305843009213693951,
            2305843009213693921,
            2305843009213693907,
        ],
        &[none, one, two],
    )
}

/// The digits of 123456789012345678901234567890123456789012345.
fn large_digits(radix: &Radix) -> [i64; 3]
    requires { radix.now.moduli ≡ 2305843009213693951 ∷ 2305843009213693921 ∷ 2305843009213693907 ∷ [] }
{
    let residues = [1772421204681064905, 994021028809531986, 1091936229548854446];
    let mut digits = [0; 3];
    radix.digits(&residues, &mut digits);
    digits
}

#[test]
fn digits_of_three_residues(rt: HostRuntime) -> Result<(), Fail> {
    let radix = large_radix(rt.alloc())?;
    assert_eq!(rt;
        large_digits(&radix),
        [-533421804532629046, 665806230235057080, 23219641]
    );
    Ok(())
}

#[test]
fn digits_of_two_residues(rt: HostRuntime) -> Result<(), Fail> {
    let radix = small_radix(rt.alloc())?;
    let target = Zq::new(97).ok_or("refused")?;
    for (first, second, digits, residues) in [
        (16, 128, [16, 168], [85, 71]),
        (100, 100, [-13, 1], [3, 1]),
        (112, 336, [-1, 0], [96, 0]),
        (57, 169, [-56, -168], [69, 26]),
        (0, 0, [0, 0], [0, 0]),
    ] {
        assert!(rt; first < 113);
        assert!(rt; second < 337);
        let found = digits_of(&radix, first, second);
        assert_eq!(rt; found, digits);
        assert_eq!(rt; residues_of(&radix, &found, &target), residues);
    }
    Ok(())
}
