//! The transform and its inverse beside Horner's rule, for moduli that are prime and moduli that are not.
ghost use Rattle.std.specs.Prelude.{◌≡◌, ◌<◌, ◌≤◌, All, length, vec_len, IfOk};
ghost use Rattle.mod_ring.specs.Zq.{modulus_of};
ghost use Rattle.bluestein.specs.Plan.{AreRoots};

use crate::plain::values_at_powers;
use crate::roots::are_roots;
use bluestein::{Plan, Scratch};
use mod_ring::Zq;
use std::alloc::{AllocError, Global};
use std::test::Fail;

/// One of the lists of coefficients: zeros, ones, the greatest residues, and pseudo-random residues.
fn coefficients(alloc: Global, kind: u32, q: u64, m: u32) -> Result<Vec<u64>, AllocError>
    requires { 1 < q }
    ensures long { IfOk result (λ row. length row.items ≡ m) }
    ensures below { IfOk result (λ row. All (λ c. c < q) row.items) }
{
    let mut row = vec![in alloc; 0u64; m as usize]?;
    let mut state: u64 = 88172645463325252;
    for entry in row.iter_mut() {
        state = state
            .wrapping_mul(6364136223846793005)
            .wrapping_add(1442695040888963407);
        *entry = match kind {
            0 => 0,
            1 => 1,
            2 => q - 1,
            _ => state % q,
        };
    }
    Ok(row)
}

/// Whether the transform of these coefficients has the values that Horner's rule gives, and its inverse the coefficients.
fn agrees_on(
    plan: &Plan,
    scratch: &mut Scratch,
    ring: &Zq,
    square: u64,
    coeffs: &[u64],
    fast: &mut [u64],
    plain: &mut [u64],
) -> bool
    requires modulus { modulus_of ring.now ≡ plan.now.q }
    requires square_in { square < modulus_of ring.now }
    requires scratch_modulus { scratch.old.q ≡ plan.now.q }
    requires scratch_count { scratch.old.m ≡ plan.now.m }
    requires coeffs_long { length coeffs.now ≡ plan.now.m }
    requires coeffs_in { All (λ c. c < plan.now.q) coeffs.now }
    requires fast_long { length fast.old ≡ plan.now.m }
    requires plain_long { length plain.old ≡ plan.now.m }
    ensures { scratch.new ≡ scratch.old }
{
    plan.forward(scratch, coeffs, fast);
    values_at_powers(ring, coeffs, square, plain);
    if *fast != *plain {
        return false;
    }
    plan.inverse(scratch, plain, fast);
    *fast == *coeffs
}

/// Whether the transform agrees with Horner's rule on each list of coefficients.
fn agree(alloc: Global, q: u64, m: u32, zeta: u64, psi: u64) -> Result<bool, AllocError>
    requires { AreRoots q m zeta psi }
{
    let plan = Plan::new(alloc, q, m, zeta, psi)?;
    let mut scratch = Scratch::new(alloc, &plan)?;
    let ring = Zq::new(q).unwrap();
    let square = ring.mul_word(zeta, zeta);
    let mut fast = vec![in alloc; 0u64; m as usize]?;
    let mut plain = vec![in alloc; 0u64; m as usize]?;
    let mut all = true;
    for kind in 0..4 {
        let coeffs = coefficients(alloc, kind, q, m)?;
        if !agrees_on(
            &plan,
            &mut scratch,
            &ring,
            square,
            &coeffs,
            &mut fast,
            &mut plain,
        ) {
            all = false;
        }
    }
    Ok(all)
}

#[test]
fn agreement_with_horner(rt: HostRuntime) -> Result<(), Fail> {
    let alloc = rt.alloc();
    assert!(rt; agree(alloc, 1073741833, 3, 178257857, 301175838)?);
    assert!(rt; agree(alloc, 9150049, 3, 479225, 842570)?);
    assert!(rt; agree(alloc, 1073742721, 5, 856103140, 920698121)?);
    assert!(rt; agree(alloc, 9490961, 5, 5314105, 9266685)?);
    assert!(rt; agree(alloc, 1073742209, 7, 451060386, 87805215)?);
    assert!(rt; agree(alloc, 10543457, 7, 1450036, 2456553)?);
    assert!(rt; agree(alloc, 1073741857, 8, 980524046, 980524046)?);
    assert!(rt; agree(alloc, 9393649, 8, 4203420, 4203420)?);
    assert!(rt; agree(alloc, 1073741857, 12, 472135697, 610176184)?);
    assert!(rt; agree(alloc, 10651009, 12, 9561231, 7190694)?);
    assert!(rt; agree(alloc, 1073742721, 15, 492391451, 703184090)?);
    assert!(rt; agree(alloc, 16136161, 15, 9599230, 3903636)?);
    assert!(rt; agree(alloc, 1073747137, 21, 580214215, 532976574)?);
    assert!(rt; agree(alloc, 28914817, 21, 1508723, 18851650)?);
    assert!(rt; agree(alloc, 1073741953, 32, 567069816, 567069816)?);
    assert!(rt; agree(alloc, 10443073, 32, 6310451, 6310451)?);
    assert!(rt; agree(alloc, 1073936641, 105, 743452959, 965921628)?);
    assert!(rt; agree(alloc, 3612833281, 105, 1174398836, 2330766220)?);
    assert!(rt; agree(alloc, 1073748737, 128, 1064280392, 1064280392)?);
    assert!(rt; agree(alloc, 25570049, 128, 3385325, 3385325)?);
    Ok(())
}

#[test]
fn agreement_with_horner_of_many_values(rt: HostRuntime) -> Result<(), Fail> {
    for (q, zeta, psi, inverting) in [
        (
            2305843009191321601,
            495959065265757916,
            1869869712721145805,
            2305843009191321599,
        ),
        // 496742401 * 458895361
        (
            227952783430901761,
            107767289596067483,
            141398851668236619,
            227952782475263999,
        ),
    ] {
        assert!(rt; are_roots(q, 1155, zeta, psi, inverting));
        assert!(rt; agree(rt.alloc(), q, 1155, zeta, psi)?);
    }
    Ok(())
}

#[test]
fn values_of_x(rt: HostRuntime) -> Result<(), Fail> {
    let alloc = rt.alloc();
    let plan = Plan::new(alloc, 113, 7, 7, 40)?;
    let mut scratch = Scratch::new(alloc, &plan)?;
    let mut values = [0; 7];
    plan.forward(&mut scratch, &[0, 1], &mut values);
    assert_eq!(rt; values, [1, 49, 28, 16, 106, 109, 30]);
    let mut coeffs = [0; 7];
    plan.inverse(&mut scratch, &[1, 49, 28, 16, 106, 109, 30], &mut coeffs);
    assert_eq!(rt; coeffs, [0, 1, 0, 0, 0, 0, 0]);
    Ok(())
}
