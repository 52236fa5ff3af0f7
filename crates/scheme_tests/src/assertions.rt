//! What is asserted of the keys and the ciphertext that the seed of zeros gives with streams 1, 2 and 3 under a table.
use crate::plain_ring::{add, product, sum};
use crate::schemes::{
    ZEROS, array_of, cipher_of, decrypted, lowered, public_of, residues, scheme_of, secret_of,
};
use std::process::Abort;
use std::test::Fail;

/// Asserts the coefficients of the secret, and the residues of the public key.
pub fn assert_keys<R: Abort + AllocGlobal>(
    rt: &R,
    table: &str,
    secret: &[i64],
    b: &[u64],
    a: &[u64],
) -> Result<(), Fail> {
    let scheme = scheme_of(rt.alloc(), table)?;
    let given = secret_of(rt.alloc(), &scheme.tables, ZEROS, 1)?;
    assert_eq!(rt; given.coeffs.as_slice(), secret);
    let public = public_of(rt.alloc(), &scheme.tables, &given, ZEROS, 2)?;
    let rows = residues(rt.alloc(), &public.b)?;
    assert_eq!(rt; rows.as_slice(), b);
    let rows = residues(rt.alloc(), &public.a)?;
    assert_eq!(rt; rows.as_slice(), a);
    Ok(())
}

/// Asserts that `b + a*s` is `p*e` modulo each modulus, for the products `p*e` that are given, by a product of whole
/// polynomials modulo phi, which is given without its highest coefficient.
pub fn assert_equation<R: Abort + AllocGlobal>(
    rt: &R,
    table: &str,
    phi: &[i64],
    moduli: &[u64],
    noise: &[i64],
) -> Result<(), Fail> {
    let scheme = scheme_of(rt.alloc(), table)?;
    let secret = secret_of(rt.alloc(), &scheme.tables, ZEROS, 1)?;
    let public = public_of(rt.alloc(), &scheme.tables, &secret, ZEROS, 2)?;
    let b = public.b.to_residues(rt.alloc())?;
    let a = public.a.to_residues(rt.alloc())?;
    assert_eq!(rt; (b.len(), a.len()), (moduli.len(), moduli.len()));
    for ((b, a), q) in b.iter().zip(a.iter()).zip(moduli) {
        assert!(rt; *q > 0);
        let mut left = product(rt.alloc(), a, &secret.coeffs, phi, *q)?;
        add(&mut left, 1, b, *q);
        let mut right = Vec::new(rt.alloc());
        for e in noise {
            right.push(sum(0, *e, e.unsigned_abs(), *q))?;
        }
        assert_eq!(rt; left.as_slice(), right.as_slice(), "modulo {q}");
    }
    Ok(())
}

/// Asserts the bound and the residues of the ciphertext of an array, and that the array comes back at each level.
pub fn assert_cipher<R: Abort + AllocGlobal>(
    rt: &R,
    table: &str,
    slots: &str,
    bound: u32,
    c0: &[u64],
    c1: &[u64],
) -> Result<(), Fail> {
    let scheme = scheme_of(rt.alloc(), table)?;
    let secret = secret_of(rt.alloc(), &scheme.tables, ZEROS, 1)?;
    let public = public_of(rt.alloc(), &scheme.tables, &secret, ZEROS, 2)?;
    let array = array_of(rt.alloc(), &scheme, slots)?;
    let cipher = cipher_of(rt.alloc(), &scheme, &public, ZEROS, 3, &array)?;
    assert_eq!(rt; (cipher.bound.man, cipher.bound.exp), (bound, 0));
    let rows = residues(rt.alloc(), &cipher.c0)?;
    assert_eq!(rt; rows.as_slice(), c0);
    let rows = residues(rt.alloc(), &cipher.c1)?;
    assert_eq!(rt; rows.as_slice(), c1);
    for level in 0..=cipher.level {
        let cipher = lowered(rt.alloc(), &cipher, level)?;
        let text = decrypted(rt.alloc(), &scheme, &secret, &cipher)?;
        assert_eq!(rt; text.as_slice(), slots.as_bytes(), "at level {level}");
    }
    Ok(())
}

/// Asserts that an array comes back from a ciphertext, all draws being of this seed.
pub fn assert_comes_back<R: Abort + AllocGlobal>(
    rt: &R,
    table: &str,
    rows: &[(u8, &str)],
) -> Result<(), Fail> {
    let scheme = scheme_of(rt.alloc(), table)?;
    for (byte, slots) in rows {
        let seed = [*byte; 32];
        let secret = secret_of(rt.alloc(), &scheme.tables, seed, 1)?;
        let public = public_of(rt.alloc(), &scheme.tables, &secret, seed, u64::MAX)?;
        let array = array_of(rt.alloc(), &scheme, slots)?;
        let cipher = cipher_of(rt.alloc(), &scheme, &public, seed, 1 << 32, &array)?;
        let text = decrypted(rt.alloc(), &scheme, &secret, &cipher)?;
        assert_eq!(rt; text.as_slice(), slots.as_bytes(), "with seed {byte}");
    }
    Ok(())
}
