//! Ciphertexts that are refused, and ciphertexts under another key.
use crate::schemes::{ZEROS, array_of, cipher_of, decrypted, public_of, scheme_of, secret_of};
use crate::seven;
use cipher_core::{CipherFault, law_scheme};
use std::test::Fail;

/// A table of m = 7, p = 2 and a single modulus, with a limit below the bound of fresh ciphertexts.
static NOISY: &str = "m = 7
p = 2
factor = [1, 1, 0, 1]
dual = [[1, 0, 0], [0, 0, 1], [0, 1, 0]]
generators = [[6, 2]]
weight = 2
digits = [1]
chain = [[113, 7, 40, 1]]
special = [[337, 285, 191, 1]]
inverse = [[], [170]]
";

#[test]
fn too_noisy(rt: HostRuntime) -> Result<(), Fail> {
    law_scheme();
    let scheme = scheme_of(rt.alloc(), NOISY)?;
    let secret = secret_of(rt.alloc(), &scheme.tables, ZEROS, 1)?;
    let public = public_of(rt.alloc(), &scheme.tables, &secret, ZEROS, 2)?;
    let array = array_of(rt.alloc(), &scheme, "0 1 0\n1 0 0\n")?;
    match cipher_of(rt.alloc(), &scheme, &public, ZEROS, 3, &array) {
        Err(CipherFault::TooNoisy { bound, limit }) => {
            assert_eq!(rt; (bound.man, bound.exp), (1086, 0));
            assert_eq!(rt; (limit.man, limit.exp), (56, 0));
            Ok(())
        }
        _ => Err(Fail::new("not too noisy")),
    }
}

/// Under a secret of another stream the ciphertext of the array 0 1 0, 1 0 0 opens to something else.
#[test]
fn another_secret(rt: HostRuntime) -> Result<(), Fail> {
    let scheme = scheme_of(rt.alloc(), seven::TABLE)?;
    let secret = secret_of(rt.alloc(), &scheme.tables, ZEROS, 1)?;
    let public = public_of(rt.alloc(), &scheme.tables, &secret, ZEROS, 2)?;
    let array = array_of(rt.alloc(), &scheme, "0 1 0\n1 0 0\n")?;
    let cipher = cipher_of(rt.alloc(), &scheme, &public, ZEROS, 3, &array)?;
    let other = secret_of(rt.alloc(), &scheme.tables, ZEROS, 5)?;
    assert_eq!(rt; other.coeffs.as_slice(), [0, 0, -1, 0, 0, -1].as_slice());
    let text = decrypted(rt.alloc(), &scheme, &other, &cipher)?;
    assert_eq!(rt; text.as_slice(), b"1 0 1\n1 1 0\n".as_slice());
    Ok(())
}
