//! Keys and ciphertexts of a table of m = 7, p = 2 and three moduli.
use crate::assertions::{assert_cipher, assert_equation, assert_keys};
use std::test::Fail;

/// The table.
pub static TABLE: &str = "m = 7
p = 2
factor = [1, 1, 0, 1]
dual = [[1, 0, 0], [0, 0, 1], [0, 1, 0]]
generators = [[6, 2]]
weight = 2
digits = [1, 1, 1]
chain = [[469762049, 427195177, 426037461, 1], [7340033, 1904075, 5712452, 1], [998244353, 467509451, 929031873, 1]]
special = [[31525197391593473, 11086612459078427, 1791537114801093, 1]]
inverse = [[], [5825423], [554580198, 96127235], [27584547658924033, 25731875709086467, 15029981476160933]]
";

/// The coefficients of Phi_m without the highest one.
static PHI: [i64; 6] = [1, 1, 1, 1, 1, 1];

/// The moduli of the chain.
static MODULI: [u64; 3] = [469762049, 7340033, 998244353];

/// The secret.
static SECRET: [i64; 6] = [-1, -1, 0, 0, 0, 0];

/// The coefficients of `p*e` of the public key.
static NOISE: [i64; 6] = [4, -4, 0, 6, 0, 6];

/// The residues of b.
static B: [u64; 18] = [
    312568454, 340700084, 142229813, 428977847, 72178696, 351167041, 4410849, 293607, 3533745,
    7029881, 4949075, 1420490, 604862034, 759190919, 725569245, 145542755, 721423108, 98938349,
];

/// The residues of a.
static A: [u64; 18] = [
    436674406, 28131638, 238204131, 314879666, 351167035, 124105956, 261150, 3222799, 3501284,
    6718929, 1420484, 3190338, 554924015, 154328893, 521302337, 572546750, 98938343, 948306338,
];

/// The residues of c0.
static C0: [u64; 18] = [
    23142329, 325989436, 330302628, 402418193, 278495858, 170981455, 4093674, 2036982, 4361863,
    2857518, 2950876, 2408308, 40481129, 121872079, 201285625, 291387370, 589977471, 88870689,
];

/// The residues of c1.
static C1: [u64; 18] = [
    290590555, 302847085, 294903755, 374962659, 170981440, 267448226, 7330059, 5283319, 2314915,
    3778983, 2408293, 3236385, 709111352, 81390928, 788524906, 171492682, 88870674, 668630223,
];

/// The array in the ciphertext.
static SLOTS: &str = "0 1 0\n1 0 0\n";

#[test]
fn keys(rt: HostRuntime) -> Result<(), Fail> {
    assert_keys(&rt, TABLE, &SECRET, &B, &A)
}

#[test]
fn the_equation_of_the_public_key(rt: HostRuntime) -> Result<(), Fail> {
    assert_equation(&rt, TABLE, &PHI, &MODULI, &NOISE)
}

#[test]
fn a_ciphertext(rt: HostRuntime) -> Result<(), Fail> {
    assert_cipher(&rt, TABLE, SLOTS, 1086, &C0, &C1)
}
