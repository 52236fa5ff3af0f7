//! The files of a small table, and how they are read.
ghost use Rattle.std.specs.Prelude.{◌<◌, IfOk};
ghost use Rattle.cipher_core.specs.Shown.{ArePartsUnder};
ghost use Rattle.key_switch.specs.Shown.{IsPublicUnder};
ghost use Rattle.scheme_laws.specs.Keys.{IsSecret};

use cipher_core::Cipher;
use double_crt::RingTables;
use he_files::{ReadFault, read_cipher, read_header, read_public, read_secret};
use key_switch::{Public, Secret};
use line_text::FileKind;
use std::alloc::{AllocError, Global};
use std::rc::Rc;
use std::test::Fail;
use table_file::read_table;

/// A table of m = 7, p = 2 and three moduli.
static TABLE: &str = "m = 7
p = 2
factor = [1, 1, 0, 1]
dual = [[1, 0, 0], [0, 0, 1], [0, 1, 0]]
generators = [[6, 2]]
weight = 2
digits = [1, 1, 1]
chain = [
    [469762049, 427195177, 426037461, 1],
    [7340033, 1904075, 5712452, 1],
    [998244353, 467509451, 929031873, 1]]
special = [[31525197391593473, 11086612459078427, 1791537114801093, 1]]
inverse = [
    [],
    [5825423],
    [554580198, 96127235],
    [27584547658924033, 25731875709086467, 15029981476160933]]
";

/// The tables of the ring of the table.
pub fn tables(alloc: Global) -> Result<Rc<RingTables>, Fail> {
    let table = read_table(alloc, TABLE.as_bytes())?;
    match &table.scheme {
        Some(scheme) => Ok(scheme.tables.clone()?),
        None => Err(Fail::new("no scheme")),
    }
}

/// The secret of the table that the seed of zeros gives with stream 1, as a file of the table `a` and the key `k`.
pub static SECRET: [u8; 16] = [72, 66, 71, 86, 1, 1, 1, 97, 1, 107, 255, 255, 0, 0, 0, 0];

/// What its public key of stream 2 has before its numbers.
static PUBLIC_FRONT: [u8; 10] = [72, 66, 71, 86, 2, 1, 1, 97, 1, 107];

/// The numbers of that public key: b and then a, for each modulus the values at the six units.
static PUBLIC_NUMBERS: [u64; 36] = [
    329014992, 425376113, 169269418, 161423365, 403277585, 461081917, 4264112, 4536142, 2017568,
    4678384, 5339614, 3082542, 790254776, 665382931, 64985492, 558796950, 448343954, 647232431,
    335743840, 177631068, 377678607, 185760497, 70080807, 416663191, 2680503, 1923614, 5632728,
    4256128, 5171264, 548994, 780970734, 166865255, 159102086, 111251235, 68314550, 745861922,
];

/// What the ciphertext of stream 3 of the slots X and 1 has before its numbers: with the header the level 2 and the bound 1086.
static CIPHER_FRONT: [u8; 22] = [
    72, 66, 71, 86, 4, 1, 1, 97, 1, 107, 2, 0, 0, 0, 62, 4, 0, 0, 0, 0, 0, 0,
];

/// The numbers of that ciphertext: c0 and then c1, for each modulus the values at the six units.
static CIPHER_NUMBERS: [u64; 36] = [
    283420848, 272803896, 285392167, 351471940, 331554521, 394357375, 5896172, 1614948, 331989,
    1786023, 521438, 7135960, 808629478, 982766851, 382332429, 182101170, 262588657, 324052367,
    58090116, 232948326, 71830520, 131682315, 289185277, 18425660, 5676248, 6641169, 2357355,
    1357472, 2711403, 874779, 86215160, 466557465, 600526454, 746961358, 849915564, 703827051,
];

/// Bytes, and the eight bytes of each number, the low one first.
fn spelled(alloc: Global, front: &[u8], numbers: &[u64]) -> Result<Vec<u8>, AllocError> {
    let mut bytes = Vec::from_slice(alloc, front)?;
    for number in numbers {
        bytes.extend_from_slice(&number.to_le_bytes())?;
    }
    Ok(bytes)
}

/// The file of the public key.
pub fn public_file(alloc: Global) -> Result<Vec<u8>, AllocError> {
    spelled(alloc, &PUBLIC_FRONT, &PUBLIC_NUMBERS)
}

/// The file of the ciphertext.
pub fn cipher_file(alloc: Global) -> Result<Vec<u8>, AllocError> {
    spelled(alloc, &CIPHER_FRONT, &CIPHER_NUMBERS)
}

/// The secret of a file.
pub fn secret_in(alloc: Global, tables: &Rc<RingTables>, bytes: &[u8]) -> Result<Secret, ReadFault>
    ensures { IfOk result (λ s. IsSecret tables.now.value s.coeffs.items) }
{
    let (_, from) = read_header(alloc, FileKind::Secret, bytes)?;
    read_secret(alloc, tables, bytes, from)
}

/// The public key of a file.
pub fn public_in(alloc: Global, tables: &Rc<RingTables>, bytes: &[u8]) -> Result<Public, ReadFault>
    ensures { IfOk result (IsPublicUnder tables.now.value) }
{
    let (_, from) = read_header(alloc, FileKind::Public, bytes)?;
    read_public(alloc, tables, bytes, from)
}

/// The ciphertext of a file.
pub fn cipher_in(alloc: Global, tables: &Rc<RingTables>, bytes: &[u8]) -> Result<Cipher, ReadFault>
    ensures parts { IfOk result (ArePartsUnder tables.now.value) }
    ensures small { IfOk result (λ c. c.bound.exp < 4096) }
{
    let (_, from) = read_header(alloc, FileKind::Cipher, bytes)?;
    read_cipher(alloc, tables, bytes, from)
}

/// Why a file of a key or a ciphertext is not read, if it is not.
pub fn fault_in(
    alloc: Global,
    tables: &Rc<RingTables>,
    kind: FileKind,
    bytes: &[u8],
) -> Option<ReadFault> {
    match kind {
        FileKind::Secret => secret_in(alloc, tables, bytes).err(),
        FileKind::Public => public_in(alloc, tables, bytes).err(),
        _ => cipher_in(alloc, tables, bytes).err(),
    }
}
