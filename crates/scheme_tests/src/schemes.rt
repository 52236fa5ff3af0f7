//! Schemes of small tables, and what a seed and a stream give under them.
ghost use Rattle.std.specs.Prelude.{◌≡◌, ◌≤◌, IfOk};
ghost use Rattle.cipher_core.specs.Shown.{ArePartsUnder};
ghost use Rattle.key_switch.specs.Shown.{IsPublicUnder};
ghost use Rattle.scheme_laws.specs.Keys.{IsSecret};
ghost use Rattle.slot_array.specs.Arrays.{IsArray};

use cipher_core::{Cipher, CipherFault, Scheme};
use double_crt::{Dcrt, RingTables};
use draw_stream::Draws;
use key_switch::{Public, Secret};
use slot_array::{SlotArray, SlotsFault, print_slots, read_slots};
use slot_factor::Slots;
use std::alloc::{AllocError, Global};
use std::rc::Rc;
use std::test::Fail;
use table_file::read_table;

/// The seed of zeros.
pub static ZEROS: [u8; 32] = [0; 32];

/// The scheme of the text of a table.
pub fn scheme_of(alloc: Global, table: &str) -> Result<Scheme, Fail> {
    let table = read_table(alloc, table.as_bytes())?;
    let scheme = table.scheme;
    match scheme {
        Some(scheme) => Ok(scheme),
        None => Err(Fail::new("no scheme")),
    }
}

/// The secret that a stream of a seed gives.
#[tactic(auto, using(crate::proofs::Rooms::secret_room))]
pub fn secret_of(
    alloc: Global,
    tables: &Rc<RingTables>,
    seed: [u8; 32],
    stream: u64,
) -> Result<Secret, AllocError>
    ensures { IfOk result (λ s. IsSecret tables.now.value s.coeffs.items) }
{
    let _n = tables.n();
    key_gen::secret(alloc, tables, &mut Draws::new(seed, stream))
}

/// The public key of a secret that a stream of a seed gives.
#[tactic(auto, using(crate::proofs::Rooms::public_room))]
pub fn public_of(
    alloc: Global,
    tables: &Rc<RingTables>,
    secret: &Secret,
    seed: [u8; 32],
    stream: u64,
) -> Result<Public, AllocError>
    requires { IsSecret tables.now.value secret.now.coeffs.items }
    ensures { IfOk result (IsPublicUnder tables.now.value) }
{
    let _n = tables.n();
    key_gen::public(alloc, tables, secret, &mut Draws::new(seed, stream))
}

/// The array of a text.
pub fn array_of(alloc: Global, scheme: &Scheme, text: &str) -> Result<SlotArray, SlotsFault>
    ensures { IfOk result (IsArray scheme.now.slots.value.field scheme.now.slots.value.cube) }
{
    let slots: &Slots = &scheme.slots;
    read_slots(alloc, slots.cube(), slots.ext(), text.as_bytes())
}

/// The ciphertext of an array that a stream of a seed gives.
#[tactic(auto, using(crate::proofs::Rooms::cipher_room))]
pub fn cipher_of(
    alloc: Global,
    scheme: &Scheme,
    public: &Public,
    seed: [u8; 32],
    stream: u64,
    array: &SlotArray,
) -> Result<Cipher, CipherFault>
    requires key { IsPublicUnder scheme.now.tables.value public.now }
    requires array { IsArray scheme.now.slots.value.field scheme.now.slots.value.cube array.now }
    ensures { IfOk result (ArePartsUnder scheme.now.tables.value) }
{
    let _n = scheme.tables.n();
    scheme.encrypt(alloc, public, &mut Draws::new(seed, stream), array)
}

/// The text of the array that a ciphertext holds under a secret.
pub fn decrypted(
    alloc: Global,
    scheme: &Scheme,
    secret: &Secret,
    cipher: &Cipher,
) -> Result<Vec<u8>, AllocError>
    requires secret { IsSecret scheme.now.tables.value secret.now.coeffs.items }
    requires parts { cipher.now.c0.tables ≡ scheme.now.tables.value }
{
    let array = scheme.decrypt(alloc, secret, cipher)?;
    print_slots(alloc, &array)
}

/// The same ciphertext modulo fewer moduli.
pub fn lowered(alloc: Global, cipher: &Cipher, level: u32) -> Result<Cipher, AllocError>
    requires { level ≤ cipher.now.level }
    ensures { IfOk result (λ c. c.c0.tables ≡ cipher.now.c0.tables) }
{
    let _rows = cipher.c0.chain_rows();
    Ok(Cipher {
        level,
        bound: cipher.bound,
        c0: cipher.c0.restrict(alloc, level + 1, false)?,
        c1: cipher.c1.restrict(alloc, level + 1, false)?,
    })
}

/// The residues of a polynomial, modulus by modulus.
pub fn residues(alloc: Global, a: &Dcrt) -> Result<Vec<u64>, AllocError> {
    let mut list = Vec::new(alloc);
    for row in &a.to_residues(alloc)? {
        list.extend_from_slice(row)?;
    }
    Ok(list)
}
