//! Decryption.
ghost use Rattle.std.specs.Prelude.{◌≡◌, ◌+◌, ◌<◌, ◌≤◌, IfOk, length, map};
ghost use Rattle.slot_array.specs.Arrays.{Array, IsArray};
ghost use Rattle.noise_bound.specs.Value.{value as value_of};
ghost use Rattle.residue_rows.specs.Rows.{AreRows};
ghost use Rattle.residue_rows.specs.Kept.{IsKept};
ghost use Rattle.scheme_laws.specs.Scheme.{moduli_at};
ghost use Rattle.scheme_laws.specs.Keys.{IsSecret};
ghost use Rattle.scheme_laws.specs.Ciphers.{Stands, decrypted, limit_at};
ghost use Rattle.key_switch.specs.Shown.{IsSecretUnder};
ghost use Rattle.cipher_core.specs.Masked.{opened_parts};
ghost use Rattle.cipher_core.specs.Shown.{cipher_of, setting_of};

use crate::ciphers::Cipher;
use crate::plain_rows::plain_row;
use crate::schemes::Scheme;
use double_crt::{Dcrt, RingTables};
use key_switch::Secret;
use slot_array::SlotArray;
use slot_factor::Slots;
use std::alloc::{AllocError, Global};
use std::rc::Rc;

impl Scheme {
    /// The array that a ciphertext holds: the slots of the balanced residue of `c0 + c1*s` modulo the product of its moduli.
    /// The one cause to fail is want of memory.
    ///
    /// Where the ciphertext stands for an array under the secret, and its bound is below the limit of its level, that is the
    /// array.
    pub fn decrypt(
        &self,
        alloc: Global,
        secret: &Secret,
        c: &Cipher,
    ) -> Result<SlotArray, AllocError>
        requires long { IsSecretUnder self.now.tables.value secret.now }
        requires tables { c.now.c0.tables ≡ self.now.tables.value }
        ensures value { IfOk result (λ x. x ≡ decrypted (setting_of self.now) secret.now.coeffs.items (cipher_of c.now)) }
        ensures array { IfOk result (IsArray self.now.slots.value.field self.now.slots.value.cube) }
        ensures stands { (x : Array) → IsSecret self.now.tables.value secret.now.coeffs.items → Stands (setting_of self.now) secret.now.coeffs.items (cipher_of c.now) x
            → value_of c.now.bound < limit_at (setting_of self.now) c.now.level → IfOk result (λ y. y ≡ x) }
    {
        let slots: &Slots = &self.slots;
        let _cube = slots.cube();
        let rows = opened(alloc, &self.tables, secret, c)?;
        let plain = plain_row(alloc, &self.tables, &rows)?;
        slots.decode(alloc, &plain)
    }
}

/// The residues of `c0 + c1*s`.
fn opened(
    alloc: Global,
    tables: &Rc<RingTables>,
    secret: &Secret,
    c: &Cipher,
) -> Result<Vec<Vec<u64>>, AllocError>
    requires long { IsSecretUnder tables.now.value secret.now }
    requires tables { c.now.c0.tables ≡ tables.now.value }
    ensures value { IfOk result (λ rows. map (λ row. row.items) rows.items
        ≡ opened_parts tables.now.value c.now.level c.now.c0.rows c.now.c1.rows secret.now.coeffs.items) }
    ensures rows { IfOk result (λ rows. AreRows tables.now.value.moduli.m (moduli_at tables.now.value c.now.level) (map (λ row. row.items) rows.items)) }
    ensures count { IfOk result (λ rows. length rows.items ≡ c.now.level + 1) }
    ensures fits { IfOk result (λ _. c.now.level + 1 ≤ length tables.now.value.moduli.chain) }
    ensures c0 { IfOk result (λ _. IsKept c.now.c0) }
    ensures c1 { IfOk result (λ _. IsKept c.now.c1) }
{
    let rows = c.c0.chain_rows();
    let s = Dcrt::from_small(alloc, tables, rows, false, &secret.coeffs)?;
    let mut opened = c.c1.copy(alloc)?;
    opened.mul_in(&s);
    opened.add_in(&c.c0);
    opened.to_residues(alloc)
}
