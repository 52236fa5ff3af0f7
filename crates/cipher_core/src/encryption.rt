//! Encryption.
ghost use Rattle.std.specs.Prelude.{◌≡◌, ◌<◌, List, ℤ, IfOk, IfErr, OnOk};
ghost use Rattle.draw_stream.specs.Draw.{HasRoom, after};
ghost use Rattle.noise_bound.specs.Machine.{fresh};
ghost use Rattle.slot_array.specs.Arrays.{IsArray};
ghost use Rattle.scheme_laws.specs.Scheme.{sizes_of, top};
ghost use Rattle.scheme_laws.specs.Keys.{IsPublicOf, IsSecret};
ghost use Rattle.scheme_laws.specs.Ciphers.{Stands, encryption_drawn, encryption_words, limit_at};
ghost use Rattle.key_switch.specs.Shown.{IsPublicUnder, key_of};
ghost use Rattle.cipher_core.specs.Shown.{ArePartsUnder, IsTooNoisy, LeavesDraws, cipher_of, setting_of};

use crate::ciphers::Cipher;
use crate::faults::CipherFault;
use crate::masks::parts;
use crate::schemes::Scheme;
use double_crt::RingTables;
use draw_stream::Draws;
use key_gen::{errors, smalls};
use key_switch::Public;
use noise_bound::BoundTable;
use slot_array::SlotArray;
use slot_factor::Slots;
use std::alloc::Global;

impl Scheme {
    /// The ciphertext of an array at the top level: n draws `small` make r, then n draws `error` each make e0 and e1, and
    /// its parts are `b*r + p*e0 + encode(x)` and `a*r + p*e1`.
    ///
    /// It is refused with `TooNoisy`, before any draw, where the bound of fresh ciphertexts is not below the limit of the
    /// top level, and for no other cause than want of memory.
    pub fn encrypt(
        &self,
        alloc: Global,
        public: &Public,
        draws: &mut Draws,
        x: &SlotArray,
    ) -> Result<Cipher, CipherFault>
        requires key { IsPublicUnder self.now.tables.value public.now }
        requires array { IsArray self.now.slots.value.field self.now.slots.value.cube x.now }
        requires room { HasRoom draws.old (encryption_words (setting_of self.now)) }
        ensures value { IfOk result (λ c. cipher_of c ≡ encryption_drawn (setting_of self.now) (key_of public.now) draws.old x.now) }
        ensures parts { IfOk result (ArePartsUnder self.now.tables.value) }
        ensures small { IfOk result (λ c. c.bound.exp < 4096) }
        ensures quiet { IfOk result (λ _. fresh (sizes_of self.now.tables.value) < limit_at (setting_of self.now) (top self.now.tables.value)) }
        ensures noisy { IfErr result (IsTooNoisy (fresh (sizes_of self.now.tables.value)) (limit_at (setting_of self.now) (top self.now.tables.value))) }
        ensures before { IfErr result (LeavesDraws draws.old draws.new) }
        ensures moved { OnOk result (draws.new ≡ after draws.old (encryption_words (setting_of self.now))) }

        // Under the secret of the key it stands for the array.
        ensures stands { IfOk result (λ c. (s : List ℤ) → IsSecret self.now.tables.value s → IsPublicOf self.now.tables.value s (key_of public.now)
            → Stands (setting_of self.now) s (cipher_of c) x.now) }
    {
        let tables: &RingTables = &self.tables;
        let slots: &Slots = &self.slots;
        let bounds: &BoundTable = &self.bounds;
        let _cube = slots.cube();
        let level = tables.chain_len() - 1;
        let bound = bounds.fresh();
        let limit = bounds.limit(level);
        if bound.at_least(limit) {
            return Err(CipherFault::TooNoisy { bound, limit });
        }
        let n = tables.n();
        let r = smalls(alloc, n, draws)?;
        let e0 = errors(alloc, n, draws)?;
        let e1 = errors(alloc, n, draws)?;
        let plain = slots.encode(alloc, x)?;
        let (c0, c1) = parts(alloc, &self.tables, public, &r, &e0, &e1, &plain)?;
        Ok(Cipher {
            level,
            bound,
            c0,
            c1,
        })
    }
}
