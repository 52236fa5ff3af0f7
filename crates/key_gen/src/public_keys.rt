//! Public keys.
ghost use Rattle.std.specs.Prelude.{◌≡◌, IfOk, OnOk, length};
ghost use Rattle.cyclotomic.specs.Cyclotomic.{degree};
ghost use Rattle.draw_stream.specs.Draw.{HasRoom, after};
ghost use Rattle.residue_rows.specs.Kept.{IsKept, with_rows};
ghost use Rattle.scheme_laws.specs.Keys.{IsPublicOf, public_drawn, public_part, public_words};
ghost use Rattle.key_switch.specs.Shown.{IsPublicUnder, IsSecretUnder, IsWholeChain, key_of};

use crate::polynomials::noise;
use crate::rows::{errors, uniform_rows};
use double_crt::{Dcrt, RingTables};
use draw_stream::Draws;
use key_switch::{Public, Secret};
use std::alloc::{AllocError, Global};
use std::rc::Rc;

/// A public key of a secret: for each modulus of the chain n draws `uniform` make the residue of a, then n draws `error` make
/// e, and b is `-a*s + p*e`. The one cause to fail is want of memory.
pub fn public(
    alloc: Global,
    tables: &Rc<RingTables>,
    secret: &Secret,
    draws: &mut Draws,
) -> Result<Public, AllocError>
    requires long { IsSecretUnder tables.now.value secret.now }
    requires room { HasRoom draws.old (public_words tables.now.value) }
    ensures value { IfOk result (λ k. key_of k ≡ public_drawn tables.now.value secret.now.coeffs.items draws.old) }
    ensures parts { IfOk result (IsPublicUnder tables.now.value) }
    ensures of_secret { IfOk result (λ k. IsPublicOf tables.now.value secret.now.coeffs.items (key_of k)) }
    ensures moved { OnOk result (draws.new ≡ after draws.old (public_words tables.now.value)) }
{
    let ring: &RingTables = tables;
    let rows = ring.chain_len();
    let a = uniform_rows(alloc, ring, rows, draws)?;
    let e = errors(alloc, ring.n(), draws)?;
    let a = Dcrt::from_residues(alloc, tables, rows, false, &a)?;
    let b = hidden(alloc, tables, &a, secret, &e)?;
    Ok(Public { b, a })
}

/// `-a*s + p*e`.
fn hidden(
    alloc: Global,
    tables: &Rc<RingTables>,
    a: &Dcrt,
    secret: &Secret,
    e: &[i64],
) -> Result<Dcrt, AllocError>
    requires a { IsWholeChain tables.now.value a.now }
    requires long { IsSecretUnder tables.now.value secret.now }
    requires e { length e.now ≡ degree tables.now.value.moduli.m }
    ensures value { IfOk result (λ b. b ≡ with_rows a.now (public_part tables.now.value secret.now.coeffs.items a.now.rows e.now)) }
    ensures kept { IfOk result IsKept }
{
    let noise = noise(alloc, tables, e)?;
    let s = Dcrt::from_small(alloc, tables, tables.chain_len(), false, &secret.coeffs)?;
    let mut b = a.copy(alloc)?;
    b.mul_in(&s);
    b.neg_in();
    b.add_in(&noise);
    Ok(b)
}
