//! The parts of a fresh ciphertext.
ghost use Rattle.std.specs.Prelude.{◌≡◌, IfOk, length};
ghost use Rattle.cyclotomic.specs.Cyclotomic.{degree};
ghost use Rattle.residue_rows.specs.Kept.{IsKept, with_rows};
ghost use Rattle.scheme_laws.specs.Scheme.{ring_at, rows_at, top};
ghost use Rattle.key_switch.specs.Shown.{IsPublicUnder, IsWholeChain};
ghost use Rattle.cipher_core.specs.Masked.{masked};

use double_crt::{Dcrt, RingTables};
use key_gen::noise;
use key_switch::Public;
use std::alloc::{AllocError, Global};
use std::rc::Rc;

/// `part*r + p*e`.
fn masked(
    alloc: Global,
    tables: &Rc<RingTables>,
    part: &Dcrt,
    r: &Dcrt,
    e: &[i64],
) -> Result<Dcrt, AllocError>
    requires part { IsWholeChain tables.now.value part.now }
    requires r { IsWholeChain tables.now.value r.now }
    requires e { length e.now ≡ degree tables.now.value.moduli.m }
    ensures value { IfOk result (λ a. a ≡ with_rows part.now (masked tables.now.value part.now.rows r.now.rows e.now)) }
    ensures kept { IfOk result IsKept }
{
    let noise = noise(alloc, tables, e)?;
    let mut product = part.copy(alloc)?;
    product.mul_in(r);
    product.add_in(&noise);
    Ok(product)
}

/// `b*r + p*e0 + plain` and `a*r + p*e1`.
pub(crate) fn parts(
    alloc: Global,
    tables: &Rc<RingTables>,
    public: &Public,
    r: &[i64],
    e0: &[i64],
    e1: &[i64],
    plain: &[i64],
) -> Result<(Dcrt, Dcrt), AllocError>
    requires key { IsPublicUnder tables.now.value public.now }
    requires r { length r.now ≡ degree tables.now.value.moduli.m }
    requires e0 { length e0.now ≡ degree tables.now.value.moduli.m }
    requires e1 { length e1.now ≡ degree tables.now.value.moduli.m }
    requires plain { length plain.now ≡ degree tables.now.value.moduli.m }
    ensures c0 { let t = tables.now.value in let o = ring_at t (top t) in
        IfOk result (λ c. c.0.rows ≡ o.add (masked t public.now.b.rows (rows_at t (top t) r.now) e0.now) (rows_at t (top t) plain.now)) }
    ensures c1 { let t = tables.now.value in IfOk result (λ c. c.1.rows ≡ masked t public.now.a.rows (rows_at t (top t) r.now) e1.now) }
    ensures c0_whole { IfOk result (λ c. IsWholeChain tables.now.value c.0) }
    ensures c1_whole { IfOk result (λ c. IsWholeChain tables.now.value c.1) }
{
    let rows = tables.chain_len();
    let r = Dcrt::from_small(alloc, tables, rows, false, r)?;
    let plain = Dcrt::from_small(alloc, tables, rows, false, plain)?;
    let mut c0 = masked(alloc, tables, &public.b, &r, e0)?;
    c0.add_in(&plain);
    let c1 = masked(alloc, tables, &public.a, &r, e1)?;
    Ok((c0, c1))
}
