//! Polynomials that hide others.
ghost use Rattle.std.specs.Prelude.{◌≡◌, false, IfOk, length, pos};
ghost use Rattle.cyclotomic.specs.Cyclotomic.{degree};
ghost use Rattle.residue_rows.specs.Rows.{multiple_each, rows_of};
ghost use Rattle.residue_rows.specs.Kept.{IsKept, moduli_kept};

use double_crt::{Dcrt, RingTables};
use std::alloc::{AllocError, Global};
use std::rc::Rc;

/// `p*e` modulo all moduli of the chain, for n coefficients e. The one cause to fail is want of memory.
pub fn noise(alloc: Global, tables: &Rc<RingTables>, e: &[i64]) -> Result<Dcrt, AllocError>
    requires { length e.now ≡ degree tables.now.value.moduli.m }
    ensures value { let t = tables.now.value in let rows = length t.moduli.chain in let qs = moduli_kept t rows false in
        IfOk result (λ a. a ≡ record { tables = t; chain_rows = rows; special = false; rows = multiple_each qs (pos t.moduli.p) (rows_of qs e.now) }) }
    ensures kept { IfOk result IsKept }
{
    let mut noise = Dcrt::from_small(alloc, tables, tables.chain_len(), false, e)?;
    noise.scale_in(i64::from(tables.p()));
    Ok(noise)
}
