//! Secret keys.
ghost use Rattle.std.specs.Prelude.{◌≡◌, IfOk, OnOk};
ghost use Rattle.draw_stream.specs.Draw.{HasRoom, after};
ghost use Rattle.draw_stream.specs.Sparse.{sparse_words};
ghost use Rattle.scheme_laws.specs.Keys.{IsSecret, secret_drawn};

use double_crt::RingTables;
use draw_stream::Draws;
use key_switch::Secret;
use std::alloc::{AllocError, Global};
use std::rc::Rc;

/// A secret key of a table: n coefficients, of which as many as the weight says are 1 or -1 and the others 0, by one draw
/// `sparse`. The one cause to fail is want of memory.
pub fn secret(
    alloc: Global,
    tables: &Rc<RingTables>,
    draws: &mut Draws,
) -> Result<Secret, AllocError>
    requires { HasRoom draws.old (sparse_words tables.now.value.weight) }
    ensures value { IfOk result (λ s. s.coeffs.items ≡ secret_drawn tables.now.value draws.old) }
    ensures is_secret { IfOk result (λ s. IsSecret tables.now.value s.coeffs.items) }
    ensures moved { OnOk result (draws.new ≡ after draws.old (sparse_words tables.now.value.weight)) }
{
    let ring: &RingTables = tables;
    let coeffs = draws.sparse(alloc, ring.n(), ring.weight())?;
    Ok(Secret { coeffs })
}
