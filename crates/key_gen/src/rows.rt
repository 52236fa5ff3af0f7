//! Coefficients and residues from draws.
ghost use Rattle.std.specs.Prelude.{◌≡◌, ◌+◌, ◌*◌, ◌^◌, ◌<◌, ◌≤◌, IfOk, OnOk, map, take, length, ◌++◌};
ghost use Rattle.cyclotomic.specs.Cyclotomic.{degree};
ghost use Rattle.draw_stream.specs.Draw.{HasRoom, after, errors_at, smalls_at, uniforms_at};
ghost use Rattle.moduli_table.specs.Chain.{count};
ghost use Rattle.scheme_laws.specs.Keys.{uniform_rows};
ghost use Rattle.key_gen.specs.Drawn.{first_moduli};

use double_crt::RingTables;
use draw_stream::Draws;
use std::alloc::{AllocError, Global};

/// `n` coefficients from -10 to 10, each by a draw `error`. The one cause to fail is want of memory.
pub fn errors(alloc: Global, n: u32, draws: &mut Draws) -> Result<Vec<i64>, AllocError>
    requires { HasRoom draws.old n }
    ensures value { IfOk result (λ e. e.items ≡ errors_at draws.old draws.old.place n) }
    ensures moved { OnOk result (draws.new ≡ after draws.old n) }
{
    let mut list = Vec::new(alloc);
    for _ in 0..n {
        list.push(draws.error())?;
    }
    Ok(list)
}

/// `n` coefficients from -1 to 1, each by a draw `small`. The one cause to fail is want of memory.
pub fn smalls(alloc: Global, n: u32, draws: &mut Draws) -> Result<Vec<i64>, AllocError>
    requires { HasRoom draws.old n }
    ensures value { IfOk result (λ r. r.items ≡ smalls_at draws.old draws.old.place n) }
    ensures moved { OnOk result (draws.new ≡ after draws.old n) }
{
    let mut list = Vec::new(alloc);
    for _ in 0..n {
        list.push(draws.small())?;
    }
    Ok(list)
}

/// `n` residues modulo q, each by a draw `uniform`.
fn uniforms(alloc: Global, q: u64, n: u32, draws: &mut Draws) -> Result<Vec<u64>, AllocError>
    requires modulus { (0 < q) × (q < 2 ^ 62) }
    requires room { HasRoom draws.old (4 * n) }
    ensures value { IfOk result (λ row. row.items ≡ uniforms_at draws.old draws.old.place q n) }
    ensures moved { OnOk result (draws.new ≡ after draws.old (4 * n)) }
{
    let mut list = Vec::new(alloc);
    for _ in 0..n {
        list.push(draws.uniform(q))?;
    }
    Ok(list)
}

/// The residues of a uniform polynomial modulo the first moduli of a table, as many as `rows`, those of the chain first: n
/// draws `uniform` for each modulus in order.
pub(crate) fn uniform_rows(
    alloc: Global,
    tables: &RingTables,
    rows: u32,
    draws: &mut Draws,
) -> Result<Vec<Vec<u64>>, AllocError>
    requires rows { rows ≤ count tables.now.moduli }
    requires room { HasRoom draws.old (4 * degree tables.now.moduli.m * rows) }
    ensures value { IfOk result (λ list. map (λ row. row.items) list.items
        ≡ uniform_rows draws.old draws.old.place (degree tables.now.moduli.m) (first_moduli tables.now.moduli rows)) }
    ensures moved { OnOk result (draws.new ≡ after draws.old (4 * degree tables.now.moduli.m * rows)) }
{
    let n = tables.n();
    let moduli = tables.moduli();
    let mut list = Vec::new(alloc);
    for i in 0..rows {
        let row = uniforms(alloc, moduli.row(i).q, n, draws)?;
        list.push(row)?;
    }
    Ok(list)
}
