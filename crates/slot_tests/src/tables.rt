//! Tables of degrees 1 to 5, with good and bad dimensions, and a modulus that is a prime, a power of one, or a product of two.
use crate::fixtures::tried;
use crate::rows::{fields_of, named, numbers_of, pair_of, pairs_of};
use slot_factor::Slots;
use std::process::Abort;
use std::test::Fail;

/// The tables: a name, m and p, the coefficients of G, those of the dual basis one element behind the other, and the generators
/// with their sizes.
static TABLES: &str = "\
a:7 2:1 1 0 1:1 0 0 0 0 1 0 1 0:6 2
a3:7 2:1 1 0 1:1 0 0 0 0 1 0 1 0:3 2
c:32 17:14 0 1:9 0 0 3:31 2,5 4
d:24 5:2 1 1:4 2 2 4:7 2,13 2
four:7 4:3 1 2 1:3 2 2 2 2 1 2 1 2:6 2
product:4 65:57 1:1:3 2
large:9 131071:21906 0 0 1:87381 0 0 0 0 50992 0 50992 0:2 2
five:31 2:1 0 0 1 0 1:1 0 0 0 0 0 0 1 0 1 0 1 0 1 0 0 0 1 0 0 0 1 0 0 0:3 6";

/// The tables.
fn tables() -> &'static str {
    TABLES
}

/// The slots of the table of this name.
pub fn slots_named<R: Abort + AllocGlobal>(rt: &R, name: &str) -> Result<Slots, Fail> {
    let fields = fields_of(rt.alloc(), named(tables(), name)?)?;
    let [moduli, factor, dual, generators] = fields.as_slice() else {
        return Err(Fail::from("no table"));
    };
    let (m, p) = pair_of(moduli)?;
    let factor = numbers_of(rt.alloc(), factor)?;
    let dual = numbers_of(rt.alloc(), dual)?;
    let generators = pairs_of(rt.alloc(), generators)?;
    let slots = tried(rt, m, p, &factor, &dual, &generators)?;
    Ok(slots?)
}
