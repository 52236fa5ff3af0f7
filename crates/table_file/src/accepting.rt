//! The checks of a document that has the shape of a table.
ghost use Rattle.std.specs.Prelude.{◌≡◌, ◌≤◌, ◌<◌, ◌-◌, not, All, IfOk, Ok, length, map};
ghost use Rattle.std.specs.Option.{ForSome};
ghost use Rattle.algebra.specs.Divisor.{number_of_units};
ghost use Rattle.cyclo_poly.specs.Tall.{is_tall};
ghost use Rattle.ext_field.specs.Element.{degree, IsElement};
ghost use Rattle.ext_field.specs.Checks.{frobenius_holds};
ghost use Rattle.hyper_cube.specs.Checks.{first_fault as cube_fault};
ghost use Rattle.moduli_table.specs.Checks.{first_fault as moduli_fault};
ghost use Rattle.scheme_laws.specs.Scheme.{sizes_of};
ghost use Rattle.slot_factor.specs.Checks.{first_fault as slots_fault};
ghost use Rattle.table_keys.specs.Shapes.{IsDocument, IsModuli};
ghost use Rattle.table_file.specs.Accepted.{accepted, chain_of, chained, cube_of, field_of, packing_of, passing, ring_for, row_of, weighed};
ghost use Rattle.table_file.specs.Faults.{of_cube, of_moduli, of_slots, passed, unless, Gives};
ghost use Rattle.table_file.specs.Shown.{ring_of, setting_of};
ghost use Rattle.table_file.specs.declared.faults.TableFault.TheVariants.{NotFrobenius, Tall};

use crate::faults::TableFault;
use crate::tables::Table;
use cipher_core::Scheme;
use cyclo_poly::{Cyclo, CycloFault};
use double_crt::RingTables;
use ext_field::{Ext, ExtElem, ExtFault};
use hyper_cube::{Cube, units};
use moduli_table::{ModRow, Moduli};
use noise_bound::BoundTable;
use slot_factor::Slots;
use std::alloc::{AllocError, Global};
use std::rc::Rc;
use table_keys::{ModuliDocument, RowDocument, TableDocument};

/// The table of a document, or its first fault.
#[tactic(auto, unfolding(crate::specs::Accepted::accepted))]
pub(crate) fn accept(alloc: Global, document: &TableDocument) -> Result<Table, TableFault>
    requires { IsDocument document.now }
    ensures { Gives setting_of result (accepted document.now) }
{
    let (slots, cyclo) = packed(alloc, document)?;
    let slots = Rc::new(alloc, slots)?;
    let scheme = scheme(alloc, document, &cyclo, &slots)?;
    Ok(Table {
        scheme,
        slots,
        cyclo,
    })
}

/// The slots and the cyclotomic polynomial, after all checks before those of the moduli.
#[tactic(auto, unfolding(crate::specs::Accepted::passing))]
fn packed(alloc: Global, document: &TableDocument) -> Result<(Slots, Cyclo), TableFault>
    requires { IsDocument document.now }
    ensures gives { Gives (λ _. tt) result (passing document.now) }
    ensures slots { IfOk result (λ r. r.0 ≡ packing_of document.now) }
    ensures cyclo { IfOk result (λ r. r.1 ≡ document.now.m) }
    ensures light { IfOk result (λ _. weighed document.now.m document.now.moduli ≡ Ok tt) }
{
    weigh(alloc, document)?;
    let cube = cube(alloc, document)?;
    let cyclo = cyclo(alloc, document)?;
    let ext = extension(alloc, document)?;
    let slots = slots(alloc, document, &cyclo, cube, ext)?;
    Ok((slots, cyclo))
}

/// Whether the weight is at most the number of units.
#[tactic(auto, unfolding(crate::specs::Accepted::weighed))]
fn weigh(alloc: Global, document: &TableDocument) -> Result<(), TableFault>
    requires { IsDocument document.now }
    ensures gives { Gives (λ _. tt) result (weighed document.now.m document.now.moduli) }
{
    if let Some(moduli) = &document.moduli {
        let units = units(alloc, document.m)?;
        if moduli.weight as usize > units.len() {
            return Err(TableFault::Weight);
        }
    }
    Ok(())
}

/// The cube.
fn cube(alloc: Global, document: &TableDocument) -> Result<Cube, TableFault>
    requires { IsDocument document.now }
    ensures gives { Gives (λ _. tt) result (unless of_cube (cube_fault (cube_of document.now))) }
    ensures value { IfOk result (λ cube. cube ≡ cube_of document.now) }
{
    let degree = document.factor.len() as u32 - 1;
    let cube = Cube::new(
        alloc,
        document.m,
        document.p,
        degree,
        document.generators.as_slice(),
    )?;
    Ok(cube)
}

/// The cyclotomic polynomial.
fn cyclo(alloc: Global, document: &TableDocument) -> Result<Cyclo, TableFault>
    requires { IsDocument document.now }
    ensures gives { Gives (λ _. tt) result (passed (not (is_tall document.now.m)) Tall) }
    ensures value { IfOk result (λ cyclo. cyclo ≡ document.now.m) }
{
    match Cyclo::new(alloc, document.m) {
        Ok(cyclo) => Ok(cyclo),
        Err(CycloFault::Tall) => Err(TableFault::Tall),
        Err(CycloFault::Memory) => Err(TableFault::Memory),
    }
}

/// The extension.
fn extension(alloc: Global, document: &TableDocument) -> Result<Ext, TableFault>
    requires { IsDocument document.now }
    ensures gives { Gives (λ _. tt) result (passed (frobenius_holds (field_of document.now)) NotFrobenius) }
    ensures value { IfOk result (λ ext. ext ≡ field_of document.now) }
{
    match Ext::new(alloc, u64::from(document.p), document.factor.as_slice()) {
        Ok(ext) => Ok(ext),
        Err(ExtFault::NotFrobenius) => Err(TableFault::NotFrobenius),
        Err(ExtFault::Memory) => Err(TableFault::Memory),
    }
}

/// The slots.
fn slots(
    alloc: Global,
    document: &TableDocument,
    cyclo: &Cyclo,
    cube: Cube,
    ext: Ext,
) -> Result<Slots, TableFault>
    requires document { IsDocument document.now }
    requires cyclo { cyclo.now ≡ document.now.m }
    requires cube { cube ≡ cube_of document.now }
    requires ext { ext ≡ field_of document.now }
    ensures gives { Gives (λ _. tt) result (unless of_slots (slots_fault (packing_of document.now))) }
    ensures value { IfOk result (λ slots. slots ≡ packing_of document.now) }
{
    let dual = elements(alloc, &ext, document.dual.as_slice())?;
    let slots = Slots::new(alloc, cyclo, cube, ext, dual)?;
    Ok(slots)
}

/// The elements of these lists of coefficients.
fn elements(alloc: Global, ext: &Ext, rows: &[Vec<u64>]) -> Result<Vec<ExtElem>, AllocError>
    requires long { All (λ row. length row.items ≡ degree ext.now) rows.now }
    requires below { All (λ row. All (λ c. c < ext.now.p) row.items) rows.now }
    ensures value { IfOk result (λ list. list.items ≡ map (λ row. row.items) rows.now) }
    ensures held { IfOk result (λ list. All (λ a. IsElement ext.now a) list.items) }
{
    let mut list = Vec::new(alloc);
    for row in rows {
        let element = ext.element(alloc, row.as_slice())?;
        list.push(element)?;
    }
    Ok(list)
}

/// What the document sets for ciphertexts, where it has moduli.
#[tactic(auto, unfolding(crate::specs::Accepted::chained))]
fn scheme(
    alloc: Global,
    document: &TableDocument,
    cyclo: &Cyclo,
    slots: &Rc<Slots>,
) -> Result<Option<Scheme>, TableFault>
    requires document { IsDocument document.now }
    requires cyclo { cyclo.now ≡ document.now.m }
    requires slots { slots.now.value ≡ packing_of document.now }
    requires light { weighed document.now.m document.now.moduli ≡ Ok tt }
    ensures gives { Gives ring_of result (chained document.now.m document.now.p document.now.moduli) }
    ensures slots { IfOk result (λ scheme. ForSome scheme (λ s. s.slots.value ≡ slots.now.value)) }
    ensures m { IfOk result (λ scheme. ForSome scheme (λ s. s.tables.value.moduli.m ≡ cyclo.now)) }
{
    match &document.moduli {
        None => Ok(None),
        Some(moduli) => {
            let scheme = scheme_of(alloc, document.m, document.p, cyclo, slots, moduli)?;
            Ok(Some(scheme))
        }
    }
}

/// The scheme of these moduli, which are to pass their checks.
fn scheme_of(
    alloc: Global,
    m: u32,
    p: u32,
    cyclo: &Cyclo,
    slots: &Rc<Slots>,
    document: &ModuliDocument,
) -> Result<Scheme, TableFault>
    requires m_low { 3 ≤ m }
    requires m_high { m ≤ 65536 }
    requires p_low { 2 ≤ p }
    requires p_high { p ≤ 131071 }
    requires cyclo { cyclo.now ≡ m }
    requires slots_m { slots.now.value.cube.m ≡ m }
    requires slots_p { slots.now.value.cube.p ≡ p }
    requires document { IsModuli document.now }
    requires light { document.now.weight ≤ number_of_units m }
    ensures gives { Gives (λ _. tt) result (unless of_moduli (moduli_fault (chain_of m p document.now))) }
    ensures value { IfOk result (λ scheme. scheme.tables.value ≡ ring_for m p document.now) }
    ensures slots { IfOk result (λ scheme. scheme.slots.value ≡ slots.now.value) }
{
    let chain = rows(alloc, document.chain.as_slice())?;
    let special = rows(alloc, document.special.as_slice())?;
    let tables = ring_tables(
        alloc,
        p,
        cyclo,
        document,
        chain.as_slice(),
        special.as_slice(),
    )?;
    let bounds = bounds(alloc, &tables, chain.as_slice(), special.as_slice())?;
    Ok(Scheme {
        tables: Rc::new(alloc, tables)?,
        slots: slots.clone()?,
        bounds: Rc::new(alloc, bounds)?,
    })
}

/// The ring modulo these moduli, which are to pass their checks.
fn ring_tables(
    alloc: Global,
    p: u32,
    cyclo: &Cyclo,
    document: &ModuliDocument,
    chain: &[ModRow],
    special: &[ModRow],
) -> Result<RingTables, TableFault>
    requires m_low { 3 ≤ cyclo.now }
    requires m_high { cyclo.now ≤ 65536 }
    requires p_low { 2 ≤ p }
    requires p_high { p ≤ 131071 }
    requires document { IsModuli document.now }
    requires chain { chain.now ≡ map row_of document.now.chain }
    requires special { special.now ≡ map row_of document.now.special }
    requires light { document.now.weight ≤ number_of_units cyclo.now }
    ensures gives { Gives (λ _. tt) result (unless of_moduli (moduli_fault (chain_of cyclo.now p document.now))) }
    ensures value { IfOk result (λ tables. tables ≡ ring_for cyclo.now p document.now) }
{
    let moduli = Moduli::new(
        alloc,
        cyclo.m(),
        p,
        chain,
        special,
        document.inverse.as_slice(),
    )?;
    let cyclo = cyclo.copy(alloc)?;
    let tables = RingTables::new(
        alloc,
        cyclo,
        p,
        document.weight,
        document.digits.as_slice(),
        moduli,
    )?;
    Ok(tables)
}

/// The bounds of a ring with these rows.
fn bounds(
    alloc: Global,
    tables: &RingTables,
    chain: &[ModRow],
    special: &[ModRow],
) -> Result<BoundTable, AllocError>
    requires chain { chain.now ≡ tables.now.moduli.chain }
    requires special { special.now ≡ tables.now.moduli.special }
    ensures { IfOk result (λ bounds. bounds ≡ sizes_of tables.now) }
{
    let chain = moduli_of(alloc, chain)?;
    let special = moduli_of(alloc, special)?;
    BoundTable::new(
        alloc,
        tables.n(),
        tables.p(),
        tables.weight(),
        tables.cyclo().height(),
        chain.as_slice(),
        special.as_slice(),
        tables.digits(),
    )
}

/// The rows of a table as rows of moduli.
fn rows(alloc: Global, documents: &[RowDocument]) -> Result<Vec<ModRow>, AllocError>
    ensures { IfOk result (λ rows. rows.items ≡ map row_of documents.now) }
{
    let mut rows = Vec::new(alloc);
    for row in documents {
        rows.push(ModRow {
            q: row.q,
            zeta: row.zeta,
            psi: row.psi,
            plain_inverse: row.plain_inverse,
        })?;
    }
    Ok(rows)
}

/// The moduli of rows.
fn moduli_of(alloc: Global, rows: &[ModRow]) -> Result<Vec<u64>, AllocError>
    ensures { IfOk result (λ moduli. moduli.items ≡ map (λ row. row.q) rows.now) }
{
    let mut moduli = Vec::new(alloc);
    for row in rows {
        moduli.push(row.q)?;
    }
    Ok(moduli)
}
