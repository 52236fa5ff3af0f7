//! What all polynomials of one table share.
ghost use Rattle.std.specs.Prelude.{◌≡◌, ◌<◌, ◌≤◌, All, IfOk, length, sum, get_or};
ghost use Rattle.algebra.specs.Divisor.{units as units_of};
ghost use Rattle.cyclotomic.specs.Cyclotomic.{degree};
ghost use Rattle.cyclotomic.specs.Norm.{height as height_of};
ghost use Rattle.mixed_radix.specs.Basis.{IsBasis};
ghost use Rattle.moduli_table.specs.Chain.{no_row};
ghost use Rattle.residue_rows.specs.Kept.{IsSetting, rows_kept};
ghost use Rattle.double_crt.specs.Bases.{chain_basis, special_basis};
ghost use Rattle.double_crt.specs.Places.{ArePlaces};
ghost use Rattle.double_crt.specs.Roots.{roots_of_row};

use crate::line::Line;
use crate::makes::{lines_of, places_of, radix_of};
use cyclo_poly::Cyclo;
use hyper_cube::units;
use mixed_radix::Radix;
use moduli_table::Moduli;
use std::alloc::{AllocError, Global};
use std::marker::Model;

/// The ring R modulo the moduli of a table: the moduli with their roots, the weight of a secret, and the sizes of the groups
/// of digits. Contracts see these three.
#[derive(Drop)]
pub struct RingTables {
    cyclo: Cyclo,
    moduli: Moduli,
    p: u32,
    weight: u32,
    groups: Vec<u32>,
    unit_list: Vec<u32>,
    // for each unit modulo m its place in the list of the units
    places: Vec<u32>,
    lines: Vec<Line>,
    chain_radix: Radix,
    special_radix: Radix,
}

impl Model for RingTables {
    ghost use Rattle.residue_rows.specs.Kept.{RingSetting};

    ghost Value = { RingSetting };

    ghost use Rattle.double_crt.specs.Tables.{setting_of, HasTables};

    ghost view = { setting_of };

    ghost invariant = { HasTables };
}

impl RingTables {
    /// The tables of the moduli given, for secrets of this weight and groups of as many moduli of the chain as the digits say.
    /// The one cause to fail is want of memory.
    pub fn new(
        alloc: Global,
        cyclo: Cyclo,
        p: u32,
        weight: u32,
        digits: &[u32],
        moduli: Moduli,
    ) -> Result<RingTables, AllocError>
        requires same_m { cyclo ≡ moduli.m }
        requires same_p { p ≡ moduli.p }
        requires weight_some { 1 ≤ weight }
        requires weight_most { weight ≤ degree cyclo }
        requires digits_some { All (λ d. 0 < d) digits.now }
        requires digits_sum { sum digits.now ≡ length moduli.chain }
        ensures { IfOk result (λ t. t ≡ record { moduli = moduli; weight = weight; digits = digits.now }) }
    {
        let m = moduli.m();
        let chain_len = moduli.chain_len();
        let special_len = moduli.special_len();
        let unit_list = units(alloc, m)?;
        let places = places_of(alloc, m, &unit_list)?;
        let lines = lines_of(alloc, &moduli)?;
        let chain_radix = radix_of(alloc, &moduli, 0, chain_len)?;
        let special_radix = radix_of(alloc, &moduli, chain_len, special_len)?;
        let groups = Vec::from_slice(alloc, digits)?;
        Ok(RingTables {
            cyclo,
            moduli,
            p,
            weight,
            groups,
            unit_list,
            places,
            lines,
            chain_radix,
            special_radix,
        })
    }

    /// The number m.
    pub fn m(&self) -> u32
        ensures value { result ≡ self.now.moduli.m }
        ensures setting { IsSetting self.now }
    {
        self.moduli.m()
    }

    /// The degree n of Phi_m.
    pub fn n(&self) -> u32
        ensures value { result ≡ degree self.now.moduli.m }
        ensures setting { IsSetting self.now }
    {
        self.cyclo.degree()
    }

    /// The modulus p.
    pub fn p(&self) -> u32
        ensures value { result ≡ self.now.moduli.p }
        ensures setting { IsSetting self.now }
    {
        self.p
    }

    /// How many coefficients of a secret are not 0.
    pub fn weight(&self) -> u32
        ensures value { result ≡ self.now.weight }
        ensures setting { IsSetting self.now }
    {
        self.weight
    }

    /// The height of m: the greatest absolute value among the coefficients of the remainders by Phi_m of X^t for t < m.
    pub fn height(&self) -> u32
        ensures value { result ≡ height_of self.now.moduli.m }
        ensures setting { IsSetting self.now }
    {
        self.cyclo.height()
    }

    /// How many moduli the chain has.
    pub fn chain_len(&self) -> u32
        ensures value { result ≡ length self.now.moduli.chain }
        ensures setting { IsSetting self.now }
    {
        self.moduli.chain_len()
    }

    /// How many special moduli there are.
    pub fn special_len(&self) -> u32
        ensures value { result ≡ length self.now.moduli.special }
        ensures setting { IsSetting self.now }
    {
        self.moduli.special_len()
    }

    /// The n units modulo m, in ascending order.
    pub fn units(&self) -> &[u32]
        ensures value { result.now ≡ units_of self.now.moduli.m }
        ensures setting { IsSetting self.now }
    {
        &self.unit_list
    }

    /// How many moduli of the chain each group of digits has.
    pub fn digits(&self) -> &[u32]
        ensures value { result.now ≡ self.now.digits }
        ensures setting { IsSetting self.now }
    {
        &self.groups
    }

    /// The moduli with their roots and inverses.
    pub fn moduli(&self) -> &Moduli
        ensures value { result.now ≡ self.now.moduli }
        ensures setting { IsSetting self.now }
    {
        &self.moduli
    }

    /// Phi_m.
    pub fn cyclo(&self) -> &Cyclo
        ensures value { result.now ≡ self.now.moduli.m }
        ensures setting { IsSetting self.now }
    {
        &self.cyclo
    }

    /// The radix of the moduli of the chain.
    pub fn chain_radix(&self) -> &Radix
        ensures value { result.now ≡ chain_basis self.now }
        ensures basis { IsBasis result.now }
        ensures setting { IsSetting self.now }
    {
        &self.chain_radix
    }

    /// The radix of the special moduli.
    pub fn special_radix(&self) -> &Radix
        ensures value { result.now ≡ special_basis self.now }
        ensures basis { IsBasis result.now }
        ensures setting { IsSetting self.now }
    {
        &self.special_radix
    }

    /// For each unit modulo m its place in the list of the units.
    pub(crate) fn places(&self) -> &[u32]
        ensures { ArePlaces self.now.moduli.m result.now }
    {
        &self.places
    }

    /// How many moduli are kept: the first ones of the chain, with the special ones or without them.
    pub(crate) fn row_count(&self, chain_rows: u32, special: bool) -> u32
        requires { chain_rows ≤ length self.now.moduli.chain }
        ensures value { result ≡ length (rows_kept self.now chain_rows special) }
        ensures setting { IsSetting self.now }
    {
        if special {
            chain_rows + self.moduli.special_len()
        } else {
            chain_rows
        }
    }

    /// The line of one of the moduli that are kept.
    pub(crate) fn line(&self, chain_rows: u32, special: bool, i: u32) -> &Line
        requires fits { chain_rows ≤ length self.now.moduli.chain }
        requires i_in { i < length (rows_kept self.now chain_rows special) }
        ensures { result.now ≡ roots_of_row self.now.moduli.m (get_or (rows_kept self.now chain_rows special) i no_row) }
    {
        let place = if i < chain_rows {
            i
        } else {
            i - chain_rows + self.moduli.chain_len()
        };
        &self.lines[place as usize]
    }
}
