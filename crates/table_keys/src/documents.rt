//! What is read from a table and from a template.
use std::marker::Model;

/// What a table says, as numbers and lists. Contracts see it as the record `Document`.
#[derive(Debug, Drop)]
pub struct TableDocument {
    /// The cyclotomic index, 3 to 65536.
    pub m: u32,
    /// The plaintext modulus, 2 to 131071.
    pub p: u32,
    /// The coefficients of the factor of degree d, 1 to 64, from its constant term: d + 1 numbers
    /// below p, the last 1.
    pub factor: Vec<u64>,
    /// The dual basis: d lists of d numbers below p.
    pub dual: Vec<Vec<u64>>,
    /// At most 16 generators with their sizes, as (g, D): 1 <= g < m and 1 <= D <= m.
    pub generators: Vec<(u32, u32)>,
    /// The moduli, which a plain table has not.
    pub moduli: Option<ModuliDocument>,
}

impl Model for TableDocument {
    ghost use Rattle.std.specs.Prelude.{map};
    ghost use Rattle.table_keys.specs.Documents.{Document};

    ghost Value = { Document };

    ghost view = { λ table. record {
      m = table.m;
      p = table.p;
      factor = table.factor.items;
      dual = map (λ row. row.items) table.dual.items;
      generators = table.generators.items;
      moduli = table.moduli;
    } };
}

/// What a table says of its moduli. Contracts see it as the record `Moduli`.
#[derive(Debug, Drop)]
pub struct ModuliDocument {
    /// How many coefficients of a secret are not 0, 1 to 65536.
    pub weight: u32,
    /// The sizes of the groups of the chain, each 1 or more: their sum is the chain's length.
    pub digits: Vec<u32>,
    /// The moduli of the chain, 1 to 32.
    pub chain: Vec<RowDocument>,
    /// The special moduli, 1 to 16.
    pub special: Vec<RowDocument>,
    /// The inverses of the moduli modulo one another, one list per modulus, chain then special:
    /// list j has j numbers.
    pub inverse: Vec<Vec<u64>>,
}

impl Model for ModuliDocument {
    ghost use Rattle.std.specs.Prelude.{map};
    ghost use Rattle.table_keys.specs.Documents.{Moduli};

    ghost Value = { Moduli };

    ghost view = { λ moduli. record {
      weight = moduli.weight;
      digits = moduli.digits.items;
      chain = moduli.chain.items;
      special = moduli.special.items;
      inverse = map (λ row. row.items) moduli.inverse.items;
    } };
}

/// What a table says of one modulus.
#[derive(Clone, Copy, PartialEq, Eq, Debug)]
pub struct RowDocument {
    /// The modulus.
    pub q: u64,
    /// The root of unity of order m modulo q.
    pub zeta: u64,
    /// The root of unity for the transforms modulo q.
    pub psi: u64,
    /// The inverse of q modulo p.
    pub plain_inverse: u64,
}

/// What a template says. Contracts see it as the record `Template`.
#[derive(Debug, Drop)]
pub struct TemplateDocument {
    /// The cyclotomic index, 3 to 65536.
    pub m: u32,
    /// The plaintext modulus, 2 to 131071.
    pub p: u32,
    /// The coefficients of the factor, as in a table.
    pub factor: Vec<u64>,
    /// The dual basis, as in a table.
    pub dual: Vec<Vec<u64>>,
    /// The generators with their sizes, as in a table.
    pub generators: Vec<(u32, u32)>,
    /// How many coefficients of a secret are not 0, 1 to 65536.
    pub weight: u32,
    /// The sizes of the groups of the chain, as in a table.
    pub digits: Vec<u32>,
    /// The moduli of the chain, 1 to 32: odd numbers from 3 to 2^62 - 1.
    pub chain: Vec<u64>,
    /// The special moduli, 1 to 16, of the same form.
    pub special: Vec<u64>,
}

impl Model for TemplateDocument {
    ghost use Rattle.std.specs.Prelude.{map};
    ghost use Rattle.table_keys.specs.Templates.{Template};

    ghost Value = { Template };

    ghost view = { λ template. record {
      m = template.m;
      p = template.p;
      factor = template.factor.items;
      dual = map (λ row. row.items) template.dual.items;
      generators = template.generators.items;
      weight = template.weight;
      digits = template.digits.items;
      chain = template.chain.items;
      special = template.special.items;
    } };
}
