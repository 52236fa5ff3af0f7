//! What a step of a program does.
ghost use Rattle.std.specs.Prelude.{◌≡◌, IfOk};
ghost use Rattle.slot_program.specs.Kinds.{is_basic, is_const, is_input, is_output, key_of, operands, with_operands, HasOperands};

use slot_array::SlotArray;
use std::alloc::{AllocError, Global};

/// What a step does. The fields `a`, `b` and `c` are operands: a value goes by the number of the step that gives it, from 0.
#[derive(Drop)]
pub enum Kind {
    /// The next input.
    Input,
    /// A constant.
    Const { elems: SlotArray },
    /// The sum of two values, slot by slot.
    Add { a: u32, b: u32 },
    /// The difference of two values, slot by slot.
    Sub { a: u32, b: u32 },
    /// The product of two values, slot by slot.
    Mul { a: u32, b: u32 },
    /// The negative of a value, slot by slot.
    Neg { a: u32 },
    /// The sum of a value and a constant, slot by slot.
    AddC { a: u32, c: u32 },
    /// The product of a value and a constant, slot by slot.
    MulC { a: u32, c: u32 },
    /// The automorphism by the unit k.
    Auto { k: u32, a: u32 },
    /// The rotation by `amount` along a dimension.
    Rotate { dim: u32, amount: u32, a: u32 },
    /// The result, a value.
    Output { a: u32 },
}

impl Kind {
    /// The operands in order, a constant among them: as many as the instruction has.
    pub fn operands(&self) -> (Option<u32>, Option<u32>)
        ensures { result ≡ operands self.now }
    {
        match self {
            Kind::Input => (None, None),
            Kind::Const { .. } => (None, None),
            Kind::Add { a, b } => (Some(*a), Some(*b)),
            Kind::Sub { a, b } => (Some(*a), Some(*b)),
            Kind::Mul { a, b } => (Some(*a), Some(*b)),
            Kind::Neg { a } => (Some(*a), None),
            Kind::AddC { a, c } => (Some(*a), Some(*c)),
            Kind::MulC { a, c } => (Some(*a), Some(*c)),
            Kind::Auto { a, .. } => (Some(*a), None),
            Kind::Rotate { a, .. } => (Some(*a), None),
            Kind::Output { a } => (Some(*a), None),
        }
    }

    /// The same instruction with these operands, as many as it has.
    #[tactic(auto, unfolding(crate::specs::Kinds::with_operands))]
    pub fn with_operands(
        &self,
        alloc: Global,
        first: Option<u32>,
        second: Option<u32>,
    ) -> Result<Kind, AllocError>
        requires { HasOperands self.now first second }
        ensures kind { IfOk result (λ kind. kind ≡ with_operands self.now first second) }
        ensures operands { IfOk result (λ kind. operands kind ≡ (first, second)) }
    {
        let a = first.unwrap_or(0);
        let b = second.unwrap_or(0);
        let kind = match self {
            Kind::Input => Kind::Input,
            Kind::Const { elems } => Kind::Const {
                elems: elems.copy(alloc)?,
            },
            Kind::Add { .. } => Kind::Add { a, b },
            Kind::Sub { .. } => Kind::Sub { a, b },
            Kind::Mul { .. } => Kind::Mul { a, b },
            Kind::Neg { .. } => Kind::Neg { a },
            Kind::AddC { .. } => Kind::AddC { a, c: b },
            Kind::MulC { .. } => Kind::MulC { a, c: b },
            Kind::Auto { k, .. } => Kind::Auto { k: *k, a },
            Kind::Rotate { dim, amount, .. } => Kind::Rotate {
                dim: *dim,
                amount: *amount,
                a,
            },
            Kind::Output { .. } => Kind::Output { a },
        };
        Ok(kind)
    }

    /// The K of an automorphism, other than 1.
    pub(crate) fn key(&self) -> Option<u32>
        ensures { result ≡ key_of self.now }
    {
        match self {
            Kind::Auto { k, .. } if *k != 1 => Some(*k),
            _ => None,
        }
    }

    /// Whether this is an input.
    pub(crate) fn is_input(&self) -> bool
        ensures { result ≡ is_input self.now }
    {
        matches!(self, Kind::Input)
    }

    /// Whether this is a constant.
    pub(crate) fn is_const(&self) -> bool
        ensures { result ≡ is_const self.now }
    {
        matches!(self, Kind::Const { .. })
    }

    /// Whether this is the output.
    pub(crate) fn is_output(&self) -> bool
        ensures { result ≡ is_output self.now }
    {
        matches!(self, Kind::Output { .. })
    }

    /// Whether this is an instruction that no lowering rewrites.
    pub(crate) fn is_basic(&self) -> bool
        ensures { result ≡ is_basic self.now }
    {
        !matches!(self, Kind::Rotate { .. })
    }
}

/// A step of a program, with the line of the text on which it stands, from 1.
#[derive(Drop)]
pub struct Step {
    pub line: u32,
    pub kind: Kind,
}
