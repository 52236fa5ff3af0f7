//! Why moduli are refused.
ghost use Rattle.std.specs.Prelude.{◌≡◌};
ghost use Rattle.moduli_table.specs.declared.faults.ModFault.TheVariants.{Memory};

use std::alloc::AllocError;
use thiserror::Error;

/// The first check of the moduli of a table that fails, with the number of the modulus, or want of memory.
#[derive(Debug, Drop, Error)]
pub enum ModFault {
    /// The modulus is even, below 3 or at least 2^62, or a root of it is not below it.
    #[error("size {0}")]
    Size(u32),
    /// The modulus is not 1 modulo m.
    #[error("residue {0}")]
    Residue(u32),
    /// `zeta^(2m)` is not 1.
    #[error("half root {0}")]
    HalfRoot(u32),
    /// For a divisor k of m below m, `zeta^(2k) - 1` and the modulus have a common divisor above 1.
    #[error("root {0}")]
    Root(u32),
    /// `psi^(N/2)` is not -1, for the least power N of two that is at least 2m - 1.
    #[error("two root {0}")]
    TwoRoot(u32),
    /// The entry for the first modulus is not its inverse modulo the second.
    #[error("inverse {0} {1}")]
    Inverse(u32, u32),
    /// The entry for the modulus is not its inverse modulo p.
    #[error("plain inverse {0}")]
    PlainInverse(u32),
    /// There is no memory left.
    #[error("memory")]
    Memory,
}

impl From<AllocError> for ModFault {
    ghost from_gives = { λ _ e. e ≡ Memory };

    fn from(_e: AllocError) -> ModFault {
        ModFault::Memory
    }
}
