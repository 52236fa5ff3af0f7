//! Why the slots of a table are refused.
ghost use Rattle.std.specs.Prelude.{◌≡◌};
ghost use Rattle.slot_factor.specs.declared.faults.SlotFault.TheVariants.{Memory};

use std::alloc::AllocError;
use thiserror::Error;

/// Why there are no slots: the first check that fails, at its least place.
#[derive(Debug, Drop, Error)]
pub enum SlotFault {
    /// `Phi_m(eta)` is not 0.
    #[error("not divisor")]
    NotDivisor,
    /// This slot of the idempotent is wrong.
    #[error("idempotent {0}")]
    Idempotent(u32),
    /// The idempotent times G is not 0.
    #[error("not annihilated")]
    NotAnnihilated,
    /// The idempotents of the slots do not sum to 1.
    #[error("not complete")]
    NotComplete,
    /// The trace of this dual element times this power is wrong.
    #[error("dual {0} {1}")]
    Dual(u32, u32),
    /// There is no memory left.
    #[error("memory")]
    Memory,
}

impl From<AllocError> for SlotFault {
    ghost from_gives = { λ _ e. e ≡ Memory };

    fn from(_e: AllocError) -> SlotFault {
        SlotFault::Memory
    }
}
