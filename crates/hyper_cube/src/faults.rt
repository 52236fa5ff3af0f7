//! Why a torus is refused.
ghost use Rattle.std.specs.Prelude.{◌≡◌};
ghost use Rattle.hyper_cube.specs.declared.faults.CubeFault.TheVariants.{Memory};

use std::alloc::AllocError;
use thiserror::Error;

/// Why there is no cube: the first check that fails, at its least place.
#[derive(Debug, Drop, Error)]
pub enum CubeFault {
    /// `p^d` is not 1 modulo m.
    #[error("not order")]
    NotOrder,
    /// The power `g^D` of this generator is no power of p modulo m.
    #[error("not power {0}")]
    NotPower(u32),
    /// The indices and powers are not as many as the units modulo m.
    #[error("wrong count")]
    WrongCount,
    /// The product at the second place stands at the first, too.
    #[error("not distinct {0} {1}")]
    NotDistinct(u32, u32),
    /// There is no memory left.
    #[error("memory")]
    Memory,
}

impl From<AllocError> for CubeFault {
    ghost from_gives = { λ _ e. e ≡ Memory };

    fn from(_e: AllocError) -> CubeFault {
        CubeFault::Memory
    }
}
