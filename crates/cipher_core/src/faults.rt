//! Why an operation on ciphertexts is refused.
ghost use Rattle.std.specs.Prelude.{◌≡◌};

use noise_bound::Bound;
use std::alloc::AllocError;
use thiserror::Error;

/// Why there is no ciphertext.
#[derive(Debug, Drop, Error)]
pub enum CipherFault {
    /// The bound of the ciphertext is not below the limit of its level.
    #[error("too noisy")]
    TooNoisy {
        /// The bound that the ciphertext would have.
        bound: Bound,
        /// The limit of its level.
        limit: Bound,
    },
    /// There is no memory left.
    #[error("memory")]
    Memory,
}

impl From<AllocError> for CipherFault {
    ghost use Rattle.cipher_core.specs.declared.faults.CipherFault.TheVariants.{Memory};

    ghost from_gives = { λ _ fault. fault ≡ Memory };

    fn from(_error: AllocError) -> CipherFault {
        CipherFault::Memory
    }
}
