//! Why a template is not filled.
ghost use Rattle.std.specs.Prelude.{◌≡◌};

use line_text::TableKey;
use std::alloc::{AllocError, AllocFailed};
use table_keys::TemplateFault;

/// Why a text makes no table.
#[derive(Clone, Copy, PartialEq, Eq, Debug)]
pub enum MakeFault {
    /// The text is no template: `Text` where it is no document of TOML, else the first key that is missing or not of its
    /// form, `Other` for a further key.
    BadTemplate(TableKey),
    /// No base from 2 to 1000 gives roots of this modulus, the first such. The moduli are numbered from 0, those of the
    /// chain first.
    NoRoot(u32),
    /// There was not memory enough.
    Memory,
}

impl From<AllocError> for MakeFault {
    ghost use Rattle.table_maker.specs.declared.faults.MakeFault.TheVariants.{Memory};

    ghost from_gives = { λ _ fault. fault ≡ Memory };

    fn from(_error: AllocError) -> MakeFault {
        MakeFault::Memory
    }
}

impl<T: Drop> From<AllocFailed<T>> for MakeFault {
    ghost use Rattle.table_maker.specs.declared.faults.MakeFault.TheVariants.{Memory};

    ghost from_gives = { λ _ fault. fault ≡ Memory };

    fn from(_error: AllocFailed<T>) -> MakeFault {
        MakeFault::Memory
    }
}

impl From<TemplateFault> for MakeFault {
    ghost use Rattle.table_maker.specs.Faults.{of_template};

    ghost from_gives = { λ given fault. fault ≡ of_template given };

    fn from(fault: TemplateFault) -> MakeFault {
        match fault {
            TemplateFault::BadTemplate(key) => MakeFault::BadTemplate(key),
            TemplateFault::Memory => MakeFault::Memory,
        }
    }
}
