//! Why a text is no table that is accepted.
ghost use Rattle.std.specs.Prelude.{◌≡◌};

use hyper_cube::CubeFault;
use line_text::TableKey;
use moduli_table::ModFault;
use slot_factor::SlotFault;
use std::alloc::{AllocError, AllocFailed};
use table_keys::DocumentFault;

/// Why a text is no table: the first check that fails, at its least place.
#[derive(Clone, Copy, PartialEq, Eq, Debug)]
pub enum TableFault {
    /// The text is no document of TOML.
    Text,
    /// The first key that is missing or not of its form, `Other` for a further key.
    Shape(TableKey),
    /// The weight is above the degree.
    Weight,
    /// `p^d` is not 1 modulo m.
    NotOrder,
    /// The power `g^D` of this generator is no power of p modulo m.
    NotPower(u32),
    /// The indices and powers are not as many as the units modulo m.
    WrongCount,
    /// The product at the second place stands at the first, too.
    NotDistinct(u32, u32),
    /// A coefficient on the way to Phi_m is too large.
    Tall,
    /// `G(eta^p)` is not 0.
    NotFrobenius,
    /// `Phi_m(eta)` is not 0.
    NotDivisor,
    /// This slot of the idempotent is wrong.
    Idempotent(u32),
    /// The idempotent times G is not 0.
    NotAnnihilated,
    /// The idempotents of the slots do not sum to 1.
    NotComplete,
    /// The trace of this dual element times this power is wrong.
    Dual(u32, u32),
    /// The modulus, or one of its roots, is out of range.
    Size(u32),
    /// The modulus is not 1 modulo m.
    Residue(u32),
    /// `zeta^(2m)` is not 1.
    HalfRoot(u32),
    /// The root omega is of a smaller order modulo a factor of the modulus.
    Root(u32),
    /// The root psi is not of the order of the transform.
    TwoRoot(u32),
    /// The inverse of the first modulus modulo the second is wrong.
    Inverse(u32, u32),
    /// The inverse of the modulus modulo p is wrong.
    PlainInverse(u32),
    /// There was not memory enough.
    Memory,
}

impl From<AllocError> for TableFault {
    ghost use Rattle.table_file.specs.declared.faults.TableFault.TheVariants.{Memory};

    ghost from_gives = { λ _ fault. fault ≡ Memory };

    fn from(_error: AllocError) -> TableFault {
        TableFault::Memory
    }
}

impl<T: Drop> From<AllocFailed<T>> for TableFault {
    ghost use Rattle.table_file.specs.declared.faults.TableFault.TheVariants.{Memory};

    ghost from_gives = { λ _ fault. fault ≡ Memory };

    fn from(_error: AllocFailed<T>) -> TableFault {
        TableFault::Memory
    }
}

impl From<DocumentFault> for TableFault {
    ghost use Rattle.table_file.specs.Faults.{of_document};

    ghost from_gives = { λ given fault. fault ≡ of_document given };

    fn from(fault: DocumentFault) -> TableFault {
        match fault {
            DocumentFault::Text => TableFault::Text,
            DocumentFault::Shape(key) => TableFault::Shape(key),
            DocumentFault::Memory => TableFault::Memory,
        }
    }
}

impl From<CubeFault> for TableFault {
    ghost use Rattle.table_file.specs.Faults.{of_cube};

    ghost from_gives = { λ given fault. fault ≡ of_cube given };

    fn from(fault: CubeFault) -> TableFault {
        match fault {
            CubeFault::NotOrder => TableFault::NotOrder,
            CubeFault::NotPower(i) => TableFault::NotPower(i),
            CubeFault::WrongCount => TableFault::WrongCount,
            CubeFault::NotDistinct(a, b) => TableFault::NotDistinct(a, b),
            CubeFault::Memory => TableFault::Memory,
        }
    }
}

impl From<SlotFault> for TableFault {
    ghost use Rattle.table_file.specs.Faults.{of_slots};

    ghost from_gives = { λ given fault. fault ≡ of_slots given };

    fn from(fault: SlotFault) -> TableFault {
        match fault {
            SlotFault::NotDivisor => TableFault::NotDivisor,
            SlotFault::Idempotent(slot) => TableFault::Idempotent(slot),
            SlotFault::NotAnnihilated => TableFault::NotAnnihilated,
            SlotFault::NotComplete => TableFault::NotComplete,
            SlotFault::Dual(i, k) => TableFault::Dual(i, k),
            SlotFault::Memory => TableFault::Memory,
        }
    }
}

impl From<ModFault> for TableFault {
    ghost use Rattle.table_file.specs.Faults.{of_moduli};

    ghost from_gives = { λ given fault. fault ≡ of_moduli given };

    fn from(fault: ModFault) -> TableFault {
        match fault {
            ModFault::Size(i) => TableFault::Size(i),
            ModFault::Residue(i) => TableFault::Residue(i),
            ModFault::HalfRoot(i) => TableFault::HalfRoot(i),
            ModFault::Root(i) => TableFault::Root(i),
            ModFault::TwoRoot(i) => TableFault::TwoRoot(i),
            ModFault::Inverse(i, j) => TableFault::Inverse(i, j),
            ModFault::PlainInverse(i) => TableFault::PlainInverse(i),
            ModFault::Memory => TableFault::Memory,
        }
    }
}
