//! Why a text is no table, or no template.
use line_text::TableKey;
use std::alloc::{AllocError, AllocFailed};

/// Why a text is not read as a table.
#[derive(Clone, Copy, PartialEq, Eq, Debug)]
pub enum DocumentFault {
    /// The text is no document of TOML.
    Text,
    /// The first key that is missing or not of its form, `Other` for a further key.
    Shape(TableKey),
    /// There was not memory enough.
    Memory,
}

impl From<AllocError> for DocumentFault {
    ghost use Rattle.std.specs.Prelude.{◌≡◌};
    ghost use Rattle.table_keys.specs.declared.faults.DocumentFault.TheVariants.{Memory};

    ghost from_gives = { λ _ fault. fault ≡ Memory };

    fn from(_error: AllocError) -> DocumentFault {
        DocumentFault::Memory
    }
}

impl<T: Drop> From<AllocFailed<T>> for DocumentFault {
    ghost use Rattle.std.specs.Prelude.{◌≡◌};
    ghost use Rattle.table_keys.specs.declared.faults.DocumentFault.TheVariants.{Memory};

    ghost from_gives = { λ _ fault. fault ≡ Memory };

    fn from(_error: AllocFailed<T>) -> DocumentFault {
        DocumentFault::Memory
    }
}

/// Why a text is not read as a template.
#[derive(Clone, Copy, PartialEq, Eq, Debug)]
pub enum TemplateFault {
    /// `Text` where the text is no document of TOML, else the first key that is missing or not of
    /// its form, `Other` for a further key.
    BadTemplate(TableKey),
    /// There was not memory enough.
    Memory,
}

impl From<DocumentFault> for TemplateFault {
    ghost use Rattle.std.specs.Prelude.{◌≡◌};
    ghost use Rattle.table_keys.specs.Templates.{bad_template};

    ghost from_gives = { λ fault bad. bad ≡ bad_template fault };

    fn from(fault: DocumentFault) -> TemplateFault {
        match fault {
            DocumentFault::Text => TemplateFault::BadTemplate(TableKey::Text),
            DocumentFault::Shape(key) => TemplateFault::BadTemplate(key),
            DocumentFault::Memory => TemplateFault::Memory,
        }
    }
}
