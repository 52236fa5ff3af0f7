//! The shapes of the keys of tables and templates: what a document has to look like before any
//! arithmetic is done on it.
//!
//! - [`read_document`] reads a table, [`read_template`] a template. Each is the definition in
//!   `specs/` of what a text is read as, want of memory aside.
//! - [`law_documents`] and [`law_templates`] say what ranges and lengths hold of whatever is read.
//! - [`write_document`] writes a table, as a text that is read as the same table.
#![tactic(auto)]

mod documents;
mod faults;
mod keys;
mod laws;
mod moduli;
mod tables;
mod templates;
mod values;
mod writer;

pub use documents::{ModuliDocument, RowDocument, TableDocument, TemplateDocument};
pub use faults::{DocumentFault, TemplateFault};
pub use laws::{law_documents, law_templates};
pub use tables::read_document;
pub use templates::read_template;
pub use writer::write_document;
