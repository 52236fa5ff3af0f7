//! What holds of whatever is read.
ghost use Rattle.table_keys.specs.Shapes.{DocumentsAreShaped, TemplatesAreShaped};

/// The law that each document that a text is read as has the ranges and lengths of `IsDocument`.
pub fn law_documents()
    ensures { DocumentsAreShaped }
{}

/// The law that each template that a text is read as has the ranges and lengths of `IsTemplate`.
pub fn law_templates()
    ensures { TemplatesAreShaped }
{}
