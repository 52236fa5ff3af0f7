//! Tests of the shapes of tables and templates: whole documents, and documents with one line or more
//! damaged, each with its fault, worked out by hand.
#![tactic(auto)]

#[cfg(test)]
mod tables;
#[cfg(test)]
mod templates;
#[cfg(test)]
mod texts;
