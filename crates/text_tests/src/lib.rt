//! Tests of the crates of texts, and of shelves and sinks: tables of cases with answers worked out by
//! hand.
#![tactic(auto)]

#[cfg(test)]
mod line_text_rows;
#[cfg(test)]
mod shelf_core_fakes;
#[cfg(test)]
mod shelf_core_host;
#[cfg(test)]
mod shelf_core_rows;
