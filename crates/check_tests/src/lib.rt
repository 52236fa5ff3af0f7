//! Whole tables and templates with what is said of them: the report of the first check that fails, or the summary. The values
//! are those of the plain program of the definitions.
#![tactic(auto)]

#[cfg(test)]
mod checks;
#[cfg(test)]
mod orders;
#[cfg(test)]
mod summaries;
#[cfg(test)]
mod told;
