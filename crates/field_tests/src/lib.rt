//! Tests of extensions: values in small ones, and the generic functions at one. The expected values come from a plain
//! program of the definitions, outside this repository.
#![tactic(auto)]

#[cfg(test)]
mod dual_bases;
#[cfg(test)]
mod elements;
#[cfg(test)]
mod extensions;
