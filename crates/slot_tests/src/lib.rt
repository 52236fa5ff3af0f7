//! Tests of slots: arrays and their texts, encoding and decoding, the operations on plaintexts, the checks of the factor and of the
//! dual basis, and programs. The expected values come from a plain program of the definitions, with whole numbers and schoolbook
//! products.
#![tactic(auto)]

#[cfg(test)]
mod arrays;
#[cfg(test)]
mod checks;
#[cfg(test)]
mod fixtures;
#[cfg(test)]
mod packings;
#[cfg(test)]
mod programs;
#[cfg(test)]
mod rows;
#[cfg(test)]
mod runs;
#[cfg(test)]
mod tables;
#[cfg(test)]
mod texts;
