//! Tables of cases for the checks of moduli and the search for roots, with values that a plain program of the definitions
//! gave.
#![tactic(auto)]

#[cfg(test)]
mod checks;
#[cfg(test)]
mod searches;
