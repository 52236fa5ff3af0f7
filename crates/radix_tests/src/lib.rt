//! Tables of cases for balanced digits, with values that a plain program of the definitions gave.
#![tactic(auto)]

#[cfg(test)]
mod pairs;
