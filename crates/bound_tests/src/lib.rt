//! Tables of cases for the bounds on noise, with values that a plain program of the definitions gave.
#![tactic(auto)]

#[cfg(test)]
mod calls;
#[cfg(test)]
mod tables;
