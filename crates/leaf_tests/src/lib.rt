//! Tables of cases for the crates that stand on no other crate of the repository.
#![tactic(auto)]

#[cfg(test)]
mod chains;
#[cfg(test)]
mod draws;
