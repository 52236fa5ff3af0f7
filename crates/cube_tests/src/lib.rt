//! Tests of cubes: which there are, the first fault of others, indices, elements and the places of units. The expected
//! values come from a plain program of the definitions, outside this repository.
#![tactic(auto)]

#[cfg(test)]
mod cubes;
#[cfg(test)]
mod faults;
#[cfg(test)]
mod places;
