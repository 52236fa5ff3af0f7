//! Tests of the rings: words at small and large moduli, and the generic functions at the residues and at nested rings. The
//! expected values come from whole numbers of any size, outside this repository.
#![tactic(auto)]

#[cfg(test)]
mod cyclo;
#[cfg(test)]
mod nested;
#[cfg(test)]
mod residues;
