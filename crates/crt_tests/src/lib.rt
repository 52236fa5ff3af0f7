//! Tables of cases for polynomials kept by their residues, with values that a plain program of the definitions gave: whole
//! coefficients, schoolbook products, and remainders by Phi_m.
#![tactic(auto)]

#[cfg(test)]
mod operations;
#[cfg(test)]
mod rings;
#[cfg(test)]
mod value_rows;
#[cfg(test)]
mod values;
#[cfg(test)]
mod worked;
