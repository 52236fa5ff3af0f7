//! Extensions E of the residues modulo p by a root eta of a monic polynomial G: the ring, the map that takes eta to its
//! power eta^p, traces and dual bases.
#![tactic(auto)]

mod elements;
mod extension_ring;
mod extensions;
mod laws;
mod remainder_ring;
mod remainders;
mod sums;
mod traces;

pub use elements::ExtElem;
pub use extensions::{Ext, ExtFault};
pub use laws::{law_checks, law_elements, law_frob, law_frobenius_map};
