//! Tests of the binary files: files that a plain program of the definitions wrote, read and written again, and the same files
//! with one thing or another damaged, each with the place of its fault.
#![tactic(auto)]

#[cfg(test)]
mod ciphers;
#[cfg(test)]
mod damage;
#[cfg(test)]
mod files;
#[cfg(test)]
mod headers;
#[cfg(test)]
mod publics;
#[cfg(test)]
mod secrets;
