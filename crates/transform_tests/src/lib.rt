//! Values at the powers of roots of unity: the transform beside Horner's rule, and a worked value.
#![tactic(auto)]

#[cfg(test)]
mod pairs;
#[cfg(test)]
mod plain;
#[cfg(test)]
mod roots;
