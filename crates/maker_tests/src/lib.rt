//! Tables of cases for the filling of templates, with values that a plain program of the definitions gave.
#![tactic(auto)]

#[cfg(test)]
mod fillings;
#[cfg(test)]
mod refusals;
#[cfg(test)]
mod texts;
