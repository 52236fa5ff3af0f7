//! Tests of keys, encryption and decryption over small tables, with values that a plain program of the definitions gave by
//! products of whole polynomials.
#![tactic(auto)]

#[cfg(test)]
mod assertions;
#[cfg(test)]
mod draws;
#[cfg(test)]
mod further_tables;
#[cfg(test)]
mod plain_ring;
#[cfg(test)]
mod refusals;
#[cfg(test)]
mod round_trips;
#[cfg(test)]
mod schemes;
#[cfg(test)]
mod seven;
#[cfg(test)]
mod thirty_two;
#[cfg(test)]
mod twenty_four;
