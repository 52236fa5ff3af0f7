//! Cases of sessions over a shelf and a sink in memory: what they print, report, save and end with. The wanted values are worked out
//! by hand or come from a plain program of the definitions.
#![tactic(auto)]

#[cfg(test)]
mod ciphers;
#[cfg(test)]
mod commands;
#[cfg(test)]
mod cubes;
#[cfg(test)]
mod damaged;
#[cfg(test)]
mod examples;
#[cfg(test)]
mod extension;
#[cfg(test)]
mod faults;
#[cfg(test)]
mod grids;
#[cfg(test)]
mod limits;
#[cfg(test)]
mod round_trips;
#[cfg(test)]
mod runs;
#[cfg(test)]
mod spelling;
