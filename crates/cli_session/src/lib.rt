//! The one call that does what the program does, over any shelf and any sink.
#![tactic(auto)]

mod ciphers;
mod clearing;
mod found;
mod keys;
mod opening;
mod reading;
mod sessions;
mod tables;

pub use sessions::session;
