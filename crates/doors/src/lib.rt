//! A door log, for the programs: a reading for each second of the door signal of a lift.
//!
//! A cable was pulled for a while, so the signal drops out, and comes back when the cable is in
//! place again.
#![tactic(auto)]

mod door;
mod log;
mod summary;
#[cfg(test)]
mod tests;

pub use door::{Door, UnknownCode};
pub use log::{AROUND, SECONDS, STRETCHES, door_at, door_log, reading};
pub use summary::Summary;
