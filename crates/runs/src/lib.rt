//! Runs of pushes, and what holds of them.
#![tactic(auto)]

mod runs;

pub use runs::{Batch, Ended, run_both, run_pushes};
