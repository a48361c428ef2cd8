//! Picks readings from a source, chunk by chunk, at a price settled before anything is fetched.
#![tactic(auto)]

mod filters;
mod pieces;
mod serve;

pub use filters::ChunkedFilter;
pub use settle::{Push, Receipt};
