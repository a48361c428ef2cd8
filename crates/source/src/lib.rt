//! Where readings come from.
#![tactic(auto)]

mod decoder;
mod metered;
mod packs;
mod ramps;
mod readings;
mod tables;

pub use decoder::{CHUNK, ChunkDecoder};
pub use packs::Packed;
pub use ramps::Ramp;
pub use tables::Table;
