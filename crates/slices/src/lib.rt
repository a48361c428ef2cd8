//! Filters what lies in memory: slices, and bits.
#![tactic(auto)]

mod accumulator;
mod admit;
mod bits;
#[cfg(test)]
mod bits_tests;
mod copies;
mod in_place;
mod pext;
#[cfg(test)]
mod tests;

pub use bits::filter_bitbuffer_by_mask;
pub use copies::filter_slice;
pub use in_place::filter_slice_in_place;
pub use pext::pext_fallback;
