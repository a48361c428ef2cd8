//! What a push will answer, settled before anything is fetched.
#![tactic(auto)]

mod settle;

pub use settle::{
    Push, Receipt, Terms, chunk_boundary, settle_bitmap, settle_indices, settle_push, settle_runs,
};
