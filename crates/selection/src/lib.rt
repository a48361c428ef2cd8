//! What is selected, and why a call is refused.
#![tactic(auto)]

mod items;
mod loads;
mod ranges;
mod refusals;
mod selections;
mod windows;

pub use items::{Item, check_index, check_len, check_run};
pub use loads::{bits_at, field_at};
pub use ranges::contiguous_filter_range;
pub use refusals::Refusal;
pub use selections::{Run, Selection};
pub use windows::Window;
