//! Lines and columns of places in a text.
#![tactic(auto)]

mod laws;
mod place;

pub use laws::places_are_determined;
pub use place::{column_at, line_at, line_before, line_from};
