//! Tries a goal on stores, those that follow a string first.
//!
//! The crate has the stores, those from which a string can be followed, and what runs from a store show.
#![tactic(auto)]

mod draws;
mod followed;
mod laws;
mod numbers;
mod stores;
mod trials;

pub use followed::following;
pub use laws::shown_is_false;
pub use numbers::tried_numbers;
pub use stores::{DRAWN_STORES, MAX_LISTED, all_stores};
pub use trials::{RunEnd, Trial, try_stores};
