//! Laws that need the definitions of several crates.
//!
//! They are about relational models whose states are natural numbers, the size of shortest counterexamples, and strings
//! that runs on stores spell.
#![tactic(auto)]

mod laws;

pub use laws::{
    models_are_tables, shortest_are_small, small_strings_decide, strings_fail_on_stores,
};
