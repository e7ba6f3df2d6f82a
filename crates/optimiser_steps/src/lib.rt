//! Rewrites a program by steps whose conditions the prover decides.
//!
//! Each step preserves the meaning of the program.
#![tactic(auto)]

mod copies;
mod first_at;
mod laws;
mod loop_steps;
mod optimising;
mod paths;
mod rewriting;
mod search;
mod sequence_steps;
mod statement_steps;
mod validity;

pub use laws::{first_step_is_one, logs_keep_meaning};
pub use optimising::{Ended, LogLine, Optimised, optimise};
