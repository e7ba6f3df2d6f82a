//! The replies of `run`, `oneloop`, `gkat` and `show`.
//!
//! No dependency of this crate is a prover.
#![tactic(auto)]

mod counter;
mod form_fault;
mod gkat;
mod oneloop;
mod running;
mod show;

pub use gkat::{GkatCommand, gkat_bytes};
pub use oneloop::{OneLoopCommand, one_loop_bytes};
pub use running::{RunCommand, run_bytes};
pub use show::{ShowCommand, show_bytes};
