//! The replies of `try`: a goal of programs, tried on stores.
//!
//! No dependency of this crate is a prover.
#![tactic(auto)]

mod concrete;
mod texts;
mod try_goal;
mod try_with;

pub use concrete::ConcreteFile;
pub use try_goal::{TryCommand, try_bytes};
pub use try_with::{TryWithCommand, try_with_bytes};
