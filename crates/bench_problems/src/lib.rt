//! Generated problems: random programs against themselves with their loops unrolled.
//!
//! Unrolling a loop does not change the meaning of a program, so the sides of every second problem are equal; the other
//! problems have an additional action on the right.
#![tactic(auto)]

mod blocks;
mod draws;
mod generator;
mod laws;
mod problem;
mod unrolling;

pub use laws::bench_problems_are_guarded;
pub use problem::bench_problem;
