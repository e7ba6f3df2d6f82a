//! While programs: their texts, their runs on stores, and their terms.
//!
//! Programs are read, printed, run and encoded; and the parts of a problem file: names, programs, hypotheses and a goal.
#![tactic(auto)]

mod block_build;
mod block_laws;
mod block_measure;
mod block_read;
mod block_reading;
mod block_scan;
mod blocks;
mod equality;
mod file;
mod flow;
mod laws;
mod named;
mod numbered;
mod outcome;
mod print;
mod prog;
mod runs;
mod size;
mod store;

pub use block_build::build_block;
pub use block_laws::{
    block_measures_are_of_trees, blocks_are_folded, blocks_are_scanned, sound_blocks_are_measured,
};
pub use block_measure::measure_block;
pub use block_read::read_block;
pub use block_scan::block_end;
pub use blocks::enter;
pub use file::{File, Goal, Side, prog_meant};
pub use flow::{Flow, Flows, branch_term, encode, loop_term};
pub use laws::{flows_are_guarded, loops_unfold, printed_programs_read_back, runs_have_one_end};
pub use named::NamedProg;
pub use outcome::Outcome;
pub use print::{print_prog, put_block};
pub use prog::{Prog, Stmt, copy_stmt, push_stmt};
pub use runs::run;
pub use store::{Store, holds};
