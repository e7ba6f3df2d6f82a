//! The replies of `decide`, `batch`, `bench`, `outline` and `optimise`.
//!
//! They are the commands that need the prover; `outline` finds or checks notes that prove a triple of a program.
#![tactic(auto)]

mod batch;
mod bench;
mod decide;
mod log_text;
mod optimise;
mod outline;
mod outline_check;
mod report;
mod triple;

pub use batch::{BatchCommand, batch_bytes};
pub use bench::bench_reply;
pub use decide::{DecideCommand, count, decide_bytes, decide_reply};
pub use optimise::{OptimiseCommand, optimise_bytes};
pub use outline::{OutlineCommand, outline_bytes};
pub use outline_check::{OutlineCheckCommand, outline_check_bytes};
pub use report::{DecideJsonCommand, decide_json_bytes};
