//! The graphs of a flow file with names resolved and sorts checked.
//!
//! The result of reading is the graphs of a text with its declarations, or its first fault.
#![tactic(auto)]

mod check;
mod check_blocks;
mod declared_names;
mod faults;
mod known;
mod laws;
mod limits;
mod match_names;
mod matches;
mod meaning;
mod names;
mod reading;
mod resolve;
mod resolve_cond;
mod resolve_expr;
mod results;
mod scope;
mod visible_names;

pub use laws::have_one_answer;
pub use limits::{
    MAX_BLOCKS, MAX_FUNCTIONS, MAX_MATCHES, MAX_PARAMETERS, MAX_SORTS, MAX_VARIABLES,
};
pub use match_names::{MatchName, MatchPart};
pub use matches::FileMatch;
pub use meaning::Meaning;
pub use reading::{FlowFile, read};
