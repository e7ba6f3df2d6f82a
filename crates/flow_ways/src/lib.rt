//! The ways of a flow graph between places, by symbolic execution.
//!
//! A way is a run with forms in place of values, from a place to the next. Ways are found by a depth-first walk over
//! the blocks (King 1976).
#![tactic(auto)]

mod action;
mod cond_form;
mod condition;
mod fault;
mod form_list;
mod found;
mod laws;
mod limits;
mod own;
mod symbolic_run;
mod way;
mod ways_found;

pub use action::action_of;
pub use condition::FlowCond;
pub use fault::WayFault;
pub use form_list::push_form;
pub use laws::{actions_are_runs, runs_go_by_live_variables, ways_are_runs};
pub use limits::MAX_WAYS;
pub use own::{initial_forms, own_form};
pub use way::{SortedForm, Way, WayEnd, copy_conds};
pub use ways_found::ways;
