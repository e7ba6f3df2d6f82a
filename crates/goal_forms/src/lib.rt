//! The sides of a goal, elimination of hypotheses, and kinds of hypotheses.
//!
//! Kinds of hypotheses: the short ones of a problem, which concern single atoms and single moves, and the long ones;
//! and the simple ones, each a test or one action between tests. For both kinds, the strings of at most one move that
//! they accept.
#![tactic(auto)]

mod elimination;
mod goals;
mod hyps;
mod laws;
mod queried;
mod simple;
mod single;

pub use elimination::{Closed, eliminate};
pub use goals::{Sides, below, failing_run, triple};
pub use hyps::{has_short, is_short, long_problem};
pub use laws::goals_mean;
pub use queried::tests_only_from;
pub use simple::not_simple;
pub use single::{accepts_atom, accepts_move};
