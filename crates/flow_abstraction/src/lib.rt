//! The problem of two flow graphs with its hypotheses, or a reason.
//!
//! The hypotheses are what assignments say of tests, and facts between tests. In a round, what parallel assignments
//! make of tests gives further tests. Facts between tests of intervals compare arcs of the numbers modulo 2 to a width.
#![tactic(auto)]

mod after;
mod assigned_forms;
mod assignment;
mod completion;
mod edges;
mod facts;
mod fault;
mod hypotheses;
mod hypothesis;
mod hypothesis_fault;
mod interval;
mod parts;
mod placed;
mod problem_hypotheses;
mod question;
mod rounds;
mod sameness;
mod split;
mod terms;
mod variables;

pub use fault::FlowFault;
pub use hypothesis::{FlowHypothesis, FlowRule};
pub use question::{FlowAbstract, problem_of};
