//! The problem of two flow graphs, and the laws about it.
//!
//! Its sides are terms over comparisons of forms and parallel assignments, and its hypotheses hold of all states under
//! all interpretations.
#![tactic(auto)]

mod laws;

pub use laws::{flow_agrees, marked_problems_agree, problems_are_about_graphs, same_sides_agree};
