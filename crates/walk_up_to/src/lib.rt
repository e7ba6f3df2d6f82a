//! The walk over pairs of sets up to congruence.
//!
//! The walk visits, breadth first, pairs of sets of terms, from the pair of the closed sides. For each atom and action it
//! lists the pair of sets to which the step leads, unless the pairs listed so far already join both sets (Hopcroft and
//! Karp 1971; up to congruence, Bonchi and Pous 2013). The listed pairs are a bisimulation up to congruence without
//! redundant pairs. If two sets accept different atoms, the steps that led to them spell a string that refutes the
//! problem, and no string with fewer moves does. The listed pairs have an index; whether their closure joins the targets of
//! a step is decided by rounds of marks, as far as the tests that a case decides determine the targets.
#![tactic(auto)]

mod branching;
mod cases;
mod cover;
mod deciding;
mod index;
mod laws;
mod listed;
mod mark_set;
mod pair;
mod saturation;
mod splitting;
mod stop;
mod string;
mod worklist;

pub use deciding::{decide_up_to, is_same_up_to};
pub use laws::{
    concise_are_few, congruent_are_covered, covered_are_congruent, finished_are_accepted,
    finished_are_concise, found_are_shortest, listed_have_trails, members_are_in_range, more_pairs,
    no_redundant_are_few, walk_goes_on, walks_are_few,
};
pub use stop::EarlyStop;
