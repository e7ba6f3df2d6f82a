//! The prover: decides whether two sides are the same, with evidence.
//!
//! The prover walks over pairs of sets of terms up to congruence (`walk_up_to`). If some hypothesis is short and that
//! walk needs too many pairs or too many steps, it walks over pairs under tests (`walk_under`).
#![tactic(auto)]

mod deciding;

pub use deciding::{decide, decide_in, is_same};
pub use walk_up_to::{
    concise_are_few, congruent_are_covered, covered_are_congruent, finished_are_accepted,
    finished_are_concise, found_are_shortest, listed_have_trails, members_are_in_range, more_pairs,
    no_redundant_are_few, walk_goes_on, walks_are_few,
};
