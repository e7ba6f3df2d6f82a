//! The trees, problems and definitions of Kleene algebra with tests.
//!
//! It also has tables with unique rows, in the order in which the rows are added.
#![tactic(auto)]

mod appending;
mod balanced;
mod expression;
mod items;
mod laws;
mod limits;
mod problem;
mod residue;
mod tree;
mod unique_rows;

pub use appending::append;
pub use balanced::{all_of, any_of, seq_of, sum_of};
pub use expression::{Cond, Expr, Rel, Width, test_without_comparisons};
pub use items::Items;
pub use laws::{
    accepted_are_same, accepted_under_tests_are_same, accepts_by_form, degree_bounds_moves,
    differ_where_allowed, faultless_are_problems, guarded_has_one_step, pairs_are_bounded,
    product_relates_in_turn, reach_is_closed, relates_by_spelling, short_are_kept,
    tested_pairs_are_bounded, universal_accepts, untested_are_accepted,
};
pub use limits::{
    MAX_ACTIONS, MAX_EXPR_NODES, MAX_GOALS, MAX_HYPS, MAX_OPEN, MAX_ROUNDS, MAX_TERM_NODES,
    MAX_TESTS, MAX_TEXT_BYTES, MAX_TEXT_NODES, MAX_VARS,
};
pub use problem::{BadProblem, Problem};
pub use tree::{Kat, NoMemory, Test};
pub use unique_rows::{TableRow, add_row, has_row, place_of};
