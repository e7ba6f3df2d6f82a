//! Laws of flow files: their graphs and matches are sorted and whole.
//!
//! The names that they declare are lines, and the names of a match are what it gives and reads. In a whole graph, the
//! expressions and conditions in Polish notation are one tree each: the ways of such a graph, their number and the sizes
//! of their forms are those of its trees.
#![tactic(auto)]

mod laws;

pub use laws::{
    files_are_sorted, graphs_are_whole, match_names_are_read, matches_are_sorted,
    matches_are_whole, names_are_lines, whole_graphs_have_one_outcome,
};
