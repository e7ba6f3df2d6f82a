//! Reads the items of a flow file by a grammar as data.
//!
//! The crate has the grammar, what its productions mean, and the items that a text spells.
//!
//! The reader takes any such grammar: rules with their first tokens and their parts. It predicts each rule from the next
//! token (LL(1) parsing, Lewis and Stearns 1968), or, at an opening parenthesis, from the token after the matching one, and
//! returns the leftmost derivation of the text or its first fault. The value of a derivation is a fold over its steps, from
//! the last to the first.
#![tactic(auto)]

mod action;
mod building;
mod grammar;
mod laws;
mod listing;
mod lists;
mod making;
mod making_bodies;
mod making_conds;
mod making_exprs;
mod making_items;
mod making_matches;
mod making_names;
mod marks;
mod node_counts;
mod parsing;
mod phrase;
mod reading;
mod rule;
mod stack;
mod terminal;
mod value;
mod written;

pub use building::{Building, build};
pub use laws::{derivations_are_leftmost, one_derivation};
pub use making_exprs::{first_name, first_of};
pub use node_counts::{nodes_with, nodes_with_match};
pub use parsing::items;
pub use reading::read;
pub use rule::{
    CLOSE_ROUND, END_OF_TEXT, Grammar, Mark, NUMBER, OPEN_ROUND, Part, Rule, Start, Step,
    WIDE_NUMBER, push_rule,
};
pub use terminal::spelled_number;
pub use written::{
    Block, BlockMatch, CondNode, Equation, FirstName, Item, Jump, Match, Node, Statement,
};
