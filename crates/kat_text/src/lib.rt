//! The public calls on texts of terms, conditions and expressions.
//!
//! This crate has no function of its own. It names the public calls and types of `text_parser` and `text_print`.
#![tactic(auto)]

pub use text_parser::{
    Extent, Kind, Meaning, Scope, TextFault, Token, build_cond, build_expr, build_term, cond_end,
    expr_end, grammar_is_scanned, is_keyword, measure_cond, measure_expr, measure_term,
    measures_are_of_trees, one_reading, phrases_are_passed, phrases_are_unique, phrases_end,
    pieces_lex, read_cond, read_expr, read_term, sound_phrases_are_measured, term_end, tokens,
    tokens_are_slices, words_are_tokens,
};
pub use text_print::{print_cond, print_expr, print_term, printed_reads_back};
