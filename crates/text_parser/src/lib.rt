//! Tokens, scopes, and one parser of terms, conditions and expressions.
//!
//! A text has names, numbers and symbols between separators and comments. The grammar of phrases has one parser, whose
//! callers supply the semantic actions ([`Reading`]); in scopes, phrases are measured and built.
#![tactic(auto)]

mod build;
mod cond;
mod convert;
mod definition;
mod expr;
mod extent;
mod fault;
mod keyword;
mod laws;
mod lexer;
mod meaning;
mod measure;
mod names;
mod read;
mod reading;
mod scan;
mod scope;
mod term;
mod terminal;
mod token;

pub use cond::parse_cond;
pub use expr::parse_expr;
pub use extent::Extent;
pub use fault::TextFault;
pub use keyword::is_keyword;
pub use laws::{
    grammar_is_scanned, measures_are_of_trees, one_reading, phrases_are_passed, phrases_are_unique,
    phrases_end, pieces_lex, sound_phrases_are_measured, tokens_are_slices, words_are_tokens,
};
pub use lexer::{MAX_LEN, tokens};
pub use meaning::Meaning;
pub use read::{
    build_cond, build_expr, build_term, measure_cond, measure_expr, measure_term, read_cond,
    read_expr, read_term,
};
pub use reading::{Context, Operator, Reading, with_end};
pub use scan::{Scan, cond_end, expr_end, term_end};
pub use scope::Scope;
pub use term::parse_term;
pub use terminal::{
    Keyword, Separator, Terminal, expect, is_at, is_sum_at, place_at, syntax_fault_at, terminal_at,
    terminal_of, text_at,
};
pub use token::{Kind, Token};
