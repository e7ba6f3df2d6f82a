//! Grammars as data.
ghost use Rattle.std.specs.Prelude.{◌≡◌, [], ◌∷◌, ◌++◌, OnOk, IfOk};
ghost use Rattle.flow_syntax.specs.Rules.{rule_parts, parts_of_rules};

use kat_model::{NoMemory, append};
use std::alloc::Global;

// The terminals that the reader knows. A format numbers its own from 5 on.

/// The terminal of no token: what follows the last token.
pub const END_OF_TEXT: usize = 0;

/// The terminal of a number below 2^64.
pub const NUMBER: usize = 1;

/// The terminal of a number of 2^64 or more. It is read as a [`NUMBER`] and is then a fault.
pub const WIDE_NUMBER: usize = 2;

/// The terminal of `(`.
pub const OPEN_ROUND: usize = 3;

/// The terminal of `)`.
pub const CLOSE_ROUND: usize = 4;

/// A token as the reader sees it: its terminal and its place in bytes.
#[derive(Clone, Copy)]
pub struct Mark {
    pub terminal: usize,
    pub at: usize,
}

/// A part of a rule.
#[derive(Clone, Copy)]
pub enum Part {
    /// A token of this terminal.
    Token(usize),
    /// A token of this terminal that opens a construct.
    Opening(usize),
    /// The end of the construct that was opened last. It has no token.
    Closing,
    /// A phrase, by its number.
    Phrase(usize),
}

/// How a rule begins, and where it applies. Rules of a phrase are tried in order.
#[derive(Clone, Copy)]
pub enum Start {
    /// Begins with a token of this terminal, and applies where that is the next one.
    Take(usize),
    /// Likewise; the token opens a construct.
    Open(usize),
    /// Begins with `(`, which opens a construct, and applies where it is the next token, unless the token after the
    /// matching `)` begins a rule of this phrase.
    Group(usize),
    /// Begins with no token and applies everywhere.
    Otherwise,
}

/// A rule: the phrase that it makes, how it begins, and the parts that follow.
pub struct Rule {
    pub phrase: usize,
    pub start: Start,
    pub parts: Vec<Part>,
}

// Explicit drops, so that each is proved once and not at each end of each function that owns one of these.
impl Drop for Rule {
    fn drop(self) {
        let Rule {
            phrase: _,
            start: _,
            parts: _parts,
        } = self;
    }
}

/// A grammar: its rules, and weights of its phrases, phrase 0 first, which show that each reading ends.
pub struct Grammar {
    pub rules: Vec<Rule>,
    pub weights: Vec<usize>,
}

impl Drop for Grammar {
    fn drop(self) {
        let Grammar {
            rules: _rules,
            weights: _weights,
        } = self;
    }
}

/// A step of a leftmost derivation.
#[derive(Clone, Copy)]
pub enum Step {
    /// The rule of this number takes the next token as its first.
    Shift(usize),
    /// The rule of this number, which takes no token.
    Apply(usize),
    /// A part that is a token takes the next one.
    Match,
    /// The construct opened last ends.
    Close,
}

/// Appends a rule.
pub fn push_rule(
    alloc: Global,
    rules: &mut Vec<Rule>,
    phrase: usize,
    start: Start,
    parts: &[Part],
) -> Result<(), NoMemory>
    ensures { OnOk result (parts_of_rules rules.new.items ≡ parts_of_rules rules.old.items ++ rule_parts phrase start parts.now ∷ []) }
{
    let parts = copied(alloc, parts)?;
    append(
        rules,
        Rule {
            phrase,
            start,
            parts,
        },
    )
}

fn copied(alloc: Global, parts: &[Part]) -> Result<Vec<Part>, NoMemory>
    ensures { IfOk result (λ list. list.items ≡ parts.now) }
{
    let mut list = Vec::new(alloc);
    list.extend_from_slice(parts)?;
    Ok(list)
}
