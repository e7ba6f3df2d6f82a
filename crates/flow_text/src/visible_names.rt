//! The names that an expression may use, and their sorts.
ghost use Rattle.std.specs.Prelude.{◌≡◌, slice_get};
ghost use Rattle.std.specs.Option.{option_map};
ghost use Rattle.text_parser.specs.TokenParts.{parts_of_token};
ghost use Rattle.flow_text.specs.Scopes.{is_declared, meaning_in, width_named};
ghost use Rattle.flow_text.specs.Resolving.{result_of, sort_of_meaning, sort_of_word, sort_of_first, sort_or_u64, sort_of_sides};
ghost use Rattle.flow_text.specs.ScopeViews.{function_of, functions_of, scope_parts, sight_parts};
ghost use Rattle.flow_text.specs.Working.Words.{listed_width};
ghost use Rattle.flow_syntax.specs.SyntaxViews.{first_syntax, expr_syntax};

use crate::meaning::Meaning;
use crate::scope::{Function, Scope};
use flow_model::Sort;
use flow_syntax::{FirstName, Node, first_name, first_of};
use kat_model::Width;
use text_parser::Token;

/// A scope with the first of its functions and variables and numbers of its sorts and graphs, which are declared before a
/// graph.
#[derive(Clone, Copy)]
pub(crate) struct VisibleNames<'s> {
    pub(crate) scope: &'s Scope,
    pub(crate) sorts: usize,
    pub(crate) functions: &'s [Function],
    pub(crate) variables: &'s [Sort],
    pub(crate) graphs: usize,
}

/// Returns what a graph may name that is declared next.
pub(crate) fn sight_of_all<'s>(scope: &'s Scope) -> VisibleNames<'s>
    ensures { sight_parts result ≡ scope_parts scope.now }
{
    VisibleNames {
        scope,
        sorts: scope.sorts,
        functions: &scope.functions,
        variables: &scope.variables,
        graphs: scope.graphs,
    }
}

/// The words that name widths, with whether each names a signed one.
const WIDTHS: &[(&str, (bool, Width))] = &[
    ("u8", (false, Width::W8)),
    ("u16", (false, Width::W16)),
    ("u32", (false, Width::W32)),
    ("u64", (false, Width::W64)),
    ("s8", (true, Width::W8)),
    ("s16", (true, Width::W16)),
    ("s32", (true, Width::W32)),
    ("s64", (true, Width::W64)),
];

fn listed_width(list: &[(&str, (bool, Width))], text: &str) -> Option<(bool, Width)>
    ensures { result ≡ listed_width list.now text.now }
{
    for (listed, width) in list {
        if text == *listed {
            return Some(*width);
        }
    }
    None
}

/// Returns the width that a word names, if it does, and whether it names a signed one.
pub(crate) fn width_named(text: &str) -> Option<(bool, Width)>
    ensures { result ≡ width_named text.now }
{
    listed_width(WIDTHS, text)
}

/// Returns the sort, or u64 if there is none.
pub(crate) fn sort_or_u64(sort: Option<Sort>) -> Sort
    ensures { result ≡ sort_or_u64 sort }
{
    match sort {
        Some(sort) => sort,
        None => Sort::Number(Width::W64),
    }
}

fn sort_of_word(word: Option<(bool, Width)>) -> Option<Sort>
    ensures { result ≡ sort_of_word word }
{
    match word {
        Some((_, width)) => Some(Sort::Number(width)),
        None => None,
    }
}

/// Returns the sort with this number, if there is one.
#[tactic(auto, using(std::proofs::lemmas::Option::slice_get_read, std::proofs::lemmas::Option::slice_get_past))]
pub(crate) fn sort_at(sorts: &[Sort], k: usize) -> Option<Sort>
    ensures { result ≡ slice_get sorts.now k }
{
    sorts.get(k).copied()
}

/// Returns the function with this number, if there is one.
pub(crate) fn function_at(functions: &[Function], k: usize) -> Option<&Function>
    ensures { option_map (λ f. function_of f.now) result ≡ slice_get (functions_of functions.now) k }
{
    functions.get(k)
}

fn result_sort_at(functions: &[Function], k: usize) -> Option<Sort>
    ensures { result ≡ result_of (slice_get (functions_of functions.now) k) }
{
    match function_at(functions, k) {
        Some(function) => Some(function.result_sort),
        None => None,
    }
}

impl<'s> VisibleNames<'s> {
    fn is_declared(&self, meaning: Meaning) -> bool
        ensures { result ≡ is_declared (sight_parts self.now) meaning }
    {
        match meaning {
            Meaning::SortName(k) => k < self.sorts,
            Meaning::Function(k) => k < self.functions.len(),
            Meaning::Variable(k) => k < self.variables.len(),
            Meaning::GraphName(k) => k < self.graphs,
        }
    }

    /// Returns what a token means as a name, if that is declared.
    pub(crate) fn meaning(&self, name: &Token) -> Option<Meaning>
        ensures { result ≡ meaning_in (sight_parts self.now) (parts_of_token name.now) }
    {
        match self.scope.meaning(name) {
            None => None,
            Some(meaning) => {
                if self.is_declared(meaning) {
                    Some(meaning)
                } else {
                    None
                }
            }
        }
    }

    fn sort_of_meaning(&self, meaning: Option<Meaning>) -> Option<Sort>
        ensures { result ≡ sort_of_meaning (sight_parts self.now) meaning }
    {
        match meaning {
            None => None,
            Some(meaning) => match meaning {
                Meaning::Variable(k) => sort_at(self.variables, k),
                Meaning::Function(k) => result_sort_at(self.functions, k),
                Meaning::SortName(_) => None,
                Meaning::GraphName(_) => None,
            },
        }
    }

    /// Returns the sort of the first name of an expression.
    pub(crate) fn sort_of_first(&self, first: &FirstName) -> Option<Sort>
        ensures { result ≡ sort_of_first (sight_parts self.now) (first_syntax first.now) }
    {
        match first {
            FirstName::NoName => None,
            FirstName::Name(name) => self.sort_of_meaning(self.meaning(name)),
            FirstName::Word(word) => sort_of_word(width_named(word.text)),
        }
    }

    /// Returns the sort of both sides of a comparison.
    pub(crate) fn sort_of_sides(&self, left: &[Node], right: &[Node]) -> Sort
        ensures { result ≡ sort_of_sides (sight_parts self.now) (expr_syntax left.now) (expr_syntax right.now) }
    {
        let first = first_of(first_name(left), first_name(right));
        sort_or_u64(self.sort_of_first(&first))
    }
}
