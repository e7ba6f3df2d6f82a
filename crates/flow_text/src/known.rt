//! The items of a text, checked one by one.
ghost use Rattle.std.specs.Prelude.{◌≡◌, []};
ghost use Rattle.text_parser.specs.TokenParts.{parts_of_token};
ghost use Rattle.text_parser.specs.Parsed.{Makes};
ghost use Rattle.problem_file.specs.Working.Walks.{Does};
ghost use Rattle.flow_text.specs.Scopes.{sort_meant, sort_named, next_parameter, parameters_after};
ghost use Rattle.flow_text.specs.Checking.{nothing_known, few_rounds, graph_meant, sorts_known, function_known, variables_known, graph_known, rounds_known, split_known, goal_known, match_known, item_known, items_known};
ghost use Rattle.flow_text.specs.ScopeViews.{scope_parts};
ghost use Rattle.flow_text.specs.KnownViews.{known_parts};
ghost use Rattle.flow_syntax.specs.SyntaxViews.{tokens_syntax, blocks_syntax, match_syntax, item_syntax, items_syntax};

use crate::check_blocks::check_graph;
use crate::faults::{limit_fault, name_fault, repeat_fault, sort_fault};
use crate::limits::MAX_PARAMETERS;
use crate::meaning::Meaning;
use crate::scope::Scope;
use crate::visible_names::{sight_of_all, width_named};
use flow_model::Sort;
use flow_syntax::{Block, Item, Match, nodes_with, nodes_with_match, spelled_number};
use kat_model::{MAX_ROUNDS, append};
use std::alloc::Global;
use text_parser::{TextFault, Token};

/// A graph with the numbers of sorts, functions, variables and graphs that are declared before it.
pub(crate) struct WrittenGraph<'a> {
    pub(crate) sorts: usize,
    pub(crate) functions: usize,
    pub(crate) variables: usize,
    pub(crate) graphs: usize,
    pub(crate) blocks: Vec<Block<'a>>,
}

// Explicit drops, so that each is proved once and not at each end of each function that owns one of these.
impl Drop for WrittenGraph<'_> {
    fn drop(self) {
        let WrittenGraph {
            sorts: _,
            functions: _,
            variables: _,
            graphs: _,
            blocks: _blocks,
        } = self;
    }
}

/// What a `match` says, with its keyword and the numbers of declarations before it.
pub(crate) struct WrittenMatch<'a> {
    pub(crate) sorts: usize,
    pub(crate) functions: usize,
    pub(crate) variables: usize,
    pub(crate) graphs: usize,
    pub(crate) word: Token<'a>,
    pub(crate) matched: Match<'a>,
}

impl Drop for WrittenMatch<'_> {
    fn drop(self) {
        let WrittenMatch {
            sorts: _,
            functions: _,
            variables: _,
            graphs: _,
            word: _,
            matched: _matched,
        } = self;
    }
}

/// What is known of the items so far.
pub(crate) struct Known<'a> {
    pub(crate) alloc: Global,
    pub(crate) scope: Scope,
    pub(crate) graphs: Vec<WrittenGraph<'a>>,
    pub(crate) matches: Vec<WrittenMatch<'a>>,
    pub(crate) rounds: Option<u64>,
    pub(crate) splits: bool,
    pub(crate) goal: Option<(usize, usize)>,
    pub(crate) nodes: u64,
}

impl Drop for Known<'_> {
    fn drop(self) {
        let Known {
            alloc: _,
            scope: _scope,
            graphs: _graphs,
            matches: _matches,
            rounds: _,
            splits: _,
            goal: _,
            nodes: _,
        } = self;
    }
}

fn sort_meant(token: &Token, meaning: Option<Meaning>) -> Result<Sort, TextFault>
    ensures { result ≡ sort_meant (parts_of_token token.now) meaning }
{
    match meaning {
        None => name_fault(token),
        Some(meaning) => match meaning {
            Meaning::SortName(k) => Ok(Sort::Opaque(k)),
            Meaning::Function(_) => sort_fault(token),
            Meaning::Variable(_) => sort_fault(token),
            Meaning::GraphName(_) => sort_fault(token),
        },
    }
}

fn sort_named(scope: &Scope, token: &Token) -> Result<Sort, TextFault>
    ensures { result ≡ sort_named (scope_parts scope.now) (parts_of_token token.now) }
{
    match width_named(token.text) {
        Some((_, width)) => Ok(Sort::Number(width)),
        None => sort_meant(token, scope.meaning(token)),
    }
}

// Returns the sort of a parameter after `count` others.
fn next_parameter(scope: &Scope, token: &Token, count: usize) -> Result<Sort, TextFault>
    ensures { result ≡ next_parameter (scope_parts scope.now) (parts_of_token token.now) count }
{
    let sort = sort_named(scope, token)?;
    if count < MAX_PARAMETERS {
        return Ok(sort);
    }
    limit_fault(token)
}

#[tactic(auto, using(flow_syntax::proofs::Stacked::pushes, crate::proofs::KnownSteps::parameters, crate::proofs::LastTaken::last))]
fn parameter_sorts(alloc: Global, scope: &Scope, tokens: &[Token]) -> Result<Vec<Sort>, TextFault>
    ensures { Makes (Unit {0}) (λ v. v.items) result (parameters_after (scope_parts scope.now) [] (tokens_syntax tokens.now)) }
{
    let mut sorts = Vec::new(alloc);
    let mut rest = tokens;
    'tokens: while let Some((token, _)) = rest.split_last() {
        let sort = next_parameter(scope, token, sorts.len())?;
        append(&mut sorts, sort)?;
        rest = &rest[..rest.len() - 1];
    }
    Ok(sorts)
}

pub(crate) fn few_rounds(token: &Token, number: Option<u64>) -> Result<u64, TextFault>
    ensures { result ≡ few_rounds (parts_of_token token.now) number }
{
    match number {
        Some(n) => {
            if n < MAX_ROUNDS + 1 {
                return Ok(n);
            }
            limit_fault(token)
        }
        None => limit_fault(token),
    }
}

fn graph_meant(token: &Token, meaning: Option<Meaning>) -> Result<usize, TextFault>
    ensures { result ≡ graph_meant (parts_of_token token.now) meaning }
{
    match meaning {
        None => name_fault(token),
        Some(meaning) => match meaning {
            Meaning::GraphName(k) => Ok(k),
            Meaning::SortName(_) => sort_fault(token),
            Meaning::Function(_) => sort_fault(token),
            Meaning::Variable(_) => sort_fault(token),
        },
    }
}

impl<'a> Known<'a> {
    pub(crate) fn new(alloc: Global) -> Known<'a>
        ensures { known_parts result ≡ nothing_known }
    {
        Known {
            alloc,
            scope: Scope::new(alloc),
            graphs: Vec::new(alloc),
            matches: Vec::new(alloc),
            rounds: None,
            splits: false,
            goal: None,
            nodes: 0,
        }
    }

    fn declare_sorts(&mut self, names: Vec<Token>) -> Result<(), TextFault>
        ensures { Does (Unit {0}) result (known_parts self.new) (sorts_known (known_parts self.old) (tokens_syntax names.entry.items)) }
    {
        self.scope.declare_sorts(&names)?;
        Ok(())
    }

    fn declare_function(
        &mut self,
        result_sort: Token,
        name: Token,
        parameters: Vec<Token>,
    ) -> Result<(), TextFault>
        ensures { Does (Unit {0}) result (known_parts self.new) (function_known (known_parts self.old) (parts_of_token result_sort.entry) (parts_of_token name.entry) (tokens_syntax parameters.entry.items)) }
    {
        let result_sort = sort_named(&self.scope, &result_sort)?;
        self.scope.may_have_function(&name)?;
        let parameters = parameter_sorts(self.alloc, &self.scope, &parameters)?;
        self.scope.declare_function(&name, result_sort, parameters)?;
        Ok(())
    }

    fn declare_variables(&mut self, sort: Token, names: Vec<Token>) -> Result<(), TextFault>
        ensures { Does (Unit {0}) result (known_parts self.new) (variables_known (known_parts self.old) (parts_of_token sort.entry) (tokens_syntax names.entry.items)) }
    {
        let sort = sort_named(&self.scope, &sort)?;
        self.scope.declare_variables(sort, &names)?;
        Ok(())
    }

    fn add_graph(
        &mut self,
        word: Token,
        name: Token,
        blocks: Vec<Block<'a>>,
    ) -> Result<(), TextFault>
        ensures { Does (Unit {0}) result (known_parts self.new) (graph_known (known_parts self.old) (parts_of_token word.entry) (parts_of_token name.entry) (blocks_syntax blocks.entry.items)) }
    {
        self.scope.may_have_graph(&name)?;
        let visible_names = sight_of_all(&self.scope);
        let _ = check_graph(self.alloc, &visible_names, None, &blocks)?;
        let Some(nodes) = nodes_with(self.nodes, &blocks) else {
            return Err(TextFault::TooLarge(word.at));
        };
        let graph = WrittenGraph {
            sorts: self.scope.sorts,
            functions: self.scope.functions.len(),
            variables: self.scope.variables.len(),
            graphs: self.scope.graphs,
            blocks,
        };
        self.scope.declare_graph(&name, self.graphs.len())?;
        append(&mut self.graphs, graph)?;
        self.scope.graphs = self.graphs.len();
        self.nodes = nodes;
        Ok(())
    }

    fn set_rounds(&mut self, word: Token, number: Token) -> Result<(), TextFault>
        ensures { Does (Unit {0}) result (known_parts self.new) (rounds_known (known_parts self.old) (parts_of_token word.entry) (parts_of_token number.entry)) }
    {
        match self.rounds {
            Some(_) => repeat_fault(&word),
            None => {
                let rounds = few_rounds(&number, spelled_number(&number))?;
                self.rounds = Some(rounds);
                Ok(())
            }
        }
    }

    fn set_split(&mut self, word: Token) -> Result<(), TextFault>
        ensures { Does (Unit {0}) result (known_parts self.new) (split_known (known_parts self.old) (parts_of_token word.entry)) }
    {
        if self.splits {
            return repeat_fault(&word);
        }
        self.splits = true;
        Ok(())
    }

    fn set_goal(&mut self, word: Token, before: Token, after: Token) -> Result<(), TextFault>
        ensures { Does (Unit {0}) result (known_parts self.new) (goal_known (known_parts self.old) (parts_of_token word.entry) (parts_of_token before.entry) (parts_of_token after.entry)) }
    {
        match self.goal {
            Some(_) => Err(TextFault::TwoGoals(word.at)),
            None => {
                let before = graph_meant(&before, self.scope.meaning(&before))?;
                let after = graph_meant(&after, self.scope.meaning(&after))?;
                self.goal = Some((before, after));
                Ok(())
            }
        }
    }

    fn add_match(&mut self, word: Token<'a>, matched: Match<'a>) -> Result<(), TextFault>
        ensures { Does (Unit {0}) result (known_parts self.new) (match_known (known_parts self.old) (parts_of_token word.entry) (match_syntax matched.entry)) }
    {
        let Some(nodes) = nodes_with_match(self.nodes, &matched) else {
            return Err(TextFault::TooLarge(word.at));
        };
        let written = WrittenMatch {
            sorts: self.scope.sorts,
            functions: self.scope.functions.len(),
            variables: self.scope.variables.len(),
            graphs: self.scope.graphs,
            word,
            matched,
        };
        append(&mut self.matches, written)?;
        self.nodes = nodes;
        Ok(())
    }

    /// Returns the sorts of the variables.
    pub(crate) fn into_variables(self) -> Vec<Sort>
        ensures { result.items ≡ (known_parts self.entry).scope.variables }
    {
        let Known {
            alloc: _,
            scope,
            graphs: _graphs,
            matches: _matches,
            rounds: _,
            splits: _,
            goal: _,
            nodes: _,
        } = self;
        scope.into_variables()
    }

    /// Checks one more item.
    pub(crate) fn add(&mut self, item: Item<'a>) -> Result<(), TextFault>
        ensures { Does (Unit {0}) result (known_parts self.new) (item_known (known_parts self.old) (item_syntax item.entry)) }
    {
        match item {
            Item::Sorts(_, names) => self.declare_sorts(names),
            Item::Function(_, result_sort, name, parameters) => {
                self.declare_function(result_sort, name, parameters)
            }
            Item::Variables(_, sort, names) => self.declare_variables(sort, names),
            Item::Graph(word, name, blocks) => self.add_graph(word, name, blocks),
            Item::Rounds(word, number) => self.set_rounds(word, number),
            Item::Split(word) => self.set_split(word),
            Item::Equal(word, before, after) => self.set_goal(word, before, after),
            Item::Match(word, matched) => self.add_match(word, matched),
        }
    }
}

/// Checks all items, which are from the last to the first.
#[tactic(auto, using(flow_syntax::proofs::Stacked::pushes, crate::proofs::KnownSteps::known))]
pub(crate) fn check_items<'a>(
    alloc: Global,
    mut items: Vec<Item<'a>>,
) -> Result<Known<'a>, TextFault>
    ensures { Makes (Unit {0}) known_parts result (items_known nothing_known (items_syntax items.entry.items)) }
{
    let mut known = Known::new(alloc);
    'items: while let Some(item) = items.pop() {
        known.add(item)?;
    }
    Ok(known)
}
