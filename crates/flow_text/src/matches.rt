//! Matches of blocks with their names resolved and their sorts checked.
ghost use Rattle.std.specs.Prelude.{◌≡◌, ◌&&◌, nat_eq, [], ◌∷◌, map, slice_get, IfOk, None, false};
ghost use Rattle.std.specs.List.{list_any};
ghost use Rattle.std.specs.BTreeMap.{get_by_text};
ghost use Rattle.std.specs.Option.{option_map};
ghost use Rattle.text_parser.specs.TokenParts.{parts_of_token};
ghost use Rattle.text_parser.specs.Parsed.{Makes};
ghost use Rattle.problem_file.specs.Working.Walks.{Does};
ghost use Rattle.flow_model.specs.declared.graph.CondNode.TheVariants as node;
ghost use Rattle.flow_model.specs.Conditions.{always};
ghost use Rattle.flow_text.specs.Trees.{cond_of};
ghost use Rattle.flow_text.specs.Checking.{block_names, is_given_by, next_equation, equations_after, condition_or_always, rounds_given, is_matched, may_match, blocks_matched, file_match, resolved_match, with_name, with_names, with_blocks, next_matches, blocks_or_none, matches_between, matches_of};
ghost use Rattle.flow_text.specs.MatchViews.{equation_parts, equations_of, match_parts, matches_parts};
ghost use Rattle.flow_text.specs.ScopeViews.{scope_parts, sight_parts};
ghost use Rattle.flow_text.specs.KnownViews.{graph_syntax, given_match_of, known_parts};
ghost use Rattle.flow_syntax.specs.SyntaxViews.{cond_syntax, blocks_syntax, equation_syntax, equations_syntax, block_match_syntax};

use crate::check::next_target;
use crate::check_blocks::{block_named, block_names, number_of};
use crate::faults::{limit_fault, repeat_fault};
use crate::known::{Known, WrittenMatch, few_rounds};
use crate::limits::MAX_MATCHES;
use crate::match_names::{MatchName, names_of_match};
use crate::resolve_cond::resolve_cond;
use crate::resolve_expr::resolve_expr;
use crate::results::sight_before;
use crate::scope::Scope;
use crate::visible_names::VisibleNames;
use flow_model::{BlockMatch, CondNode, Equation};
use flow_syntax::{Block, spelled_number};
use kat_model::{NoMemory, append};
use std::alloc::Global;
use std::collections::BTreeMap;
use text_parser::{TextFault, Token};

/// A match of a block of each graph of the goal. The rounds, if they are given, and `split` are of the question of these
/// blocks; the place is that of the keyword. A match by `match names` names no variable.
pub struct FileMatch {
    pub blocks: BlockMatch,
    pub rounds: Option<u64>,
    pub splits: bool,
    pub at: usize,
    /// The variables that the item names, in the order of the text.
    pub names: Vec<MatchName>,
}

// Explicit, so that it is proved once and not at each end of each function that owns one.
impl Drop for FileMatch {
    fn drop(self) {
        let FileMatch {
            blocks: _blocks,
            rounds: _,
            splits: _,
            at: _,
            names: _names,
        } = self;
    }
}

fn is_given_by(equations: &[Equation], k: usize) -> bool
    ensures { result ≡ is_given_by (equations_of equations.now) k }
{
    equations.iter().any(|equation| equation.variable == k)
}

// Returns an equation after others.
fn next_equation(
    alloc: Global,
    visible_names: &VisibleNames,
    before: &[Equation],
    equation: &flow_syntax::Equation,
) -> Result<Equation, TextFault>
    ensures { Makes (Unit {0}) equation_parts result (next_equation (sight_parts visible_names.now) (equations_of before.now) (equation_syntax equation.now)) }
{
    let (variable, sort) = next_target(visible_names, &[], &equation.variable)?;
    if is_given_by(before, variable) {
        return repeat_fault(&equation.variable);
    }
    let expression = resolve_expr(alloc, visible_names, sort, &equation.value)?;
    Ok(Equation {
        variable,
        expression,
    })
}

#[tactic(auto, using(flow_syntax::proofs::Stacked::pushes, crate::proofs::LastTaken::last))]
fn equations(
    alloc: Global,
    visible_names: &VisibleNames,
    written: &[flow_syntax::Equation],
) -> Result<Vec<Equation>, TextFault>
    ensures { Makes (Unit {0}) (λ v. equations_of v.items) result (equations_after (sight_parts visible_names.now) [] (equations_syntax written.now)) }
{
    let mut equations = Vec::new(alloc);
    let mut rest = written;
    'written: while let Some((equation, _)) = rest.split_last() {
        let equation = next_equation(alloc, visible_names, &equations, equation)?;
        append(&mut equations, equation)?;
        rest = &rest[..rest.len() - 1];
    }
    Ok(equations)
}

fn always(alloc: Global) -> Result<Vec<CondNode>, NoMemory>
    ensures { IfOk result (λ v. v.items ≡ node.Always ∷ []) }
{
    let mut nodes = Vec::new(alloc);
    append(&mut nodes, CondNode::Always)?;
    Ok(nodes)
}

fn condition_or_always(
    alloc: Global,
    visible_names: &VisibleNames,
    cond: &[flow_syntax::CondNode],
) -> Result<Vec<CondNode>, TextFault>
    ensures { Makes (Unit {0}) (λ v. cond_of v.items) result (condition_or_always (sight_parts visible_names.now) (cond_syntax cond.now)) }
{
    if cond.is_empty() {
        return Ok(always(alloc)?);
    }
    resolve_cond(alloc, visible_names, cond)
}

fn rounds_given(token: Option<Token>) -> Result<Option<u64>, TextFault>
    ensures { result ≡ rounds_given (option_map parts_of_token token.entry) }
{
    match token {
        None => Ok(None),
        Some(token) => {
            let rounds = few_rounds(&token, spelled_number(&token))?;
            Ok(Some(rounds))
        }
    }
}

fn is_listed(matches: &[FileMatch], k: usize, l: usize) -> bool
    ensures { result ≡ list_any (λ m. nat_eq m.blocks.before k && nat_eq m.blocks.after l) (matches_parts matches.now) }
{
    matches.iter().any(|matched| matched.blocks.before == k && matched.blocks.after == l)
}

fn is_matched(matches: &[FileMatch], k: usize, l: usize) -> bool
    ensures { result ≡ is_matched (matches_parts matches.now) k l }
{
    (k == 0 && l == 0) || is_listed(matches, k, l)
}

// Checks that the blocks are not matched yet, and that there may be another match.
fn may_match(matches: &[FileMatch], k: usize, l: usize, token: &Token) -> Result<(), TextFault>
    ensures { result ≡ may_match (matches_parts matches.now) k l (parts_of_token token.now) }
{
    if is_matched(matches, k, l) {
        return repeat_fault(token);
    }
    if matches.len() + 1 < MAX_MATCHES {
        return Ok(());
    }
    limit_fault(token)
}

// Returns the numbers of the blocks that a match names.
fn blocks_matched(
    matches: &[FileMatch],
    before: &BTreeMap<String, usize>,
    after: &BTreeMap<String, usize>,
    name: &Token,
    other: &Token,
) -> Result<(usize, usize), TextFault>
    ensures { result ≡ blocks_matched (matches_parts matches.now) (parts_of_token name.now) (parts_of_token other.now) (get_by_text before.now name.now.text.now) (get_by_text after.now other.now.text.now) }
{
    let k = block_named(before, name)?;
    let l = block_named(after, other)?;
    may_match(matches, k, l, name)?;
    Ok((k, l))
}

// Returns the match of two blocks, of which the names are resolved.
fn resolved_match(
    alloc: Global,
    visible_names: &VisibleNames,
    blocks: (usize, usize),
    at: usize,
    written: &flow_syntax::BlockMatch,
) -> Result<FileMatch, TextFault>
    ensures { Makes (Unit {0}) match_parts result (resolved_match (sight_parts visible_names.now) blocks at (block_match_syntax written.now)) }
{
    let forth = equations(alloc, visible_names, &written.forth)?;
    let back = equations(alloc, visible_names, &written.back)?;
    let keeping = equations(alloc, visible_names, &written.keeping)?;
    let condition = condition_or_always(alloc, visible_names, &written.condition)?;
    let rounds = rounds_given(written.rounds)?;
    let names = names_of_match(alloc, visible_names, written)?;
    let blocks = BlockMatch {
        before: blocks.0,
        after: blocks.1,
        forth,
        back,
        keeping,
        condition,
    };
    Ok(FileMatch {
        blocks,
        rounds,
        splits: written.splits,
        at,
        names,
    })
}

// Returns the match of two blocks that says no more.
fn plain_match(alloc: Global, blocks: (usize, usize), at: usize) -> Result<FileMatch, NoMemory>
    ensures { IfOk result (λ m. match_parts m ≡ file_match blocks [] [] [] always None false at []) }
{
    let condition = always(alloc)?;
    let blocks = BlockMatch {
        before: blocks.0,
        after: blocks.1,
        forth: Vec::new(alloc),
        back: Vec::new(alloc),
        keeping: Vec::new(alloc),
        condition,
    };
    Ok(FileMatch {
        blocks,
        rounds: None,
        splits: false,
        at,
        names: Vec::new(alloc),
    })
}

// Adds the match of two blocks of the same name, if there is the second, unless they are the entries.
fn add_name(
    alloc: Global,
    matches: &mut Vec<FileMatch>,
    word: &Token,
    k: usize,
    other: Option<usize>,
) -> Result<(), TextFault>
    ensures { Does (Unit {0}) result (matches_parts matches.new.items) (with_name (matches_parts matches.old.items) (parts_of_token word.now) k other) }
{
    let Some(l) = other else {
        return Ok(());
    };
    if k == 0 && l == 0 {
        return Ok(());
    }
    may_match(matches, k, l, word)?;
    let matched = plain_match(alloc, (k, l), word.at)?;
    append(matches, matched)?;
    Ok(())
}

// Adds the matches of the blocks with the same name.
#[tactic(auto, using(flow_syntax::proofs::Stacked::pushes, crate::proofs::LastTaken::last))]
fn add_names(
    alloc: Global,
    matches: &mut Vec<FileMatch>,
    after: &BTreeMap<String, usize>,
    word: &Token,
    blocks: &[Block],
) -> Result<(), TextFault>
    ensures { Does (Unit {0}) result (matches_parts matches.new.items) (with_names (get_by_text after.now) (parts_of_token word.now) (matches_parts matches.old.items) (block_names 0 (blocks_syntax blocks.now))) }
{
    let mut rest = blocks;
    'each: while let Some((block, _)) = rest.split_last() {
        let k = blocks.len() - rest.len();
        add_name(alloc, matches, word, k, number_of(after, &block.name))?;
        rest = &rest[..rest.len() - 1];
    }
    Ok(())
}

// Adds the match of two blocks.
fn add_blocks(
    alloc: Global,
    visible_names: &VisibleNames,
    first: &BTreeMap<String, usize>,
    second: &BTreeMap<String, usize>,
    matches: &mut Vec<FileMatch>,
    word: &Token,
    written: &flow_syntax::BlockMatch,
) -> Result<(), TextFault>
    ensures { Does (Unit {0}) result (matches_parts matches.new.items) (with_blocks (sight_parts visible_names.now) (get_by_text first.now) (get_by_text second.now) (matches_parts matches.old.items) (parts_of_token word.now) (block_match_syntax written.now)) }
{
    let blocks = blocks_matched(matches, first, second, &written.before, &written.after)?;
    let matched = resolved_match(alloc, visible_names, blocks, word.at, written)?;
    append(matches, matched)?;
    Ok(())
}

// Adds the matches of an item.
fn add_matches(
    alloc: Global,
    scope: &Scope,
    blocks: &[Block],
    first: &BTreeMap<String, usize>,
    second: &BTreeMap<String, usize>,
    matches: &mut Vec<FileMatch>,
    written: &WrittenMatch,
) -> Result<(), TextFault>
    ensures { Does (Unit {0}) result (matches_parts matches.new.items) (next_matches (scope_parts scope.now) (block_names 0 (blocks_syntax blocks.now)) (get_by_text first.now) (get_by_text second.now) (matches_parts matches.old.items) (given_match_of written.now)) }
{
    match &written.matched {
        flow_syntax::Match::SameNames => add_names(alloc, matches, second, &written.word, blocks),
        flow_syntax::Match::TwoBlocks(two) => {
            let visible_names = sight_before(
                scope,
                written.sorts,
                written.functions,
                written.variables,
                written.graphs,
            );
            add_blocks(
                alloc,
                &visible_names,
                first,
                second,
                matches,
                &written.word,
                two,
            )
        }
    }
}

// Returns the matches between the blocks of two graphs.
fn matches_between(
    alloc: Global,
    scope: &Scope,
    blocks: &[Block],
    others: &[Block],
    written: &[WrittenMatch],
) -> Result<Vec<FileMatch>, TextFault>
    ensures { Makes (Unit {0}) (λ v. matches_parts v.items) result (matches_between (scope_parts scope.now) (blocks_syntax blocks.now) (blocks_syntax others.now) (map given_match_of written.now)) }
{
    let first = block_names(alloc, blocks)?;
    let second = block_names(alloc, others)?;
    let mut matches = Vec::new(alloc);
    for item in written {
        add_matches(
            alloc,
            scope,
            blocks,
            &first.numbers,
            &second.numbers,
            &mut matches,
            item,
        )?;
    }
    Ok(matches)
}

// Returns the matches between these blocks and those of the graph with this number.
fn matches_with(
    alloc: Global,
    known: &Known,
    blocks: &[Block],
    k: usize,
) -> Result<Vec<FileMatch>, TextFault>
    ensures { Makes (Unit {0}) (λ v. matches_parts v.items) result (matches_between (scope_parts known.now.scope) (blocks_syntax blocks.now) (blocks_or_none (slice_get (map graph_syntax known.now.graphs.items) k)) (map given_match_of known.now.matches.items)) }
{
    match known.graphs.get(k) {
        Some(graph) => matches_between(alloc, &known.scope, blocks, &graph.blocks, &known.matches),
        None => matches_between(alloc, &known.scope, blocks, &[], &known.matches),
    }
}

/// Returns the matches of a file with this goal, or the first fault of one.
pub(crate) fn file_matches(
    alloc: Global,
    known: &Known,
    goal: (usize, usize),
) -> Result<Vec<FileMatch>, TextFault>
    ensures { Makes (Unit {0}) (λ v. matches_parts v.items) result (matches_of (known_parts known.now) goal) }
{
    match known.graphs.get(goal.0) {
        Some(graph) => matches_with(alloc, known, &graph.blocks, goal.1),
        None => matches_with(alloc, known, &[], goal.1),
    }
}
