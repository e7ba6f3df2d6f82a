//! Whether a piece has the same text: both graphs are traversed in step from its match.
ghost use Rattle.std.specs.Prelude.{◌≡◌, ◌<◌, ◌+◌, ◌*◌, ◌∷◌, false, IfOk, OnOk, List, None, length, vec_len, is_some, unwrap_or, slice_get};
ghost use Rattle.flow_model.specs.declared.sort.Sort.{Sort};
ghost use Rattle.flow_model.specs.Conditions.{always};
ghost use Rattle.flow_model.specs.Polish.{cond_of, jump_of, graph_of};
ghost use Rattle.flow_pieces.specs.SameTrees.{is_same_cond as same_cond};
ghost use Rattle.flow_pieces.specs.SameTexts.{is_plain as plain_match, are_matched_plainly as matched_plainly, jump_pairs, block_pairs, is_paired, walk_pairs, has_same_text as same_text};
ghost use Rattle.flow_model.specs.Matches.{match_of, matches_of};
ghost use Rattle.flow_matches.specs.MatchViews.{match_at, pair_of};
ghost use Rattle.flow_matches.specs.Tables.{AreMarked, AreInside};
ghost use Rattle.flow_matches.specs.Working.TextWalks.{Pairs, waiting_of, HasMet, SamePartners, SameLengths, AddsPairs, Visits};

use crate::same::is_same_cond;
use crate::same_lists::{are_same_exprs, are_same_statements};
use crate::tables::{MatchTables, has_mark};
use flow_model::{Block, BlockMatch, CondNode, Jump};
use kat_model::NoMemory;
use std::alloc::Global;

// The partner of each block that was met, in each graph, and the pairs that are still to be visited, the next one last.
#[derive(Drop)]
struct TextWalk {
    before: Vec<Option<usize>>,
    after: Vec<Option<usize>>,
    waiting: Vec<(usize, usize)>,
}

// Returns whether a condition is the one that is always true, which has no node.
fn is_plain_cond(nodes: &[CondNode]) -> bool
    ensures { result ≡ same_cond always (cond_of nodes.now) }
{
    is_same_cond(&[], nodes)
}

// Returns whether a match has no equation and no condition.
fn is_plain(one: &BlockMatch) -> bool
    ensures { result ≡ plain_match (match_of one.now) }
{
    one.forth.is_empty()
        && one.back.is_empty()
        && one.keeping.is_empty()
        && is_plain_cond(&one.condition)
}

// Returns whether some match pairs the blocks and has no equation and no condition.
fn are_matched_plainly(matches: &[BlockMatch], before: usize, after: usize) -> bool
    ensures { result ≡ matched_plainly (matches_of matches.now) before after }
{
    for one in matches {
        if one.before == before && one.after == after && is_plain(one) {
            return true;
        }
    }
    false
}

// Adds the pairs to which two jumps lead. Returns whether they do the same.
fn push_jumps(first: &Jump, second: &Jump, walk: &mut TextWalk) -> Result<bool, NoMemory>
    ensures partners { SamePartners walk.old walk.new }
    ensures pairs { IfOk result (λ same. AddsPairs same (jump_pairs (jump_of first.now) (jump_of second.now)) walk.old walk.new) }
{
    match (first, second) {
        (Jump::Goto(k), Jump::Goto(l)) => {
            walk.waiting.push((*k, *l))?;
            Ok(true)
        }
        (Jump::Branch(b, j, k), Jump::Branch(c, l, m)) => {
            walk.waiting.push((*k, *m))?;
            walk.waiting.push((*j, *l))?;
            Ok(is_same_cond(b, c))
        }
        (Jump::Return(es), Jump::Return(fs)) => Ok(are_same_exprs(es, fs)),
        (Jump::Abort, Jump::Abort) => Ok(true),
        _ => Ok(false),
    }
}

// Adds the pairs to which two blocks lead. Returns whether they have the same text.
fn push_blocks(
    before: &[Block],
    after: &[Block],
    first: usize,
    second: usize,
    walk: &mut TextWalk,
) -> Result<bool, NoMemory>
    ensures partners { SamePartners walk.old walk.new }
    ensures pairs { IfOk result (λ same. AddsPairs same (block_pairs (slice_get (graph_of before.now) first) (slice_get (graph_of after.now) second)) walk.old walk.new) }
{
    match (before.get(first), after.get(second)) {
        (Some(one), Some(other)) => {
            if are_same_statements(&one.statements, &other.statements) {
                push_jumps(&one.jump, &other.jump, walk)
            } else {
                Ok(false)
            }
        }
        _ => Ok(false),
    }
}

// Pairs two blocks of which none has a partner.
fn pair_up(first: usize, second: usize, walk: &mut TextWalk)
    ensures waiting { walk.new.waiting ≡ walk.old.waiting }
    ensures lengths { SameLengths walk.old walk.new }
    ensures met { first < vec_len walk.old.before → second < vec_len walk.old.after → (met : Pairs) → HasMet walk.old met → is_paired met first second ≡ false → HasMet walk.new ((first, second) ∷ met) }
{
    if first < walk.before.len() && second < walk.after.len() {
        walk.before[first] = Some(second);
        walk.after[second] = Some(first);
    }
}

fn partner(partners: &[Option<usize>], block: usize) -> Option<usize>
    ensures { result ≡ unwrap_or (slice_get partners.now block) None }
{
    partners.get(block).copied().unwrap_or(None)
}

// Visits a pair. Returns whether it is met already, or is matched plainly, or has the same text and no other partner.
fn visit(
    tables: &MatchTables,
    before: &[Block],
    after: &[Block],
    matches: &[BlockMatch],
    pair: (usize, usize),
    walk: &mut TextWalk,
) -> Result<bool, NoMemory>
    requires marked { AreMarked tables.now matches.now }
    requires inside { AreInside before.now after.now matches.now }
    requires before { vec_len walk.old.before ≡ length before.now }
    requires after { vec_len walk.old.after ≡ length after.now }
    ensures lengths { OnOk result (SameLengths walk.old walk.new) }
    ensures visits { IfOk result (λ goes. (sorts : List Sort) → Visits (pair_of sorts before.now after.now) (matches_of matches.now) pair goes walk.old walk.new) }
{
    let (first, second) = pair;
    match (partner(&walk.before, first), partner(&walk.after, second)) {
        (Some(other), _) => Ok(other == second),
        (None, Some(_)) => Ok(false),
        (None, None) => {
            pair_up(first, second, walk);
            if has_mark(&tables.stops_before, first) || has_mark(&tables.stops_after, second) {
                Ok(are_matched_plainly(matches, first, second))
            } else {
                push_blocks(before, after, first, second, walk)
            }
        }
    }
}

// Visits the pairs that wait. Each pair adds at most two, and each block of the first graph is met once.
fn visit_all(
    tables: &MatchTables,
    before: &[Block],
    after: &[Block],
    matches: &[BlockMatch],
    walk: &mut TextWalk,
) -> Result<bool, NoMemory>
    requires marked { AreMarked tables.now matches.now }
    requires inside { AreInside before.now after.now matches.now }
    requires before { vec_len walk.old.before ≡ length before.now }
    requires after { vec_len walk.old.after ≡ length after.now }
    ensures { IfOk result (λ same. (sorts : List Sort) (met : Pairs) → HasMet walk.old met → same ≡ is_some (walk_pairs (pair_of sorts before.now after.now) (matches_of matches.now) (2 * length before.now + 4) met (waiting_of walk.old))) }
{
    for _step in 0..2 * before.len() + 4 {
        match walk.waiting.pop() {
            None => return Ok(true),
            Some(pair) => {
                if !visit(tables, before, after, matches, pair, walk)? {
                    return Ok(false);
                }
            }
        }
    }
    Ok(false)
}

/// Returns whether the piece of the match of a number has the same text on both sides. Fails only when out of memory.
pub(crate) fn has_same_text(
    alloc: Global,
    tables: &MatchTables,
    before: &[Block],
    after: &[Block],
    matches: &[BlockMatch],
    number: usize,
) -> Result<bool, NoMemory>
    requires marked { AreMarked tables.now matches.now }
    requires inside { AreInside before.now after.now matches.now }
    requires number { number < length matches.now }
    ensures { IfOk result (λ same. (sorts : List Sort) → same ≡ same_text (pair_of sorts before.now after.now) (matches_of matches.now) (match_at matches.now number)) }
{
    let own = &matches[number];
    if !is_plain(own) {
        return Ok(false);
    }
    let mut walk = TextWalk {
        before: vec![in alloc; None; before.len()]?,
        after: vec![in alloc; None; after.len()]?,
        waiting: Vec::new(alloc),
    };
    pair_up(own.before, own.after, &mut walk);
    if !push_blocks(before, after, own.before, own.after, &mut walk)? {
        return Ok(false);
    }
    visit_all(tables, before, after, matches, &mut walk)
}
