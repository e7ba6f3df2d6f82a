//! The exits of a piece.
ghost use Rattle.std.specs.Prelude.{◌≡◌, ◌<◌, ◌&&◌, false, IfOk, OnOk, List, [], ◌∷◌, length, vec_len, filter, nat_eq, slice_index_or};
ghost use Rattle.kat_model.specs.UniqueRows.{with_new};
ghost use Rattle.std.specs.List.{list_any, list_all};
ghost use Rattle.std.specs.Cmp.Lexicographic.{pointwise};
ghost use Rattle.flow_model.specs.declared.sort.Sort.{Sort};
ghost use Rattle.flow_model.specs.declared.graph.Block.{Block as ABlock};
ghost use Rattle.flow_model.specs.Polish.{jump_of, graph_of};
ghost use Rattle.flow_ways.specs.Liveness.{jump_targets};
ghost use Rattle.flow_places.specs.Walks.{blocks_from as inside_from};
ghost use Rattle.flow_pieces.specs.SameTrees.{is_same_bool};
ghost use Rattle.flow_pieces.specs.PieceGraphs.{has_block as has_number};
ghost use Rattle.flow_pieces.specs.Exits.{have_same_parts as same_parts, rows_with as rows_of, columns_with as columns_of, exit_of as exit_at, has_match as exit_has, share_column, exits_from, piece_exits as exits_of_piece};
ghost use Rattle.flow_model.specs.declared.block_match.BlockMatch.{BlockMatch as ABlockMatch};
ghost use Rattle.flow_model.specs.Matches.{match_of, matches_of};
ghost use Rattle.flow_matches.specs.MatchViews.{match_at, pair_of};
ghost use Rattle.flow_matches.specs.Tables.{AreBelow, AreTables, AreInside};
ghost use Rattle.flow_matches.specs.Working.ExitViews.{exit_tree, exit_trees, IsExitOf, AreExitsOf, chosen, IsMarkedList, with_arrivals, AreArrivals, noted_at, like_by, has_like_by, FirstWith, FirstShared};

use crate::same::is_same_cond;
use crate::same_lists::are_same_equations;
use crate::tables::{MatchTables, has_mark, is_live_after};
use flow_model::{Block, BlockMatch, Jump};
use flow_places::blocks_from;
use kat_model::NoMemory;
use std::alloc::Global;

/// Matches that share a mark: the blocks that they pair, the number of one of them, which has the equations and the
/// condition of all, and their live variables.
#[derive(Drop)]
pub(crate) struct Exit {
    pub(crate) rows: Vec<usize>,
    pub(crate) columns: Vec<usize>,
    pub(crate) number: usize,
    pub(crate) live: Vec<usize>,
}

/// The matched blocks at which runs arrive, in the order in which they are met, and their marks.
#[derive(Drop)]
pub(crate) struct Arrivals {
    pub(crate) blocks: Vec<usize>,
    pub(crate) marks: Vec<bool>,
}

// Adds a block, if it is matched and new.
fn arrive(stops: &[bool], block: usize, arrivals: &mut Arrivals) -> Result<(), NoMemory>
    requires marked { IsMarkedList arrivals.old }
    requires long { vec_len arrivals.old.marks ≡ length stops.now }
    ensures long { vec_len arrivals.new.marks ≡ vec_len arrivals.old.marks }
    ensures marked { OnOk result (IsMarkedList arrivals.new) }
    ensures added { OnOk result (arrivals.new.blocks.items ≡ with_arrivals (λ k. slice_index_or stops.now k false) arrivals.old.blocks.items (block ∷ [])) }
{
    if has_mark(stops, block) && block < arrivals.marks.len() && !arrivals.marks[block] {
        arrivals.marks[block] = true;
        arrivals.blocks.push(block)?;
    }
    Ok(())
}

// Adds the targets of a jump that are matched and new.
fn arrive_by(stops: &[bool], jump: &Jump, arrivals: &mut Arrivals) -> Result<(), NoMemory>
    requires marked { IsMarkedList arrivals.old }
    requires long { vec_len arrivals.old.marks ≡ length stops.now }
    ensures long { vec_len arrivals.new.marks ≡ vec_len arrivals.old.marks }
    ensures marked { OnOk result (IsMarkedList arrivals.new) }
    ensures added { OnOk result (arrivals.new.blocks.items ≡ with_arrivals (λ k. slice_index_or stops.now k false) arrivals.old.blocks.items (jump_targets (jump_of jump.now))) }
{
    match jump {
        Jump::Goto(k) => arrive(stops, *k, arrivals),
        Jump::Branch(_, k, l) => {
            arrive(stops, *k, arrivals)?;
            arrive(stops, *l, arrivals)
        }
        Jump::Return(_) | Jump::Abort => Ok(()),
    }
}

/// Returns the matched blocks to which some blocks jump, each once. Fails only when out of memory.
pub(crate) fn arrivals_from(
    alloc: Global,
    blocks: &[Block],
    stops: &[bool],
    inside: &[usize],
) -> Result<Arrivals, NoMemory>
    ensures { IfOk result (λ arrivals. AreArrivals arrivals (graph_of blocks.now) (λ k. slice_index_or stops.now k false) inside.now) }
{
    let mut arrivals = Arrivals {
        blocks: Vec::new(alloc),
        marks: vec![in alloc; false; stops.len()]?,
    };
    for block in inside {
        if let Some(found) = blocks.get(*block) {
            arrive_by(stops, &found.jump, &mut arrivals)?;
        }
    }
    Ok(arrivals)
}

// Returns the matched blocks at which runs from a block arrive.
fn piece_arrivals(
    alloc: Global,
    blocks: &[Block],
    stops: &[bool],
    first: usize,
) -> Result<Arrivals, NoMemory>
    ensures { IfOk result (λ arrivals. AreArrivals arrivals (graph_of blocks.now) (λ k. slice_index_or stops.now k false) (inside_from (graph_of blocks.now) (λ k. slice_index_or stops.now k false) first)) }
{
    let inside = blocks_from(alloc, blocks, stops, first)?;
    arrivals_from(alloc, blocks, stops, &inside)
}

// Returns the numbers of the matches of two blocks at which runs arrive.
fn candidates(
    alloc: Global,
    before: &Arrivals,
    after: &Arrivals,
    matches: &[BlockMatch],
) -> Result<Vec<usize>, NoMemory>
    ensures numbers { IfOk result (λ numbers. AreBelow (length matches.now) numbers.items) }
    ensures matches { IfOk result (λ numbers. chosen matches.now numbers.items ≡ filter (λ c. slice_index_or before.now.marks.items c.before false && slice_index_or after.now.marks.items c.after false) (matches_of matches.now)) }
{
    let mut found = Vec::new(alloc);
    for number in 0..matches.len() {
        let one = &matches[number];
        if has_mark(&before.marks, one.before) && has_mark(&after.marks, one.after) {
            found.push(number)?;
        }
    }
    Ok(found)
}

fn push_new(list: &mut Vec<usize>, block: usize) -> Result<(), NoMemory>
    ensures { OnOk result (list.new.items ≡ with_new nat_eq list.old.items block) }
{
    if !list.contains(&block) {
        list.push(block)?;
    }
    Ok(())
}

// Returns the blocks that candidates pair with a block of the second graph.
fn rows_with(
    alloc: Global,
    matches: &[BlockMatch],
    candidates: &[usize],
    own: &BlockMatch,
) -> Result<Vec<usize>, NoMemory>
    requires { AreBelow (length matches.now) candidates.now }
    ensures { IfOk result (λ rows. rows.items ≡ rows_of (chosen matches.now candidates.now) (match_of own.now)) }
{
    let mut rows = Vec::new(alloc);
    for number in candidates {
        let one = &matches[*number];
        if one.after == own.after {
            push_new(&mut rows, one.before)?;
        }
    }
    Ok(rows)
}

// Returns the blocks that candidates pair with a block of the first graph.
fn columns_with(
    alloc: Global,
    matches: &[BlockMatch],
    candidates: &[usize],
    own: &BlockMatch,
) -> Result<Vec<usize>, NoMemory>
    requires { AreBelow (length matches.now) candidates.now }
    ensures { IfOk result (λ columns. columns.items ≡ columns_of (chosen matches.now candidates.now) (match_of own.now)) }
{
    let mut columns = Vec::new(alloc);
    for number in candidates {
        let one = &matches[*number];
        if one.before == own.before {
            push_new(&mut columns, one.after)?;
        }
    }
    Ok(columns)
}

fn have_same_parts(one: &BlockMatch, other: &BlockMatch) -> bool
    ensures { result ≡ same_parts (match_of one.now) (match_of other.now) }
{
    are_same_equations(&one.forth, &other.forth)
        && are_same_equations(&one.back, &other.back)
        && are_same_equations(&one.keeping, &other.keeping)
        && is_same_cond(&one.condition, &other.condition)
}

// Returns whether the same variables are live at two blocks of the second graph.
fn have_same_live(tables: &MatchTables, variables: usize, one: usize, other: usize) -> bool
    ensures { result ≡ pointwise nat_eq (noted_at tables.now variables one) (noted_at tables.now variables other) }
{
    for variable in 0..variables {
        if is_live_after(tables, one, variable) != is_live_after(tables, other, variable) {
            return false;
        }
    }
    true
}

// Returns the variables that are live at a block of the second graph.
fn live_at(
    alloc: Global,
    tables: &MatchTables,
    variables: usize,
    block: usize,
) -> Result<Vec<usize>, NoMemory>
    ensures bounds { IfOk result (λ live. AreBelow variables live.items) }
    ensures live { IfOk result (λ live. live.items ≡ noted_at tables.now variables block) }
{
    let mut live = Vec::new(alloc);
    for variable in 0..variables {
        if is_live_after(tables, block, variable) {
            live.push(variable)?;
        }
    }
    Ok(live)
}

// Returns whether two matches have the same parts and the same live variables.
fn are_like(tables: &MatchTables, variables: usize, one: &BlockMatch, other: &BlockMatch) -> bool
    ensures { result ≡ like_by (noted_at tables.now variables) (match_of one.now) (match_of other.now) }
{
    have_same_parts(one, other) && have_same_live(tables, variables, one.after, other.after)
}

// Returns whether some candidate pairs two blocks and is like a match.
fn has_like(
    tables: &MatchTables,
    variables: usize,
    matches: &[BlockMatch],
    candidates: &[usize],
    pair: (usize, usize),
    own: &BlockMatch,
) -> bool
    requires { AreBelow (length matches.now) candidates.now }
    ensures { result ≡ has_like_by (noted_at tables.now variables) (chosen matches.now candidates.now) (match_of own.now) pair.0 pair.1 }
{
    for number in candidates {
        let one = &matches[*number];
        if one.before == pair.0 && one.after == pair.1 && are_like(tables, variables, own, one) {
            return true;
        }
    }
    false
}

// Returns whether candidates that are like a match pair a row with each column.
fn has_row(
    tables: &MatchTables,
    variables: usize,
    matches: &[BlockMatch],
    candidates: &[usize],
    row: usize,
    columns: &[usize],
    own: &BlockMatch,
) -> bool
    requires { AreBelow (length matches.now) candidates.now }
    ensures { result ≡ list_all (has_like_by (noted_at tables.now variables) (chosen matches.now candidates.now) (match_of own.now) row) columns.now }
{
    for column in columns {
        if !has_like(tables, variables, matches, candidates, (row, *column), own) {
            return false;
        }
    }
    true
}

// Returns whether no candidate has a block of only one of the two sets.
fn are_alone(
    matches: &[BlockMatch],
    candidates: &[usize],
    rows: &[usize],
    columns: &[usize],
) -> bool
    requires { AreBelow (length matches.now) candidates.now }
    ensures { result ≡ list_all (λ d. is_same_bool (has_number rows.now d.before) (has_number columns.now d.after)) (chosen matches.now candidates.now) }
{
    for number in candidates {
        let one = &matches[*number];
        if rows.contains(&one.before) != columns.contains(&one.after) {
            return false;
        }
    }
    true
}

// Returns whether the candidates around a match are all pairs of rows and columns, alike, and alone there.
fn is_rectangle(
    tables: &MatchTables,
    variables: usize,
    matches: &[BlockMatch],
    candidates: &[usize],
    rows: &[usize],
    columns: &[usize],
    own: &BlockMatch,
) -> bool
    requires { AreBelow (length matches.now) candidates.now }
    ensures { result ≡ (list_all (λ k. list_all (has_like_by (noted_at tables.now variables) (chosen matches.now candidates.now) (match_of own.now) k) columns.now) rows.now && list_all (λ d. is_same_bool (has_number rows.now d.before) (has_number columns.now d.after)) (chosen matches.now candidates.now)) }
{
    for row in rows {
        if !has_row(tables, variables, matches, candidates, *row, columns, own) {
            return false;
        }
    }
    are_alone(matches, candidates, rows, columns)
}

// Returns the exit of the match of a number.
fn exit_of(
    alloc: Global,
    tables: &MatchTables,
    variables: usize,
    matches: &[BlockMatch],
    candidates: &[usize],
    number: usize,
) -> Result<Exit, NoMemory>
    requires numbers { AreBelow (length matches.now) candidates.now }
    requires number { number < length matches.now }
    ensures bounds { IfOk result (λ exit. IsExitOf (length matches.now) variables exit) }
    ensures exit { IfOk result (λ exit. (sorts : List Sort) → length sorts ≡ variables → (before after : List ABlock) → AreTables tables.now sorts before after matches.now → exit_tree matches.now exit ≡ exit_at (pair_of sorts before after) (chosen matches.now candidates.now) (match_at matches.now number)) }
{
    let own = &matches[number];
    let live = live_at(alloc, tables, variables, own.after)?;
    let rows = rows_with(alloc, matches, candidates, own)?;
    let columns = columns_with(alloc, matches, candidates, own)?;
    if is_rectangle(tables, variables, matches, candidates, &rows, &columns, own) {
        return Ok(Exit {
            rows,
            columns,
            number,
            live,
        });
    }
    Ok(Exit {
        rows: vec![in alloc; own.before; 1]?,
        columns: vec![in alloc; own.after; 1]?,
        number,
        live,
    })
}

// Returns whether some exit pairs the blocks of a match.
fn is_taken(exits: &[Exit], one: &BlockMatch) -> bool
    ensures { (matches : List ABlockMatch) → result ≡ list_any (λ e. exit_has e (match_of one.now)) (exit_trees matches exits.now) }
{
    for exit in exits {
        if exit.rows.contains(&one.before) && exit.columns.contains(&one.after) {
            return true;
        }
    }
    false
}

// Returns the exits of candidates, in their order.
fn exits_of(
    alloc: Global,
    tables: &MatchTables,
    variables: usize,
    matches: &[BlockMatch],
    candidates: &[usize],
) -> Result<Vec<Exit>, NoMemory>
    requires { AreBelow (length matches.now) candidates.now }
    ensures bounds { IfOk result (λ exits. AreExitsOf (length matches.now) variables exits.items) }
    ensures exits { IfOk result (λ exits. (sorts : List Sort) → length sorts ≡ variables → (before after : List ABlock) → AreTables tables.now sorts before after matches.now → exit_trees matches.now exits.items ≡ exits_from (pair_of sorts before after) (chosen matches.now candidates.now) (chosen matches.now candidates.now) []) }
{
    let mut exits = Vec::new(alloc);
    for number in candidates {
        if !is_taken(&exits, &matches[*number]) {
            exits.push(exit_of(alloc, tables, variables, matches, candidates, *number)?)?;
        }
    }
    Ok(exits)
}

/// Returns the exits of the piece of the match of a number. Fails only when out of memory.
pub(crate) fn piece_exits(
    alloc: Global,
    tables: &MatchTables,
    variables: usize,
    before: &[Block],
    after: &[Block],
    matches: &[BlockMatch],
    number: usize,
) -> Result<Vec<Exit>, NoMemory>
    requires inside { AreInside before.now after.now matches.now }
    requires number { number < length matches.now }
    ensures bounds { IfOk result (λ exits. AreExitsOf (length matches.now) variables exits.items) }
    ensures exits { IfOk result (λ exits. (sorts : List Sort) → length sorts ≡ variables → AreTables tables.now sorts before.now after.now matches.now → exit_trees matches.now exits.items ≡ exits_of_piece (pair_of sorts before.now after.now) (matches_of matches.now) (match_at matches.now number)) }
{
    let own = &matches[number];
    let first = piece_arrivals(alloc, before, &tables.stops_before, own.before)?;
    let second = piece_arrivals(alloc, after, &tables.stops_after, own.after)?;
    let candidates = candidates(alloc, &first, &second, matches)?;
    exits_of(alloc, tables, variables, matches, &candidates)
}

fn has_block(blocks: &[usize], block: usize) -> bool
    ensures { result ≡ has_number blocks.now block }
{
    blocks.contains(&block)
}

// Returns whether some block is a column of both exits.
fn have_shared_column(one: &Exit, other: &Exit) -> bool
    ensures { (matches : List ABlockMatch) → result ≡ share_column (exit_tree matches one.now) (exit_tree matches other.now) }
{
    for column in &one.columns {
        if has_block(&other.columns, *column) {
            return true;
        }
    }
    false
}

// Returns the place of the first exit from a place on that shares a column with an exit.
fn shared_with(exits: &[Exit], own: &Exit, from: usize) -> Option<usize>
    ensures { (matches : List ABlockMatch) → FirstWith result matches own.now exits.now from }
{
    for place in from..exits.len() {
        if have_shared_column(own, &exits[place]) {
            return Some(place);
        }
    }
    None
}

/// Returns the places of the first two exits that share a column.
pub(crate) fn shared_column(exits: &[Exit]) -> Option<(usize, usize)>
    ensures { (matches : List ABlockMatch) → FirstShared result matches exits.now }
{
    for place in 0..exits.len() {
        if let Some(other) = shared_with(exits, &exits[place], place + 1) {
            return Some((place, other));
        }
    }
    None
}
