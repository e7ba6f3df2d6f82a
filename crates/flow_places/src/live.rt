//! Live variables of flow graphs.
ghost use Rattle.std.specs.Prelude.{◌≡◌, ◌<◌, [], ◌∷◌, ◌||◌, ℕ, true, false, length, slice_index_or, vec_len, IsTrue, IfOk, OnOk, Some};
ghost use Rattle.flow_model.specs.Polish.{graph_of};
ghost use Rattle.flow_places.specs.Live.{live as is_live};
ghost use Rattle.flow_places.specs.Tables.{same_mark, noted};
ghost use Rattle.flow_places.specs.Working.Marks.{is_marked, Becomes, live_at, live_over, live_in, live_or_noted, HasMarks, IsUpdated, IsKeptBut, AreSwept, ReportsChange};

use crate::reads::{mark_cond, mark_values, unmark};
use crate::walk::has_mark;
use flow_model::{Block, Jump, Statement};
use kat_model::NoMemory;
use std::alloc::Global;

// Adds the marks of another row.
fn join(other: &[bool], live: &mut [bool])
    ensures { Becomes live.old live.new (λ x. is_marked live.old x || is_marked other.now x) }
{
    for k in 0..live.len() {
        if other.get(k).copied().unwrap_or(false) {
            live[k] = true;
        }
    }
}

// Adds the marks of the row of a block.
fn join_row(table: &[Vec<bool>], block: usize, live: &mut [bool])
    ensures { Becomes live.old live.new (λ x. is_marked live.old x || noted table.now x block) }
{
    if let Some(row) = table.get(block) {
        join(row, live);
    }
}

// Marks what is live before a jump.
#[tactic(auto, using(crate::proofs::LiveRows::at_goto, crate::proofs::LiveRows::at_branch, crate::proofs::LiveRows::at_return))]
fn mark_jump(table: &[Vec<bool>], jump: &Jump, live: &mut [bool])
    requires { (x : ℕ) → slice_index_or live.old x false ≡ false }
    ensures { Becomes live.old live.new (live_at table.now jump.now) }
{
    match jump {
        Jump::Goto(k) => join_row(table, *k, live),
        Jump::Branch(cond, k, l) => {
            join_row(table, *k, live);
            join_row(table, *l, live);
            mark_cond(cond, live);
        }
        Jump::Return(values) => mark_values(values, live),
        Jump::Abort => {}
    }
}

// Marks what is live before a statement, where what is live after it is marked.
#[tactic(auto, using(crate::proofs::LiveRows::at_assign))]
fn mark_statement(statement: &Statement, live: &mut [bool])
    ensures { Becomes live.old live.new (live_over (statement.now ∷ []) live.old) }
{
    match statement {
        Statement::Assign(targets, values) => {
            unmark(targets, live);
            mark_values(values, live);
        }
        Statement::Claim(cond) => mark_cond(cond, live),
    }
}

// Marks what is live before statements, where what is live after them is marked.
#[tactic(auto, using(crate::proofs::LiveRows::none_left))]
fn mark_statements(statements: &[Statement], live: &mut [bool])
    ensures { Becomes live.old live.new (live_over statements.now live.old) }
{
    let mut rest = statements;
    'statements: while let Some((statement, _)) = rest.split_last() {
        mark_statement(statement, live);
        rest = &rest[..rest.len() - 1];
    }
}

// Marks what is live at a block.
fn mark_block(table: &[Vec<bool>], block: &Block, live: &mut [bool])
    requires { (x : ℕ) → slice_index_or live.old x false ≡ false }
    ensures { Becomes live.old live.new (live_in table.now block.now) }
{
    mark_jump(table, &block.jump, live);
    mark_statements(&block.statements, live);
}

// Returns the row of a block: what is live there, and what is noted already.
fn new_row(
    alloc: Global,
    table: &[Vec<bool>],
    variables: usize,
    block: &Block,
    number: usize,
) -> Result<Vec<bool>, NoMemory>
    ensures width { IfOk result (λ row. vec_len row ≡ variables) }
    ensures row { IfOk result (HasMarks variables (live_or_noted table.now block.now number)) }
{
    let mut row = vec![in alloc; false; variables]?;
    mark_block(table, block, &mut row);
    join_row(table, number, &mut row);
    Ok(row)
}

fn is_same(left: bool, right: bool) -> bool
    ensures { result ≡ same_mark left right }
{
    left == right
}

// Returns whether all marks of the row are as in another row.
#[tactic(auto, using(crate::proofs::Marks::same_marks))]
fn is_same_row(row: &[bool], other: &[bool]) -> bool
    ensures { IsTrue result → Becomes row.now row.now (is_marked other.now) }
{
    for k in 0..row.len() {
        let same = is_same(has_mark(row, k), has_mark(other, k));
        if !same {
            return false;
        }
    }
    true
}

// Returns whether all marks of the row are as in the row of a block.
fn is_noted(table: &[Vec<bool>], number: usize, row: &[bool]) -> bool
    ensures { IsTrue result → Becomes row.now row.now (λ x. noted table.now x number) }
{
    match table.get(number) {
        Some(other) => is_same_row(row, other),
        None => false,
    }
}

// Brings the row of a block up to date. Returns whether it changed.
fn update(
    alloc: Global,
    table: &mut Vec<Vec<bool>>,
    variables: usize,
    block: &Block,
    number: usize,
) -> Result<bool, NoMemory>
    requires { number < vec_len table.old }
    ensures rows { OnOk result (vec_len table.new ≡ vec_len table.old) }
    ensures here { OnOk result (IsUpdated variables block.now number table.old table.new) }
    ensures elsewhere { OnOk result (IsKeptBut number table.old table.new) }
    ensures unchanged { ReportsChange result table.old table.new }
{
    let row = new_row(alloc, table, variables, block, number)?;
    if is_noted(table, number, &row) {
        return Ok(false);
    }
    table[number] = row;
    Ok(true)
}

fn either(first: bool, second: bool) -> bool
    ensures { result ≡ (first || second) }
{
    first || second
}

// Brings all rows up to date, the last one first. Returns whether one of them changed.
fn sweep(
    alloc: Global,
    blocks: &[Block],
    variables: usize,
    table: &mut Vec<Vec<bool>>,
) -> Result<bool, NoMemory>
    requires { vec_len table.old ≡ length blocks.now }
    ensures rows { OnOk result (vec_len table.new ≡ vec_len table.old) }
    ensures swept { OnOk result (AreSwept blocks.now variables table.old table.new) }
    ensures unchanged { ReportsChange result table.old table.new }
{
    let mut changed = false;
    for step in 0..blocks.len() {
        let number = blocks.len() - (step + 1);
        let one = update(alloc, table, variables, &blocks[number], number)?;
        changed = either(changed, one);
    }
    Ok(changed)
}

// Returns a table in which nothing is live.
fn no_rows(alloc: Global, count: usize) -> Result<Vec<Vec<bool>>, NoMemory>
    ensures rows { IfOk result (λ table. vec_len table ≡ count) }
    ensures none { IfOk result (λ table. (x k : ℕ) → noted table.items x k ≡ false) }
{
    let mut table = Vec::new(alloc);
    for _k in 0..count {
        let row = Vec::new(alloc);
        table.push(row)?;
    }
    Ok(table)
}

/// Returns for each block which of the first `variables` variables are live there. Fails only when out of memory.
pub fn live_sets(
    alloc: Global,
    blocks: &[Block],
    variables: usize,
) -> Result<Vec<Vec<bool>>, NoMemory>
    ensures { IfOk result (λ table. (k x : ℕ) → x < variables → noted table.items x k ≡ is_live (graph_of blocks.now) k x) }
{
    let mut table = no_rows(alloc, blocks.len())?;
    for _round in 0..blocks.len() {
        let changed = sweep(alloc, blocks, variables, &mut table)?;
        if !changed {
            return Ok(table);
        }
    }
    Ok(table)
}
