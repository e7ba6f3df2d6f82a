//! Following a string through the statements of a program.
ghost use Rattle.std.specs.Prelude.{◌≡◌, ◌≤◌, ◌++◌, ℕ, List, [], ◌∷◌, None, IfOk, OnOk};
ghost use Rattle.kat_model.specs.Trees.{test_tree};
ghost use Rattle.while_lang.specs.Flows.{assert, act};
ghost use Rattle.while_lang.specs.FlowViews.{flow_stmt, flows_tree};
ghost use Rattle.tool_explain.specs.Places.{path_in};
ghost use Rattle.tool_explain.specs.Working.Walks.{end_of, list_end, stmt_end, without_last};

use crate::cursor::Cursor;
use kat_model::{NoMemory, Test};
use while_lang::{Flow, Flows};

/// Why a walk stops at a statement.
#[derive(Clone, Copy)]
pub enum Stop {
    /// It takes no action and does not end.
    Blocked,
    /// It is an action, and the string does not continue with it.
    AtAction,
}

fn push_number(path: &mut Vec<usize>, number: usize) -> Result<(), NoMemory>
    ensures { OnOk result (path.new.items ≡ path.old.items ++ number ∷ []) }
{
    Ok(path.push(number)?)
}

// Removes the last number of the path of a part that has ended.
fn leave(stop: Option<Stop>, path: &mut Vec<usize>)
    ensures left { stop ≡ None → path.new.items ≡ without_last path.old.items }
    ensures kept { (k : ℕ) → end_of stop k path.new.items ≡ end_of stop k path.old.items }
{
    match stop {
        None => {
            path.pop();
        }
        Some(_) => {}
    }
}

fn walk_assert(test: &Test, cursor: &Cursor<'_>) -> Option<Stop>
    ensures { (path : List ℕ) → end_of result cursor.now.at path ≡ stmt_end cursor.now.string.now path (assert (test_tree test.now)) cursor.now.at }
{
    if cursor.holds(test) {
        None
    } else {
        Some(Stop::Blocked)
    }
}

fn walk_act(action: usize, cursor: &mut Cursor<'_>) -> Option<Stop>
    ensures walked { (path : List ℕ) → end_of result cursor.new.at path ≡ stmt_end cursor.old.string.now path (act action) cursor.old.at }
    ensures string { cursor.new.string.now ≡ cursor.old.string.now }
    ensures onward { cursor.old.at ≤ cursor.new.at }
{
    if cursor.follow(action) {
        None
    } else {
        Some(Stop::AtAction)
    }
}

// Walks through the statement at the path. If it ends, returns `None`, and the path is as before. Otherwise the path
// leads to the statement at which the walk stops. A turn of a loop that takes no action would be repeated forever.
#[cycle(walks)]
fn walk_stmt(
    stmt: &Flow,
    cursor: &mut Cursor<'_>,
    path: &mut Vec<usize>,
) -> Result<Option<Stop>, NoMemory>
    ensures walked { IfOk result (λ stop. end_of stop cursor.new.at path.new.items ≡ stmt_end cursor.old.string.now path.old.items (flow_stmt stmt.now) cursor.old.at) }
    ensures back { IfOk result (λ stop. stop ≡ None → path.new.items ≡ path.old.items) }
    ensures string { cursor.new.string.now ≡ cursor.old.string.now }
    ensures onward { cursor.old.at ≤ cursor.new.at }
{
    match stmt {
        Flow::Skip => Ok(None),
        Flow::Abort => Ok(Some(Stop::Blocked)),
        Flow::Assert(b) => Ok(walk_assert(b, cursor)),
        Flow::Act(a) => Ok(walk_act(*a, cursor)),
        Flow::If(b, f, g) => {
            if cursor.holds(b) {
                return walk_block(f, 0, cursor, path);
            }
            walk_block(g, 1, cursor, path)
        }
        Flow::While(b, f) => {
            'turns: while cursor.holds(b) {
                let before = cursor.at;
                let turn = walk_block(f, 0, cursor, path)?;
                if let Some(stop) = turn {
                    return Ok(Some(stop));
                }
                if cursor.at == before {
                    return Ok(Some(Stop::Blocked));
                }
            }
            Ok(None)
        }
    }
}

// Walks through the block with this number of the statement at the path. If it ends, returns `None`, and the path is as
// before. Otherwise the path leads to the statement at which the walk stops.
#[cycle(walks)]
fn walk_block(
    block: &Flows,
    number: usize,
    cursor: &mut Cursor<'_>,
    path: &mut Vec<usize>,
) -> Result<Option<Stop>, NoMemory>
    ensures walked { IfOk result (λ stop. end_of stop cursor.new.at path.new.items ≡ list_end cursor.old.string.now (path_in path.old.items number) 0 block.now cursor.old.at) }
    ensures back { IfOk result (λ stop. stop ≡ None → path.new.items ≡ path.old.items) }
    ensures string { cursor.new.string.now ≡ cursor.old.string.now }
    ensures onward { cursor.old.at ≤ cursor.new.at }
{
    push_number(path, number)?;
    let stop = walk_list(&block.list, cursor, path)?;
    leave(stop, path);
    Ok(stop)
}

/// Walks through statements in order, whose base is the path. If all of them end, returns `None`, and the path is as
/// before. Otherwise the path leads to the statement at which the walk stops.
#[cycle(walks)]
pub(crate) fn walk_list(
    list: &[Flow],
    cursor: &mut Cursor<'_>,
    path: &mut Vec<usize>,
) -> Result<Option<Stop>, NoMemory>
    ensures walked { IfOk result (λ stop. end_of stop cursor.new.at path.new.items ≡ list_end cursor.old.string.now path.old.items 0 (flows_tree list.now) cursor.old.at) }
    ensures back { IfOk result (λ stop. stop ≡ None → path.new.items ≡ path.old.items) }
    ensures string { cursor.new.string.now ≡ cursor.old.string.now }
    ensures onward { cursor.old.at ≤ cursor.new.at }
{
    for (k, stmt) in list.iter().enumerate() {
        push_number(path, k)?;
        let part = walk_stmt(stmt, cursor, path)?;
        leave(part, path);
        if let Some(stop) = part {
            return Ok(Some(stop));
        }
    }
    Ok(None)
}
