//! The sides of a goal: their names, which one relates the ends of a string, and where each program is then.
ghost use Rattle.std.specs.Prelude.{◌≡◌, ◌++◌, ℕ, None, IfSome, OnOk};
ghost use Rattle.while_lang.specs.Trees.{goal_tree, side_tree};
ghost use Rattle.tool_explain.specs.Differences.{IsNameOfProg, IsListed, IsSideName, AreSideNames, relation_line, sides_line, triple_line, place_line, blocked_line, at_action_line, ended_line, side_line, goal_lines};

use crate::place::{Place, place_of};
use abstraction::{Abstract, flow_of};
use kat_model::NoMemory;
use kat_report::put_path;
use std::alloc::Global;
use string_tables::GString;
use text_print::{put, put_numbered};
use while_lang::{File, Goal, Prog, Side};

// Returns the name of the first program of the file that is this program.
fn prog_name<'a>(file: &'a File, prog: &Prog) -> Option<&'a [u8]>
    ensures named { IfSome result (λ name. IsNameOfProg file.now prog.now name.now) }
    ensures none { result ≡ None → (i : ℕ) → IsListed file.now prog.now i → ⊥ }
{
    for named in &file.progs {
        if named.prog.same(prog) {
            return Some(named.name.as_slice());
        }
    }
    None
}

// Returns the name of a side: that of its program, or the word.
fn side_name<'a>(file: &'a File, word: &'static [u8], side: &Side) -> &'a [u8]
    ensures { IsSideName file.now word.now (side_tree side.now) result.now }
{
    match side {
        Side::Term(_) => word,
        Side::Prog(prog) => match prog_name(file, prog) {
            Some(name) => name,
            None => word,
        },
    }
}

fn put_relation_line(out: &mut Vec<u8>, relating: &[u8], other: &[u8]) -> Result<(), NoMemory>
    ensures { OnOk result (out.new.items ≡ out.old.items ++ relation_line relating.now other.now) }
{
    put(out, relating)?;
    put(out, b" relates the ends, ")?;
    put(out, other)?;
    put(out, b" does not\n")
}

// Writes which side relates the ends.
fn put_sides_line(out: &mut Vec<u8>, left: bool, l: &[u8], r: &[u8]) -> Result<(), NoMemory>
    ensures { OnOk result (out.new.items ≡ out.old.items ++ sides_line left l.now r.now) }
{
    if left {
        put_relation_line(out, l, r)
    } else {
        put_relation_line(out, r, l)
    }
}

fn put_triple_line(
    alloc: Global,
    out: &mut Vec<u8>,
    name: &[u8],
    last: usize,
) -> Result<(), NoMemory>
    ensures { OnOk result (out.new.items ≡ out.old.items ++ triple_line name.now last) }
{
    put(out, name)?;
    put(
        out,
        b" relates the ends: the precondition holds at 0, the postcondition fails at ",
    )?;
    put_numbered(alloc, out, "", last)?;
    put(out, b"\n")
}

fn put_ended_line(
    alloc: Global,
    out: &mut Vec<u8>,
    name: &[u8],
    last: usize,
    at: usize,
) -> Result<(), NoMemory>
    ensures { OnOk result (out.new.items ≡ out.old.items ++ ended_line name.now last at) }
{
    put(out, name)?;
    if at == last {
        return put(out, b" has ended\n");
    }
    put_numbered(alloc, out, " has ended too early, at ", at)?;
    put(out, b"\n")
}

fn put_blocked_line(
    alloc: Global,
    out: &mut Vec<u8>,
    name: &[u8],
    at: usize,
    path: &[usize],
) -> Result<(), NoMemory>
    ensures { OnOk result (out.new.items ≡ out.old.items ++ blocked_line name.now at path.now) }
{
    put(out, name)?;
    put_numbered(alloc, out, " cannot continue at ", at)?;
    put(out, b": it is at ")?;
    put_path(alloc, out, path)?;
    put(out, b"\n")
}

fn put_at_action_line(
    alloc: Global,
    out: &mut Vec<u8>,
    name: &[u8],
    last: usize,
    at: usize,
    path: &[usize],
) -> Result<(), NoMemory>
    ensures { OnOk result (out.new.items ≡ out.old.items ++ at_action_line name.now last at path.now) }
{
    if at != last {
        return put_blocked_line(alloc, out, name, at, path);
    }
    put(out, name)?;
    put(out, b" has more to do: it is at ")?;
    put_path(alloc, out, path)?;
    put(out, b"\n")
}

// Writes where a program is.
fn put_place(
    alloc: Global,
    out: &mut Vec<u8>,
    name: &[u8],
    last: usize,
    place: &Place,
) -> Result<(), NoMemory>
    ensures { OnOk result (out.new.items ≡ out.old.items ++ place_line name.now last place.now) }
{
    match place {
        Place::Ended(at) => put_ended_line(alloc, out, name, last, *at),
        Place::Blocked(at, path) => put_blocked_line(alloc, out, name, *at, path.as_slice()),
        Place::AtAction(at, path) => put_at_action_line(
            alloc,
            out,
            name,
            last,
            *at,
            path.as_slice(),
        ),
    }
}

// Writes where a side is after the string, if it is a program.
fn put_side(
    alloc: Global,
    out: &mut Vec<u8>,
    shown: &Abstract,
    string: &GString,
    name: &[u8],
    side: &Side,
) -> Result<(), NoMemory>
    ensures { OnOk result (out.new.items ≡ out.old.items ++ side_line shown.now string.now name.now (side_tree side.now)) }
{
    match side {
        Side::Term(_) => Ok(()),
        Side::Prog(prog) => {
            let flows = flow_of(alloc, shown, prog)?;
            let place = place_of(alloc, &flows, string)?;
            put_place(alloc, out, name, string.rest.as_slice().len(), &place)
        }
    }
}

/// The names of the sides of a goal.
#[derive(Clone, Copy)]
pub(crate) struct SideNames<'a> {
    pub left: &'a [u8],
    pub right: &'a [u8],
}

/// Returns the names of the sides of the goal.
pub(crate) fn side_names(file: &File) -> SideNames<'_>
    ensures { AreSideNames file.now file.now.goal result.left.now result.right.now }
{
    match &file.goal {
        Goal::Equal(left, right) | Goal::Below(left, right) => SideNames {
            left: side_name(file, b"left", left),
            right: side_name(file, b"right", right),
        },
        Goal::Triple(_, body, _) => SideNames {
            left: side_name(file, b"body", body),
            right: b"",
        },
    }
}

// Writes the lines of two sides.
fn put_both(
    alloc: Global,
    out: &mut Vec<u8>,
    shown: &Abstract,
    string: &GString,
    left: bool,
    names: &SideNames<'_>,
    first: &Side,
    second: &Side,
) -> Result<(), NoMemory>
    ensures { OnOk result (out.new.items ≡ out.old.items ++ (sides_line left names.now.left.now names.now.right.now
        ++ side_line shown.now string.now names.now.left.now (side_tree first.now) ++ side_line shown.now string.now names.now.right.now (side_tree second.now))) }
{
    put_sides_line(out, left, names.left, names.right)?;
    put_side(alloc, out, shown, string, names.left, first)?;
    put_side(alloc, out, shown, string, names.right, second)
}

/// Writes which side relates the ends of the string, and where each program is after it.
pub(crate) fn put_goal_lines(
    alloc: Global,
    out: &mut Vec<u8>,
    shown: &Abstract,
    string: &GString,
    left: bool,
    names: &SideNames<'_>,
    goal: &Goal,
) -> Result<(), NoMemory>
    ensures { OnOk result (out.new.items ≡ out.old.items ++ goal_lines shown.now string.now left names.now.left.now names.now.right.now (goal_tree goal.now)) }
{
    match goal {
        Goal::Equal(s, t) | Goal::Below(s, t) => {
            put_both(alloc, out, shown, string, left, names, s, t)
        }
        Goal::Triple(_, _, _) => {
            put_triple_line(alloc, out, names.left, string.rest.as_slice().len())
        }
    }
}
