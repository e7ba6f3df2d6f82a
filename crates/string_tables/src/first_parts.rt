//! The parts of a string that a term accepts, found in one pass over the string for a range of beginnings.
ghost use Rattle.std.specs.Prelude.{◌≡◌, ◌≤◌, ◌+◌, ◌&&◌, nat_le, length, MatchOption, IfOk};
ghost use Rattle.kat_model.specs.Trees.{kat_tree};
ghost use Rattle.string_tables.specs.Parts.{atom_of, is_between as is_between', MayBeRead, IsFirstEnd, HasNoEnd, AcceptsNoneBefore, HasPart, IsFirstPart};

use crate::marks::{Marks, reach, step};
use crate::string::GString;
use kat_model::{Kat, NoMemory};
use std::alloc::Global;

// Returns the atom at a position.
fn atom_at(string: &GString, position: usize) -> &[bool]
    requires { position ≤ length string.now.rest }
    ensures { result.now ≡ atom_of string.now position }
{
    if position == 0 {
        return string.first.as_slice();
    }
    let moves = string.rest.as_slice();
    let m = &moves[position - 1];
    m.atom.as_slice()
}

// Whether the number is at least `from`, and below `to`.
fn is_between(number: usize, from: usize, to: usize) -> bool
    ensures { result ≡ is_between' from to number }
{
    from <= number && number < to
}

// Whether a part ends at the position, and the position is at least `after`.
fn is_late(ends: bool, after: usize, position: usize) -> bool
    ensures { result ≡ (ends && nat_le after position) }
{
    ends && after <= position
}

/// Returns the first position from `after` on at which a part ends that the term accepts and that begins at a position
/// from `from` on and before `to`.
pub(crate) fn first_end(
    alloc: Global,
    string: &GString,
    term: &Kat,
    from: usize,
    to: usize,
    after: usize,
) -> Result<Option<usize>, NoMemory>
    requires { MayBeRead string.now (kat_tree term.now) }
    ensures { IfOk result (λ end. MatchOption end (HasNoEnd string.now (kat_tree term.now) from to after) (λ j. IsFirstEnd string.now (kat_tree term.now) from to after j)) }
{
    let moves = string.rest.as_slice();
    let mut marks = Marks::Nowhere;
    for (k, m) in moves.iter().enumerate() {
        let begins = is_between(k, from, to);
        let atom = atom_at(string, k);
        let ends = step(alloc, term, &mut marks, begins, atom, m.act)?;
        if is_late(ends, after, k) {
            return Ok(Some(k));
        }
    }
    let last = moves.len();
    let starts = is_between(last, from, to);
    let final_atom = atom_at(string, last);
    let is_reached = reach(term, &marks, starts, final_atom);
    if is_late(is_reached, after, last) {
        Ok(Some(last))
    } else {
        Ok(None)
    }
}

// Returns the first position at which a part begins that the term accepts, by bisection. There must be one.
fn first_start(alloc: Global, string: &GString, term: &Kat) -> Result<usize, NoMemory>
    requires read { MayBeRead string.now (kat_tree term.now) }
    requires some { HasPart string.now (kat_tree term.now) 0 (length string.now.rest + 1) }
    ensures none { IfOk result (λ i. AcceptsNoneBefore string.now (kat_tree term.now) i) }
    ensures some { IfOk result (λ i. HasPart string.now (kat_tree term.now) i (i + 1)) }
{
    let mut low = 0;
    let mut high = string.rest.as_slice().len() + 1;
    'halves: while low + 1 < high {
        let middle = low + (high - low) / 2;
        let below = first_end(alloc, string, term, low, middle, 0)?;
        match below {
            Some(_) => high = middle,
            None => low = middle,
        }
    }
    Ok(low)
}

/// Returns the first part that the term accepts, by its first and last positions.
pub(crate) fn first_part(
    alloc: Global,
    string: &GString,
    term: &Kat,
) -> Result<Option<(usize, usize)>, NoMemory>
    requires { MayBeRead string.now (kat_tree term.now) }
    ensures { IfOk result (λ part. MatchOption part (AcceptsNoneBefore string.now (kat_tree term.now) (length string.now.rest + 1)) (λ p. IsFirstPart string.now (kat_tree term.now) p.0 p.1)) }
{
    let count = string.rest.as_slice().len() + 1;
    let any = first_end(alloc, string, term, 0, count, 0)?;
    if let None = any {
        return Ok(None);
    }
    let start = first_start(alloc, string, term)?;
    let found = first_end(alloc, string, term, start, start + 1, 0)?;
    match found {
        Some(end) => Ok(Some((start, end))),
        None => Ok(None),
    }
}
