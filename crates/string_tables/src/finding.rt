//! What a string shows of a problem.
ghost use Rattle.std.specs.Prelude.{◌≡◌, ◌↔◌, IfOk, IsTrue};
ghost use Rattle.string_tables.specs.Tables.{Refutes};
ghost use Rattle.string_tables.specs.Findings.{IsFinding};

use crate::broken::{first_broken, relates_ends};
use crate::shape::misfit;
use crate::string::GString;
use kat_model::{NoMemory, Problem};
use std::alloc::Global;

/// What a string shows of a problem. Positions, hypotheses and states are numbered from 0.
#[derive(Clone, Copy, PartialEq, Eq)]
pub enum Finding {
    /// The string refutes the problem. The flag is true if the left side relates the ends.
    Refutes(bool),
    /// At this position the atom does not assign every test, or the action into it is out of range.
    Shape(usize),
    /// This hypothesis relates the first of these positions to the second.
    HypBroken(usize, usize, usize),
    /// Both sides relate the ends, or neither does.
    EndsAgree(bool),
}

/// Returns what the string shows of the problem: the first of these cases that holds, with its least numbers.
///
/// 1. `Shape(k)`: k is the least position whose atom does not assign every test, or whose action into it is out of
///    range.
/// 2. `HypBroken(h, i, j)`: the least triple such that hypothesis h relates i to j in the string's table.
/// 3. `EndsAgree(true)` if both sides relate the first position to the last, and `EndsAgree(false)` if neither does.
/// 4. `Refutes(b)`: exactly one side relates them, the left side if b is true.
///
/// A pass over the string visits at each move the parts of the term that have a mark or begin, and takes memory by the
/// marks. Fails only when out of memory.
pub fn verdict(alloc: Global, problem: &Problem, string: &GString) -> Result<Finding, NoMemory>
    ensures { IfOk result (λ finding. IsFinding problem.now string.now finding) }
{
    if let Some(k) = misfit(problem, string) {
        return Ok(Finding::Shape(k));
    }
    let broken = first_broken(alloc, string, problem.hyps())?;
    if let Some((h, i, j)) = broken {
        return Ok(Finding::HypBroken(h, i, j));
    }
    let left = relates_ends(alloc, string, problem.left())?;
    let right = relates_ends(alloc, string, problem.right())?;
    if left == right {
        Ok(Finding::EndsAgree(left))
    } else {
        Ok(Finding::Refutes(left))
    }
}

/// Returns whether the string refutes the problem: it fits, its table keeps the hypotheses, and exactly one side
/// relates its ends. Fails only when out of memory.
pub fn refutes(alloc: Global, problem: &Problem, string: &GString) -> Result<bool, NoMemory>
    ensures { IfOk result (λ shown. IsTrue shown ↔ Refutes problem.now string.now) }
{
    match verdict(alloc, problem, string)? {
        Finding::Refutes(_) => Ok(true),
        _ => Ok(false),
    }
}
