//! Finding an atom at which two diagrams differ.
ghost use Rattle.std.specs.Prelude.{◌≡◌, ◌≢◌, ◌<◌, ◌&&◌, not, true, false, IsTrue, IfOk, slice_set};
ghost use Rattle.test_diagrams.specs.Functions.{value_of, IsDiagramId, IsDiagramOf, IsAtomOf, KeepsFunctions};
ghost use Rattle.test_diagrams.specs.Reduced.{IsReduced};
ghost use Rattle.walk_pairs.specs.Outputs.{one_of, IsSomewhereTrue, IsFirstValue};

use kat_model::NoMemory;
use std::alloc::Global;
use test_diagrams::{DiagramId, Diagrams};

/// Returns the diagram that is true where `a` is true and `b` is false. On failure, extra diagrams may remain.
pub fn and_not(diagrams: &mut Diagrams, a: DiagramId, b: DiagramId) -> Result<DiagramId, NoMemory>
    requires first { IsDiagramId diagrams.old a }
    requires second { IsDiagramId diagrams.old b }
    ensures function { IfOk result (λ id. IsDiagramOf diagrams.new id (λ atom. value_of diagrams.old a atom && not (value_of diagrams.old b atom))) }
    ensures kept { KeepsFunctions diagrams.old diagrams.new }
    ensures reduced { IsReduced diagrams.new }
{
    let not_b = diagrams.not(b)?;
    diagrams.and(a, not_b)
}

/// Returns the diagram of the exclusive or of `a` and `b`. On failure, extra diagrams may remain.
pub fn difference(
    diagrams: &mut Diagrams,
    a: DiagramId,
    b: DiagramId,
) -> Result<DiagramId, NoMemory>
    requires first { IsDiagramId diagrams.old a }
    requires second { IsDiagramId diagrams.old b }
    ensures function { IfOk result (λ id. IsDiagramOf diagrams.new id (λ atom. one_of (value_of diagrams.old a atom) (value_of diagrams.old b atom))) }
    ensures kept { KeepsFunctions diagrams.old diagrams.new }
    ensures reduced { IsReduced diagrams.new }
{
    let only_a = and_not(diagrams, a, b)?;
    let only_b = and_not(diagrams, b, a)?;
    diagrams.or(only_a, only_b)
}

// Returns a value of the test with which the diagram is true at some atom, if possible `wish`. The diagram must be true
// somewhere.
fn value_for(
    diagrams: &mut Diagrams,
    id: DiagramId,
    test: usize,
    wish: bool,
) -> Result<bool, NoMemory>
    requires id { IsDiagramId diagrams.old id }
    requires in_range { test < diagrams.old.tests }
    requires somewhere { IsSomewhereTrue diagrams.old id }
    ensures value { IfOk result (IsFirstValue diagrams.old id test) }
    ensures kept { KeepsFunctions diagrams.old diagrams.new }
{
    let part = diagrams.fix(id, test, wish)?;
    if part == diagrams.constant(false) {
        return Ok(!wish);
    }
    Ok(wish)
}

/// Returns an atom at which the diagram is true. The diagram must be true somewhere. From the first test on, each has
/// its value in `like` where possible, and otherwise is false where possible; no clause depends on this.
pub fn true_atom(
    alloc: Global,
    diagrams: &mut Diagrams,
    id: DiagramId,
    like: &[bool],
) -> Result<Vec<bool>, NoMemory>
    requires id { IsDiagramId diagrams.old id }
    requires somewhere { IsSomewhereTrue diagrams.old id }
    ensures fits { IfOk result (λ v. IsAtomOf diagrams.old v.items) }
    ensures holds { IfOk result (λ v. IsTrue (value_of diagrams.old id v.items)) }
    ensures kept { KeepsFunctions diagrams.old diagrams.new }
{
    let mut rest = id;
    let mut atom = Vec::new(alloc);
    for test in 0..diagrams.tests() {
        let wish = like.get(test).copied().unwrap_or(false);
        let value = value_for(diagrams, rest, test, wish)?;
        rest = diagrams.fix(rest, test, value)?;
        atom.push(value)?;
    }
    Ok(atom)
}

/// Returns an atom at which the diagrams differ. Their ids must be different.
pub fn differing_atom(
    alloc: Global,
    diagrams: &mut Diagrams,
    a: DiagramId,
    b: DiagramId,
) -> Result<Vec<bool>, NoMemory>
    requires first { IsDiagramId diagrams.old a }
    requires second { IsDiagramId diagrams.old b }
    requires two { a ≢ b }
    ensures fits { IfOk result (λ v. IsAtomOf diagrams.old v.items) }
    ensures differ { IfOk result (λ v. value_of diagrams.old a v.items ≢ value_of diagrams.old b v.items) }
    ensures kept { KeepsFunctions diagrams.old diagrams.new }
{
    let apart = difference(diagrams, a, b)?;
    true_atom(alloc, diagrams, apart, &[])
}
