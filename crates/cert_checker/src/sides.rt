//! What is known of the targets of both sides of a question, as far as the decided tests determine it.
ghost use Rattle.std.specs.Prelude.{◌≡◌, IfOk, OnOk};
ghost use Rattle.cert_checker.specs.Cases.{known_of};
ghost use Rattle.cert_checker.specs.Sides.{has_too as has_too', is_sure as is_sure', IsTargetSide};
ghost use Rattle.cert_checker.specs.Working.AddedTargets.{AddsPossible, AddsTarget};

use crate::derivatives::Targets;
use crate::known::{Truth, is_true, value_of};
use kat_model::NoMemory;
use std::alloc::Global;

/// What is known of the targets of one side of a question: the terms that are surely in its set, in ascending order;
/// the open terms, which may be in it at an atom at which they are not in the other set; a test that the guard of an
/// open term depends on; and a test that the guard of some target depends on.
pub(crate) struct TargetSide {
    pub sure: Vec<usize>,
    pub alone: Vec<usize>,
    pub alone_waits: Option<usize>,
    pub waits: Option<usize>,
}

// Explicit, so that it is proved once and not at each end of each function that owns one.
impl Drop for TargetSide {
    fn drop(self) {
        let TargetSide {
            sure: _sure,
            alone: _alone,
            alone_waits: _,
            waits: _,
        } = self;
    }
}

/// Both sides of a question.
pub(crate) struct TargetSides {
    pub left: TargetSide,
    pub right: TargetSide,
}

// Explicit, so that it is proved once and not at each end of each function that owns one.
impl Drop for TargetSides {
    fn drop(self) {
        let TargetSides {
            left: _left,
            right: _right,
        } = self;
    }
}

// Whether `term` is surely among the targets wherever `guard` is true.
fn has_too(targets: &Targets, term: usize, guard: usize, known: &[Truth]) -> bool
    ensures { result ≡ has_too' known.now targets.now.entries term guard }
{
    match targets.get(&term) {
        Some(other) => *other == guard || is_true(value_of(known, *other)),
        None => false,
    }
}

// Adds a target that may be present and whose guard depends on the test, if any. The term is open unless it is surely
// among the others wherever the guard is true.
fn add_possible(
    side: &mut TargetSide,
    others: &Targets,
    known: &[Truth],
    term: usize,
    guard: usize,
    waits: Option<usize>,
) -> Result<(), NoMemory>
    ensures { OnOk result (AddsPossible (has_too' known.now others.now.entries term guard) term waits side.old.sure.items side.old side.new) }
{
    side.waits = side.waits.or(waits);
    if has_too(others, term, guard, known) {
        return Ok(());
    }
    side.alone_waits = side.alone_waits.or(waits);
    side.alone.push(term)?;
    Ok(())
}

// Adds a target, by what is known of its guard.
fn add_target(
    side: &mut TargetSide,
    others: &Targets,
    known: &[Truth],
    term: usize,
    guard: usize,
) -> Result<(), NoMemory>
    ensures { OnOk result (AddsTarget (known_of known.now guard) (has_too' known.now others.now.entries term guard) term side.old side.new) }
{
    match value_of(known, guard) {
        Truth::Known(false) => Ok(()),
        Truth::Known(true) => {
            side.sure.push(term)?;
            add_possible(side, others, known, term, guard, None)
        }
        Truth::Undecided(test) => add_possible(side, others, known, term, guard, Some(test)),
    }
}

/// Returns what is known of the targets of one side, given those of the other.
pub(crate) fn side_of(
    alloc: Global,
    targets: &Targets,
    others: &Targets,
    known: &[Truth],
) -> Result<TargetSide, NoMemory>
    ensures { IfOk result (IsTargetSide known.now others.now.entries targets.now.entries) }
{
    let mut side = TargetSide {
        sure: Vec::new(alloc),
        alone: Vec::new(alloc),
        alone_waits: None,
        waits: None,
    };
    for (term, guard) in targets.iter() {
        add_target(&mut side, others, known, *term, *guard)?;
    }
    Ok(side)
}

/// Whether the term is surely among the targets.
pub(crate) fn is_sure(targets: &Targets, term: usize, known: &[Truth]) -> bool
    ensures { result ≡ is_sure' known.now targets.now.entries term }
{
    match targets.get(&term) {
        Some(guard) => is_true(value_of(known, *guard)),
        None => false,
    }
}
