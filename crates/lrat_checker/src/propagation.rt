//! Unit propagation along hints.
ghost use Rattle.std.specs.Prelude.{◌≡◌, IfOk};
ghost use Rattle.lrat_checker.specs.Accepted.{Clauses};
ghost use Rattle.lrat_checker.specs.Working.KnownClauses.{Knows};
ghost use Rattle.lrat_checker.specs.Working.Steps.{IsStep, IsHintsVerdict};

use crate::answer::Reason;
use crate::falses::Falses;
use crate::known::{Known, KnownClauses};
use crate::proof::Ids;
use crate::status::{Status, status_of};
use kat_model::NoMemory;

// What a hint does.
#[derive(Clone, Copy)]
enum HintStep {
    // Its clause is falsified.
    Conflict,
    // Its clause is unit, and its literal is true now.
    Propagated,
    // It fails, for this reason.
    Fails(Reason),
}

fn step_by(falses: &mut Falses, known: &KnownClauses, hint: u64) -> Result<HintStep, NoMemory>
    ensures { (c : Clauses) → Knows known.now c → IfOk result (IsStep c.known falses.old hint falses.new) }
{
    let clause = match known.entry(hint) {
        None => return Ok(HintStep::Fails(Reason::UnknownHint(hint))),
        Some(Known::Deleted) => return Ok(HintStep::Fails(Reason::DeletedHint(hint))),
        Some(Known::Present(clause)) => clause,
    };
    match status_of(falses, clause) {
        Status::AllFalse => Ok(HintStep::Conflict),
        Status::OneOpen(literal) => {
            falses.add(literal.opposite())?;
            Ok(HintStep::Propagated)
        }
        Status::TwoOpen => Ok(HintStep::Fails(Reason::HintNotUnit(hint))),
    }
}

/// Returns why unit propagation along the hints leads to no conflict, or `None` if it leads to one. After a refusal the
/// literals must not be used.
pub(crate) fn hints_reason(
    falses: &mut Falses,
    known: &KnownClauses,
    hints: &[u64],
    resolvents: bool,
) -> Result<Option<Reason>, NoMemory>
    ensures { (c : Clauses) → Knows known.now c → IfOk result (IsHintsVerdict c.known falses.old hints.now resolvents) }
{
    for hint in hints {
        match step_by(falses, known, *hint)? {
            HintStep::Conflict => return Ok(None),
            HintStep::Propagated => {}
            HintStep::Fails(reason) => return Ok(Some(reason)),
        }
    }
    if resolvents {
        return Ok(Some(Reason::Resolvents));
    }
    Ok(Some(Reason::NoConflict))
}
