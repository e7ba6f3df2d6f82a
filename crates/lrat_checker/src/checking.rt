//! Checks proofs.
ghost use Rattle.std.specs.Prelude.{◌≡◌, ◌↔◌, false, IfOk};
ghost use Rattle.lrat_checker.specs.Literals.{IsUnsatisfiable};
ghost use Rattle.lrat_checker.specs.Accepted.{Clauses, IsAccepted};
ghost use Rattle.lrat_checker.specs.Answers.{Answers};
ghost use Rattle.lrat_checker.specs.Working.KnownClauses.{Knows};
ghost use Rattle.lrat_checker.specs.Working.Steps.{IsVerdict, empty_after, ends_empty};
ghost use Rattle.lrat_checker.specs.declared.answer.Answer.TheVariants.{Accepted};

use crate::answer::{Answer, Reason};
use crate::falses::Falses;
use crate::known::KnownClauses;
use crate::literal::Clause;
use crate::proof::{Line, Proof};
use crate::propagation::hints_reason;
use kat_model::NoMemory;
use std::alloc::Global;

// Returns why the line is wrong, if it is.
fn line_reason(
    falses: &mut Falses,
    known: &KnownClauses,
    line: &Line,
) -> Result<Option<Reason>, NoMemory>
    ensures { (c : Clauses) → Knows known.now c → IfOk result (IsVerdict c line.now) }
{
    match line {
        Line::Deletion { .. } => Ok(None),
        Line::Addition {
            id,
            clause,
            hints,
            resolvents,
        } => {
            if *id <= known.greatest() {
                return Ok(Some(Reason::IdNotIncreasing));
            }
            falses.clear();
            falses.add_all(&clause.literals)?;
            hints_reason(falses, known, &hints.list, *resolvents)
        }
    }
}

// Whether the last clause is empty after the line.
fn is_empty_after(before: bool, line: &Line) -> bool
    ensures { result ≡ empty_after before line.now }
{
    match line {
        Line::Deletion { .. } => before,
        Line::Addition { clause, .. } => clause.literals.is_empty(),
    }
}

// Whether the last clause that the lines add is empty.
fn ends_in_empty_clause(lines: &[Line]) -> bool
    ensures { result ≡ ends_empty false lines.now }
{
    let mut is_empty = false;
    for line in lines {
        is_empty = is_empty_after(is_empty, line);
    }
    is_empty
}

fn answer_of(alloc: Global, clauses: &[Clause], lines: &[Line]) -> Result<Answer, NoMemory>
    ensures { IfOk result (Answers clauses.now lines.now) }
{
    let mut known = KnownClauses::of(alloc, clauses)?;
    let mut falses = Falses::new(alloc);
    for (place, line) in lines.iter().enumerate() {
        match line_reason(&mut falses, &known, line)? {
            None => known.apply(line)?,
            Some(reason) => return Ok(Answer::Rejected(place + 1, reason)),
        }
    }
    if ends_in_empty_clause(lines) {
        return Ok(Answer::Accepted);
    }
    Ok(Answer::Rejected(lines.len(), Reason::NoEmptyClause))
}

/// Checks that each line of the proof is right and that the last clause it adds is empty, and otherwise gives the first
/// line that is wrong. An added clause is right if its id is greater than all before, and if unit propagation along its
/// hints leads to a conflict when all its literals are false: the clause of each hint has exactly one literal that is
/// not false, which becomes true, up to one whose literals are all false. Hints after the conflict have no meaning. A
/// deleted clause is no hint. Fails only when out of memory.
pub fn check(alloc: Global, clauses: &[Clause], proof: &Proof) -> Result<Answer, NoMemory>
    // The answer is correct: a rejection has the first line that is wrong.
    ensures answer { IfOk result (Answers clauses.now proof.now) }
    ensures accepted { IfOk result (λ answer. (answer ≡ Accepted) ↔ IsAccepted clauses.now proof.now) }

    // If the proof is accepted, no assignment satisfies the clauses.
    ensures sound { IfOk result (λ answer. answer ≡ Accepted → IsUnsatisfiable clauses.now) }
{
    let answer = answer_of(alloc, clauses, &proof.lines)?;
    Ok(answer)
}
