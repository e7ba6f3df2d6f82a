//! The atoms and steps that hypotheses rule out, as diagrams that the finder and the rule checker share.
ghost use Rattle.std.specs.Prelude.{◌≡◌, ◌&&◌, not, All, map, IfOk};
ghost use Rattle.kat_model.specs.Trees.{kat_tree, is_test};
ghost use Rattle.kat_model.specs.Problems.{HasTestsBelow};
ghost use Rattle.kat_model.specs.Steps.{out};
ghost use Rattle.goal_forms.specs.HypothesisForms.{allows, rules_out, some_rules_out};
ghost use Rattle.outline_rules.specs.Interleaved.{atom_at_moment};
ghost use Rattle.outline_rules.specs.StepFunctions.{step_value, IsStepId, IsStepDiagram, KeepsSteps, AreStepDiagrams};

use crate::moments::Moment;
use crate::steps::StepDiagrams;
use kat_model::{Kat, NoMemory};
use test_diagrams::DiagramId;

// Returns the set of the atoms at a moment that a term accepts.
fn accepted_atoms(
    diagrams: &mut StepDiagrams,
    term: &Kat,
    moment: Moment,
) -> Result<DiagramId, NoMemory>
    requires in_range { HasTestsBelow diagrams.old.tests (kat_tree term.now) }
    ensures function { IfOk result (λ id. IsStepDiagram diagrams.new id
        (λ before after. out (kat_tree term.now) (atom_at_moment moment before after))) }
    ensures kept { KeepsSteps diagrams.old diagrams.new }
    ensures sound { AreStepDiagrams diagrams.new }
{
    match term {
        Kat::Zero | Kat::Act(_) => Ok(diagrams.constant(false)),
        Kat::One | Kat::Star(_) => Ok(diagrams.constant(true)),
        Kat::Test(b) => diagrams.of_test(b, moment),
        Kat::Sum(e, f) => {
            let first = accepted_atoms(diagrams, e, moment)?;
            let second = accepted_atoms(diagrams, f, moment)?;
            diagrams.or(first, second)
        }
        Kat::Seq(e, f) => {
            let first = accepted_atoms(diagrams, e, moment)?;
            let second = accepted_atoms(diagrams, f, moment)?;
            diagrams.and(first, second)
        }
    }
}

/// Returns the set of the atoms at a moment at which no hypothesis that is a test is true. On failure, extra diagrams
/// may remain.
pub fn allowed_atoms(
    diagrams: &mut StepDiagrams,
    hyps: &[Kat],
    moment: Moment,
) -> Result<DiagramId, NoMemory>
    requires in_range { All (λ h. HasTestsBelow diagrams.old.tests (kat_tree h)) hyps.now }
    ensures function { IfOk result (λ id. IsStepDiagram diagrams.new id
        (λ before after. allows (map kat_tree hyps.now) (atom_at_moment moment before after))) }
    ensures kept { KeepsSteps diagrams.old diagrams.new }
    ensures sound { AreStepDiagrams diagrams.new }
{
    let mut set = diagrams.constant(true);
    for hyp in hyps {
        set = atoms_left_by(diagrams, set, hyp, moment)?;
    }
    Ok(set)
}

// Returns the atoms of a set at which the hypothesis is not a true test.
fn atoms_left_by(
    diagrams: &mut StepDiagrams,
    set: DiagramId,
    hyp: &Kat,
    moment: Moment,
) -> Result<DiagramId, NoMemory>
    requires id { IsStepId diagrams.old set }
    requires in_range { HasTestsBelow diagrams.old.tests (kat_tree hyp.now) }
    requires sound { AreStepDiagrams diagrams.old }
    ensures function { IfOk result (λ id. IsStepDiagram diagrams.new id (λ before after. step_value diagrams.old set before after
        && not (is_test (kat_tree hyp.now) && out (kat_tree hyp.now) (atom_at_moment moment before after)))) }
    ensures kept { KeepsSteps diagrams.old diagrams.new }
    ensures sound { AreStepDiagrams diagrams.new }
{
    if !hyp.is_test() {
        return Ok(set);
    }
    let taken = accepted_atoms(diagrams, hyp, moment)?;
    let left = diagrams.not(taken)?;
    diagrams.and(set, left)
}

// Returns the steps by an action that a hypothesis rules out.
fn steps_ruled_out_by(
    diagrams: &mut StepDiagrams,
    hyp: &Kat,
    action: usize,
) -> Result<DiagramId, NoMemory>
    requires in_range { HasTestsBelow diagrams.old.tests (kat_tree hyp.now) }
    ensures function { IfOk result (λ id. IsStepDiagram diagrams.new id (rules_out (kat_tree hyp.now) action)) }
    ensures kept { KeepsSteps diagrams.old diagrams.new }
    ensures sound { AreStepDiagrams diagrams.new }
{
    match hyp {
        Kat::Act(own) => Ok(diagrams.constant(*own == action)),
        Kat::Seq(e, f) => {
            if e.is_test() {
                let before = accepted_atoms(diagrams, e, Moment::Before)?;
                let rest = steps_ruled_out_by(diagrams, f, action)?;
                return diagrams.and(before, rest);
            }
            let first = steps_ruled_out_by(diagrams, e, action)?;
            let after = accepted_atoms(diagrams, f, Moment::After)?;
            diagrams.and(first, after)
        }
        Kat::Zero | Kat::One | Kat::Test(_) | Kat::Sum(_, _) | Kat::Star(_) => {
            Ok(diagrams.constant(false))
        }
    }
}

/// Returns the steps by an action that some hypothesis rules out. On failure, extra diagrams may remain.
pub fn ruled_out_steps(
    diagrams: &mut StepDiagrams,
    hyps: &[Kat],
    action: usize,
) -> Result<DiagramId, NoMemory>
    requires in_range { All (λ h. HasTestsBelow diagrams.old.tests (kat_tree h)) hyps.now }
    ensures function { IfOk result (λ id. IsStepDiagram diagrams.new id
        (some_rules_out (map kat_tree hyps.now) action)) }
    ensures kept { KeepsSteps diagrams.old diagrams.new }
    ensures sound { AreStepDiagrams diagrams.new }
{
    let mut steps = diagrams.constant(false);
    for hyp in hyps {
        let more = steps_ruled_out_by(diagrams, hyp, action)?;
        steps = diagrams.or(steps, more)?;
    }
    Ok(steps)
}
