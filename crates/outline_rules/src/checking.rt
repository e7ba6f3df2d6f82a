//! The rule checker of outlines. It shares the definitions and the diagrams of tests and hypotheses with the finder,
//! but no rule.
ghost use Rattle.std.specs.Prelude.{◌≡◌, ◌↔◌, Bool, map, position, IfOk, IfSome, IfNone, IsTrue, All, length, Some, None, if◌then◌else◌, [], ◌∷◌, ◌++◌};
ghost use Rattle.kat_model.specs.Trees.{kat_tree, test_tree};
ghost use Rattle.kat_model.specs.Steps.{Atom, truth};
ghost use Rattle.kat_model.specs.Problems.{IsTestInRange};
ghost use Rattle.outline_rules.specs.Interleaved.{atom_at_moment};
ghost use Rattle.outline_rules.specs.declared.moments.Moment.{Moment};
ghost use Rattle.outline_rules.specs.declared.moments.Moment.TheVariants.{Before};
ghost use Rattle.outline_rules.specs.StepFunctions.{step_value, IsStepId, IsStepDiagram, KeepsSteps, AreStepDiagrams};
ghost use Rattle.outline_rules.specs.NoteLists.{AreNotes, node_holds, note_holds};
ghost use Rattle.goal_forms.specs.TestTerms.{AreSimple};
ghost use Rattle.outline_rules.specs.Tasks.{task_parts, IsTripleOf};
ghost use Rattle.outline_rules.specs.Places.{last_place};
ghost use Rattle.outline_rules.specs.Follows.{starts, ends, conditions, target, IsMet, HasTests};
ghost use Rattle.outline_rules.specs.Reasons.{IsOutOfRange, IsNoteAnswer};
ghost use Rattle.outline_rules.specs.Working.Checks.{guard_tree, condition_of};
ghost use Rattle.outline_rules.specs.Working.Sets.{tests_out, HasPartsInRange, AreNodeSets, AreMomentSets, HasGuardInRange, HasCheckInRange, ShowsLeastUnmet, EntailsUnder, lesser_of, free_step, AreEnds};

use crate::answer::{NoteAnswer, NoteReason};
use crate::checks::{Check, Guard, next_place, push_checks};
use crate::hypotheses::{allowed_atoms, ruled_out_steps};
use crate::moments::Moment;
use crate::notes::{NoteNode, Notes};
use crate::steps::StepDiagrams;
use crate::task::Task;
use kat_model::{NoMemory, Problem, Test};
use std::alloc::Global;
use test_diagrams::DiagramId;

// The set of the allowed atoms at a moment, and the set of each node of the notes there.
#[derive(Drop)]
pub(crate) struct MomentSets {
    pub allowed: DiagramId,
    pub nodes: Vec<DiagramId>,
}

// Whether the node is a branch on a test that is `tests` or more.
fn tests_out(node: &NoteNode, tests: usize) -> bool
    ensures { result ≡ tests_out tests node.now }
{
    match node {
        NoteNode::Branch(test, _, _) => *test >= tests,
        NoteNode::False | NoteNode::True => false,
    }
}

fn first_out(nodes: &[NoteNode], tests: usize) -> Option<usize>
    ensures { result ≡ position (tests_out tests) nodes.now }
{
    nodes.iter().position(|node| tests_out(node, tests))
}

// Returns the least node whose test is out of range.
fn node_out_of_range(nodes: &[NoteNode], tests: usize) -> Option<usize>
    ensures least { IfSome result (IsOutOfRange tests nodes.now) }
    ensures none { IfNone result (HasTests tests nodes.now) }
{
    first_out(nodes, tests)
}

// Returns the set of a node at a moment, given the sets of the earlier nodes.
fn node_set(
    diagrams: &mut StepDiagrams,
    earlier: &[DiagramId],
    node: NoteNode,
    moment: Moment,
) -> Result<DiagramId, NoMemory>
    requires earlier { All (IsStepId diagrams.old) earlier.now }
    requires node { HasPartsInRange diagrams.old.tests (length earlier.now) node }
    ensures function { IfOk result (λ id. IsStepDiagram diagrams.new id (λ before after.
        node_holds (atom_at_moment moment before after) (map (λ e. step_value diagrams.old e before after) earlier.now) node)) }
    ensures kept { KeepsSteps diagrams.old diagrams.new }
    ensures sound { AreStepDiagrams diagrams.new }
{
    match node {
        NoteNode::False => Ok(diagrams.constant(false)),
        NoteNode::True => Ok(diagrams.constant(true)),
        NoteNode::Branch(test, low, high) => {
            diagrams.choice(test, moment, earlier[low], earlier[high])
        }
    }
}

// Returns the sets of the nodes at a moment.
fn node_sets(
    alloc: Global,
    diagrams: &mut StepDiagrams,
    notes: &Notes,
    moment: Moment,
) -> Result<Vec<DiagramId>, NoMemory>
    requires tests { HasTests diagrams.old.tests notes.now.nodes }
    requires sound { AreStepDiagrams diagrams.old }
    ensures sets { IfOk result (λ v. AreNodeSets diagrams.new moment notes.now.nodes v.items) }
    ensures kept { KeepsSteps diagrams.old diagrams.new }
    ensures sound { AreStepDiagrams diagrams.new }
{
    let mut sets = Vec::new(alloc);
    for node in notes.nodes() {
        let set = node_set(diagrams, &sets, *node, moment)?;
        sets.push(set)?;
    }
    Ok(sets)
}

// Returns the sets of the allowed atoms and of the nodes at a moment.
fn moment_sets(
    alloc: Global,
    diagrams: &mut StepDiagrams,
    problem: &Problem,
    notes: &Notes,
    moment: Moment,
) -> Result<MomentSets, NoMemory>
    requires same { diagrams.old.tests ≡ problem.now.tests }
    requires tests { HasTests problem.now.tests notes.now.nodes }
    ensures sets { IfOk result (AreMomentSets diagrams.new moment problem.now.hyps notes.now) }
    ensures kept { KeepsSteps diagrams.old diagrams.new }
    ensures sound { AreStepDiagrams diagrams.new }
{
    let allowed = allowed_atoms(diagrams, problem.hyps(), moment)?;
    let nodes = node_sets(alloc, diagrams, notes, moment)?;
    Ok(MomentSets { allowed, nodes })
}

// Returns the set of the note at a place, which is empty if there is no such place.
fn note_set(diagrams: &StepDiagrams, sets: &MomentSets, notes: &Notes, place: usize) -> DiagramId
    requires count { length sets.now.nodes.items ≡ length notes.now.nodes }
    requires sound { AreStepDiagrams diagrams.now }
    ensures { (moment : Moment) → AreNodeSets diagrams.now moment notes.now.nodes sets.now.nodes.items
        → IsStepDiagram diagrams.now result (λ before after. note_holds notes.now place (atom_at_moment moment before after)) }
{
    match notes.notes().get(place) {
        Some(node) => sets.nodes[*node],
        None => diagrams.constant(false),
    }
}

// Returns the set of the atoms at which a guard holds.
fn guard_set(diagrams: &mut StepDiagrams, guard: &Guard<'_>) -> Result<DiagramId, NoMemory>
    requires { HasGuardInRange diagrams.old.tests guard.now }
    ensures function { IfOk result (λ id. IsStepDiagram diagrams.new id (λ before after. truth (guard_tree guard.now) before)) }
    ensures kept { KeepsSteps diagrams.old diagrams.new }
    ensures sound { AreStepDiagrams diagrams.new }
{
    match guard {
        Guard::Always => Ok(diagrams.constant(true)),
        Guard::Holds(b) => diagrams.of_test(b, Moment::Before),
        Guard::Fails(b) => {
            let holds = diagrams.of_test(b, Moment::Before)?;
            diagrams.not(holds)
        }
    }
}

// Whether the second set has every allowed atom of the first at which the guard holds.
fn implies(
    diagrams: &mut StepDiagrams,
    allowed: DiagramId,
    from: DiagramId,
    guard: DiagramId,
    to: DiagramId,
) -> Result<bool, NoMemory>
    requires allowed { IsStepId diagrams.old allowed }
    requires from { IsStepId diagrams.old from }
    requires guard { IsStepId diagrams.old guard }
    requires to { IsStepId diagrams.old to }
    ensures implies { IfOk result (λ r. IsTrue r ↔ EntailsUnder diagrams.old allowed from guard to) }
    ensures kept { KeepsSteps diagrams.old diagrams.new }
    ensures sound { AreStepDiagrams diagrams.new }
{
    let both = diagrams.and(from, guard)?;
    let there = diagrams.and(allowed, both)?;
    diagrams.entails(there, to)
}

// Returns the atoms that an action may reach from the allowed atoms of a set. No diagram restricts both atoms of a step
// to allowed atoms: it can be as large as the square of the diagram of the allowed atoms.
fn ends_of(
    diagrams: &mut StepDiagrams,
    problem: &Problem,
    allowed: DiagramId,
    from: DiagramId,
    action: usize,
) -> Result<DiagramId, NoMemory>
    requires tests { diagrams.old.tests ≡ problem.now.tests }
    requires allowed { IsStepId diagrams.old allowed }
    requires from { IsStepId diagrams.old from }
    ensures ends { IfOk result (λ id. (f g : Atom → Bool) → IsStepDiagram diagrams.old allowed (λ before after. f before)
        → IsStepDiagram diagrams.old from (λ before after. g before)
        → AreEnds problem.now.tests (free_step problem.now.hyps action f g) diagrams.new id) }
    ensures kept { KeepsSteps diagrams.old diagrams.new }
    ensures sound { AreStepDiagrams diagrams.new }
{
    let ruled_out = ruled_out_steps(diagrams, problem.hyps(), action)?;
    let free = diagrams.not(ruled_out)?;
    let there = diagrams.and(allowed, from)?;
    let steps = diagrams.and(there, free)?;
    diagrams.image(steps)
}

// Whether a condition of the program is met.
fn is_met(
    diagrams: &mut StepDiagrams,
    problem: &Problem,
    notes: &Notes,
    before: &MomentSets,
    check: &Check<'_>,
) -> Result<bool, NoMemory>
    requires simple { AreSimple problem.now.hyps }
    requires tests { diagrams.old.tests ≡ problem.now.tests }
    requires before { AreMomentSets diagrams.old Before problem.now.hyps notes.now before.now }
    requires in_range { HasCheckInRange problem.now.tests check.now }
    ensures met { IfOk result (λ r. IsTrue r ↔ IsMet problem.now (note_holds notes.now) (condition_of check.now)) }
    ensures kept { KeepsSteps diagrams.old diagrams.new }
    ensures sound { AreStepDiagrams diagrams.new }
{
    match check {
        Check::Implies(from, guard, to) => {
            let guard = guard_set(diagrams, guard)?;
            let from = note_set(diagrams, before, notes, *from);
            let to = note_set(diagrams, before, notes, *to);
            implies(diagrams, before.allowed, from, guard, to)
        }
        Check::Leads(from, action, to) => {
            let always = diagrams.constant(true);
            let from = note_set(diagrams, before, notes, *from);
            let ends = ends_of(diagrams, problem, before.allowed, from, *action)?;
            let to = note_set(diagrams, before, notes, *to);
            implies(diagrams, before.allowed, ends, always, to)
        }
    }
}

// Whether the pre-condition implies the first note.
fn is_start_met(
    diagrams: &mut StepDiagrams,
    problem: &Problem,
    notes: &Notes,
    before: &MomentSets,
    pre: &Test,
) -> Result<bool, NoMemory>
    requires tests { diagrams.old.tests ≡ problem.now.tests }
    requires before { AreMomentSets diagrams.old Before problem.now.hyps notes.now before.now }
    requires in_range { IsTestInRange problem.now.tests (test_tree pre.now) }
    ensures met { IfOk result (λ r. IsTrue r ↔ IsMet problem.now (note_holds notes.now) (starts (test_tree pre.now))) }
    ensures kept { KeepsSteps diagrams.old diagrams.new }
    ensures sound { AreStepDiagrams diagrams.new }
{
    let pre = diagrams.of_test(pre, Moment::Before)?;
    let always = diagrams.constant(true);
    let first = note_set(diagrams, before, notes, 0);
    implies(diagrams, before.allowed, pre, always, first)
}

// Whether the last note implies the post-condition.
fn is_end_met(
    diagrams: &mut StepDiagrams,
    problem: &Problem,
    notes: &Notes,
    before: &MomentSets,
    last: usize,
    post: &Test,
) -> Result<bool, NoMemory>
    requires tests { diagrams.old.tests ≡ problem.now.tests }
    requires before { AreMomentSets diagrams.old Before problem.now.hyps notes.now before.now }
    requires in_range { IsTestInRange problem.now.tests (test_tree post.now) }
    ensures met { IfOk result (λ r. IsTrue r ↔ IsMet problem.now (note_holds notes.now) (ends last (test_tree post.now))) }
    ensures kept { KeepsSteps diagrams.old diagrams.new }
    ensures sound { AreStepDiagrams diagrams.new }
{
    let post = diagrams.of_test(post, Moment::Before)?;
    let always = diagrams.constant(true);
    let last = note_set(diagrams, before, notes, last);
    implies(diagrams, before.allowed, last, always, post)
}

impl Check<'_> {
    // Returns the place of the note that the check establishes.
    fn target(&self) -> usize
        ensures { result ≡ target (condition_of self.now) }
    {
        match self {
            Check::Implies(_, _, to) | Check::Leads(_, _, to) => *to,
        }
    }
}

// Returns the target of a condition, unless it is met.
fn target_unless(met: bool, target: usize) -> Option<usize>
    ensures { result ≡ (if met then None else Some target) }
{
    if met { None } else { Some(target) }
}

// Returns the lesser of two numbers, or the only one, if any.
fn lesser(first: Option<usize>, second: Option<usize>) -> Option<usize>
    ensures { result ≡ lesser_of first second }
{
    match (first, second) {
        (Some(k), Some(l)) => Some(k.min(l)),
        (Some(k), None) => Some(k),
        (None, found) => found,
    }
}

// Returns the least target of an unmet condition of the program.
fn least_unmet_check(
    diagrams: &mut StepDiagrams,
    problem: &Problem,
    notes: &Notes,
    before: &MomentSets,
    checks: &[Check<'_>],
) -> Result<Option<usize>, NoMemory>
    requires simple { AreSimple problem.now.hyps }
    requires tests { diagrams.old.tests ≡ problem.now.tests }
    requires before { AreMomentSets diagrams.old Before problem.now.hyps notes.now before.now }
    requires in_range { All (HasCheckInRange problem.now.tests) checks.now }
    ensures least { IfOk result (ShowsLeastUnmet problem.now (note_holds notes.now) (map condition_of checks.now)) }
    ensures kept { KeepsSteps diagrams.old diagrams.new }
{
    let mut least = None;
    for check in checks {
        let met = is_met(diagrams, problem, notes, before, check)?;
        least = lesser(least, target_unless(met, check.target()));
    }
    Ok(least)
}

// Returns the least target of an unmet condition, given the sets of the notes.
fn least_unmet_from(
    diagrams: &mut StepDiagrams,
    problem: &Problem,
    task: &Task,
    notes: &Notes,
    before: &MomentSets,
    checks: &[Check<'_>],
    last: usize,
) -> Result<Option<usize>, NoMemory>
    requires simple { AreSimple problem.now.hyps }
    requires tests { diagrams.old.tests ≡ problem.now.tests }
    requires before { AreMomentSets diagrams.old Before problem.now.hyps notes.now before.now }
    requires pre { IsTestInRange problem.now.tests (test_tree task.now.pre) }
    requires post { IsTestInRange problem.now.tests (test_tree task.now.post) }
    requires in_range { All (HasCheckInRange problem.now.tests) checks.now }
    ensures { IfOk result (ShowsLeastUnmet problem.now (note_holds notes.now)
        (starts (test_tree task.now.pre) ∷ (map condition_of checks.now ++ ends last (test_tree task.now.post) ∷ []))) }
{
    let starts = is_start_met(diagrams, problem, notes, before, &task.pre)?;
    let within = least_unmet_check(diagrams, problem, notes, before, checks)?;
    let ends = is_end_met(diagrams, problem, notes, before, last, &task.post)?;
    let end = next_place(last)?;
    let later = lesser(within, target_unless(ends, end));
    Ok(lesser(target_unless(starts, 0), later))
}

// Returns the least target of an unmet condition. The diagrams are borrowed, and owned where nothing else is: the proof
// of a function grows with the exits at which it drops values.
fn least_unmet_over(
    alloc: Global,
    diagrams: &mut StepDiagrams,
    problem: &Problem,
    task: &Task,
    notes: &Notes,
    checks: &[Check<'_>],
    last: usize,
) -> Result<Option<usize>, NoMemory>
    requires simple { AreSimple problem.now.hyps }
    requires same { diagrams.old.tests ≡ problem.now.tests }
    requires tests { HasTests problem.now.tests notes.now.nodes }
    requires pre { IsTestInRange problem.now.tests (test_tree task.now.pre) }
    requires post { IsTestInRange problem.now.tests (test_tree task.now.post) }
    requires in_range { All (HasCheckInRange problem.now.tests) checks.now }
    ensures { IfOk result (ShowsLeastUnmet problem.now (note_holds notes.now)
        (starts (test_tree task.now.pre) ∷ (map condition_of checks.now ++ ends last (test_tree task.now.post) ∷ []))) }
{
    let before = moment_sets(alloc, diagrams, problem, notes, Moment::Before)?;
    least_unmet_from(diagrams, problem, task, notes, &before, checks, last)
}

// Returns the least target of an unmet condition.
fn least_unmet(
    alloc: Global,
    problem: &Problem,
    task: &Task,
    notes: &Notes,
    checks: &[Check<'_>],
    last: usize,
) -> Result<Option<usize>, NoMemory>
    requires simple { AreSimple problem.now.hyps }
    requires tests { HasTests problem.now.tests notes.now.nodes }
    requires pre { IsTestInRange problem.now.tests (test_tree task.now.pre) }
    requires post { IsTestInRange problem.now.tests (test_tree task.now.post) }
    requires in_range { All (HasCheckInRange problem.now.tests) checks.now }
    ensures { IfOk result (ShowsLeastUnmet problem.now (note_holds notes.now)
        (starts (test_tree task.now.pre) ∷ (map condition_of checks.now ++ ends last (test_tree task.now.post) ∷ []))) }
{
    let mut diagrams = StepDiagrams::new(alloc, problem.tests())?;
    least_unmet_over(alloc, &mut diagrams, problem, task, notes, checks, last)
}

/// Checks whether the notes follow from each other by the rules of Hoare logic at every place of the program (Hoare
/// 1969), whatever their origin. Otherwise gives the first reason against them. Fails only when out of memory.
pub fn check_notes(
    alloc: Global,
    problem: &Problem,
    task: &Task,
    notes: &Notes,
) -> Result<NoteAnswer, NoMemory>
    requires simple { AreSimple problem.now.hyps }
    requires triple { IsTripleOf problem.now (task_parts task.now) }
    ensures { IfOk result (IsNoteAnswer problem.now (task_parts task.now) notes.now) }
{
    if let Some(node) = node_out_of_range(notes.nodes(), problem.tests()) {
        return Ok(NoteAnswer::Rejected(NoteReason::Range(node)));
    }
    let mut checks = Vec::new(alloc);
    let last = push_checks(&mut checks, &task.flow.list, 0)?;
    let count = next_place(last)?;
    if notes.notes().len() != count {
        return Ok(NoteAnswer::Rejected(NoteReason::Count(count)));
    }
    match least_unmet(alloc, problem, task, notes, &checks, last)? {
        None => Ok(NoteAnswer::Accepted),
        Some(target) => Ok(NoteAnswer::Rejected(NoteReason::Step(target))),
    }
}
