//! The finder of outlines. The note at a place is the set of the allowed atoms that a run from the pre-condition
//! reaches there (the strongest annotation). The invariant of a loop is the least set that contains its entry and that
//! its body keeps. In each turn of a loop, the invariants of its inner loops continue to grow from their last values
//! (the recursive strategy of Bourdoncle, Efficient chaotic iteration strategies with widenings, 1993).
ghost use Rattle.std.specs.Prelude.{◌≡◌, ◌<◌, ◌&&◌, ℕ, not, [], ◌∷◌, ◌++◌, IfOk, IfSome, OnOk, MatchOption};
ghost use Rattle.kat_model.specs.Trees.{Term, one, test_tree};
ghost use Rattle.kat_model.specs.Problems.{ProblemParts, IsProblem, IsTestInRange};
ghost use Rattle.kat_model.specs.Relations.{Same};
ghost use Rattle.kat_model.specs.Steps.{truth};
ghost use Rattle.while_lang.specs.Flows.{act, loop};
ghost use Rattle.while_lang.specs.FlowViews.{flow_stmt};
ghost use Rattle.outline_rules.specs.StepFunctions.{StepDiagramsParts, IsStepId, IsStepDiagram, KeepsSteps, AreStepDiagrams};
ghost use Rattle.goal_forms.specs.TestTerms.{AreSimple};
ghost use Rattle.goal_forms.specs.HypothesisForms.{allows};
ghost use Rattle.outline_rules.specs.Tasks.{task_parts, IsTripleOf};
ghost use Rattle.outline_rules.specs.Follows.{Follows};
ghost use Rattle.hoare_outlines.specs.Working.AtomSets.{AtomSet, IsSetId, IsAllowedSet};
ghost use Rattle.hoare_outlines.specs.Working.Reached.{IsFlowInRange, IsStmtInRange};
ghost use Rattle.hoare_outlines.specs.Working.Found.{IsFinder, StmtFound, HasAllowedSet, FindsStmt, FindsFlow};
ghost use Rattle.hoare_outlines.specs.Working.FoundLoops.{stmt_turns, flow_turns, HasLoopIds, IsFoundLoop, AreFoundLoops, GrowsFrom, KnowsLoops, KeepsLoops};

use crate::noting::notes_of_sets;
use indexmap::IndexMap;
use kat_model::{NoMemory, Problem, Test};
use outline_rules::{DiagramId, Moment, Notes, StepDiagrams, Task, allowed_atoms, ruled_out_steps};
use std::alloc::Global;
use while_lang::{Flow, Flows};

// The state of the finder: the diagrams, the allowed atoms, the sets at the places so far, and the loops by the places
// of their invariants.
struct Finder {
    diagrams: StepDiagrams,
    allowed: DiagramId,
    notes: Vec<DiagramId>,
    loops: IndexMap<usize, FoundLoop>,
}

// Explicit, so that it is proved once and not at each end of each function that owns one.
impl Drop for Finder {
    fn drop(self) {
        let Finder {
            diagrams: _diagrams,
            allowed: _,
            notes: _notes,
            loops: _loops,
        } = self;
    }
}

// A set before a loop, and the invariant found from it.
#[derive(Clone, Copy)]
struct FoundLoop {
    entry: DiagramId,
    invariant: DiagramId,
}

// The atoms of a set at which a test is true, and the atoms at which it is false.
#[derive(Clone, Copy)]
struct TestSplit {
    holds: DiagramId,
    fails: DiagramId,
}

impl Finder {
    fn new(alloc: Global, problem: &Problem) -> Result<Finder, NoMemory>
        ensures finder { IfOk result (IsFinder problem.now) }
        ensures empty { IfOk result (λ f. f.notes.items ≡ []) }
        ensures no_loops { IfOk result (λ f. f.loops.entries ≡ []) }
        ensures within { IsProblem problem.now }
    {
        let mut diagrams = StepDiagrams::new(alloc, problem.tests())?;
        let allowed = allowed_atoms(&mut diagrams, problem.hyps(), Moment::Before)?;
        Ok(Finder {
            diagrams,
            allowed,
            notes: Vec::new(alloc),
            loops: IndexMap::new(alloc),
        })
    }

    fn push_note(&mut self, set: DiagramId) -> Result<(), NoMemory>
        ensures notes { OnOk result (self.new.notes.items ≡ self.old.notes.items ++ set ∷ []) }
        ensures diagrams { self.new.diagrams ≡ self.old.diagrams }
        ensures allowed { self.new.allowed ≡ self.old.allowed }
        ensures loops { self.new.loops.entries ≡ self.old.loops.entries }
    {
        Ok(self.notes.push(set)?)
    }

    // Returns the result for the loop at a place from an earlier turn of the loops around it.
    fn earlier_loop(&self, place: usize) -> Option<FoundLoop>
        ensures { IfSome result (λ found. (q : ProblemParts) (d : StepDiagramsParts) (turns : ℕ → Term)
            → AreFoundLoops q d turns self.now.loops.entries → IsFoundLoop q d (turns place) found) }
    {
        self.loops.get(&place).copied()
    }

    // Stores the result for the loop at a place for later turns.
    fn keep_loop(
        &mut self,
        place: usize,
        entry: DiagramId,
        invariant: DiagramId,
    ) -> Result<(), NoMemory>
        ensures loops { OnOk result ((q : ProblemParts) (d : StepDiagramsParts) (turns : ℕ → Term)
            → AreFoundLoops q d turns self.old.loops.entries
            → IsFoundLoop q d (turns place) (record { entry = entry; invariant = invariant })
            → AreFoundLoops q d turns self.new.loops.entries) }
        ensures diagrams { self.new.diagrams ≡ self.old.diagrams }
        ensures allowed { self.new.allowed ≡ self.old.allowed }
        ensures notes { self.new.notes.items ≡ self.old.notes.items }
    {
        self.loops.insert(place, FoundLoop { entry, invariant })?;
        Ok(())
    }
}

fn parts_by(diagrams: &mut StepDiagrams, set: DiagramId, test: &Test) -> Result<TestSplit, NoMemory>
    requires id { IsStepId diagrams.old set }
    requires in_range { IsTestInRange diagrams.old.tests (test_tree test.now) }
    ensures holds { IfOk result (λ p. (X : AtomSet) → IsSetId diagrams.old set X → IsSetId diagrams.new p.holds (λ atom. X atom && truth (test_tree test.now) atom)) }
    ensures fails { IfOk result (λ p. (X : AtomSet) → IsSetId diagrams.old set X → IsSetId diagrams.new p.fails (λ atom. X atom && not (truth (test_tree test.now) atom))) }
    ensures kept { KeepsSteps diagrams.old diagrams.new }
    ensures sound { AreStepDiagrams diagrams.new }
{
    let there = diagrams.of_test(test, Moment::Before)?;
    let elsewhere = diagrams.not(there)?;
    let holds = diagrams.and(set, there)?;
    let fails = diagrams.and(set, elsewhere)?;
    Ok(TestSplit { holds, fails })
}

// Returns the atoms that the action may reach from the set. Only the image is restricted to allowed atoms: a diagram of
// the allowed atoms before and after a step can be as large as the square of the diagram of the allowed atoms. With ten
// random hypotheses over three of 48 tests the diagram of allowed atoms before and after a step had 854,274 nodes, that
// of the allowed atoms 1,575.
fn after_action(
    diagrams: &mut StepDiagrams,
    problem: &Problem,
    allowed: DiagramId,
    set: DiagramId,
    action: usize,
) -> Result<DiagramId, NoMemory>
    requires simple { AreSimple problem.now.hyps }
    requires tests { diagrams.old.tests ≡ problem.now.tests }
    requires allowed { IsSetId diagrams.old allowed (allows problem.now.hyps) }
    requires id { IsStepId diagrams.old set }
    requires action { action < problem.now.actions }
    ensures found { IfOk result (λ last. (X : AtomSet) → IsSetId diagrams.old set X → IsAllowedSet problem.now X → StmtFound problem.now (act action) diagrams.new X [] last) }
    ensures kept { KeepsSteps diagrams.old diagrams.new }
    ensures sound { AreStepDiagrams diagrams.new }
{
    let ruled_out = ruled_out_steps(diagrams, problem.hyps(), action)?;
    let free = diagrams.not(ruled_out)?;
    let steps = diagrams.and(set, free)?;
    let ends = diagrams.image(steps)?;
    diagrams.and(ends, allowed)
}

// Returns the set from which the invariant of a loop grows: its entry, with the earlier invariant if that grew from a
// subset of the entry. The earlier entry always lies within the new one, but no lemma says so, so it is checked.
// Without kept invariants the whole program would be traversed as long as one grows: no memory, but successive loops as
// often as all of them together have turns.
fn first_invariant(
    diagrams: &mut StepDiagrams,
    earlier: Option<FoundLoop>,
    set: DiagramId,
) -> Result<DiagramId, NoMemory>
    requires earlier { IfSome earlier (HasLoopIds diagrams.old) }
    requires set { IsStepId diagrams.old set }
    requires sound { AreStepDiagrams diagrams.old }
    ensures starts { IfOk result (λ id. (q : ProblemParts) (turn : Term) → diagrams.old.tests ≡ q.tests
        → IfSome earlier (IsFoundLoop q diagrams.old turn) → GrowsFrom q turn diagrams.old set diagrams.new id) }
    ensures kept { KeepsSteps diagrams.old diagrams.new }
    ensures sound { AreStepDiagrams diagrams.new }
{
    let Some(found) = earlier else {
        return Ok(set);
    };
    if !diagrams.entails(found.entry, set)? {
        return Ok(set);
    }
    diagrams.or(found.invariant, set)
}

impl Finder {
    // Returns the atoms that the statement reaches from the set, and appends the notes of the places within it.
    #[cycle(finding)]
    fn after_stmt(
        &mut self,
        problem: &Problem,
        stmt: &Flow,
        set: DiagramId,
    ) -> Result<DiagramId, NoMemory>
        requires simple { AreSimple problem.now.hyps }
        requires finder { IsFinder problem.now self.old }
        requires in_range { IsStmtInRange problem.now (flow_stmt stmt.now) }
        requires set { HasAllowedSet problem.now self.old.diagrams set }
        requires loops { KnowsLoops problem.now (stmt_turns (flow_stmt stmt.now)) self.old }
        ensures found { IfOk result (FindsStmt problem.now (flow_stmt stmt.now) self.old set self.new) }
        ensures set { IfOk result (HasAllowedSet problem.now self.new.diagrams) }
        ensures finder { OnOk result (IsFinder problem.now self.new) }
        ensures kept { OnOk result (KeepsSteps self.old.diagrams self.new.diagrams) }
        ensures loops { OnOk result (KeepsLoops problem.now (stmt_turns (flow_stmt stmt.now)) self.old self.new) }
    {
        match stmt {
            Flow::Skip => Ok(set),
            Flow::Abort => Ok(self.diagrams.constant(false)),
            Flow::Assert(b) => {
                let parts = parts_by(&mut self.diagrams, set, b)?;
                Ok(parts.holds)
            }
            Flow::Act(a) => { after_action(&mut self.diagrams, problem, self.allowed, set, *a) }
            Flow::If(b, f, g) => {
                let parts = parts_by(&mut self.diagrams, set, b)?;
                let first = self.after_flow(problem, f, parts.holds)?;
                let second = self.after_flow(problem, g, parts.fails)?;
                self.diagrams.or(first, second)
            }
            Flow::While(b, f) => self.after_loop(problem, f, b, set),
        }
    }

    // Returns the atoms that the statements reach from the set in sequence, and appends the notes of their places.
    #[cycle(finding)]
    fn after_flow(
        &mut self,
        problem: &Problem,
        flow: &Flows,
        set: DiagramId,
    ) -> Result<DiagramId, NoMemory>
        requires simple { AreSimple problem.now.hyps }
        requires finder { IsFinder problem.now self.old }
        requires in_range { IsFlowInRange problem.now flow.now }
        requires set { HasAllowedSet problem.now self.old.diagrams set }
        requires loops { KnowsLoops problem.now (one ∷ flow_turns flow.now) self.old }
        ensures found { IfOk result (FindsFlow problem.now flow.now self.old set self.new) }
        ensures set { IfOk result (HasAllowedSet problem.now self.new.diagrams) }
        ensures finder { OnOk result (IsFinder problem.now self.new) }
        ensures kept { OnOk result (KeepsSteps self.old.diagrams self.new.diagrams) }
        ensures loops { OnOk result (KeepsLoops problem.now (one ∷ flow_turns flow.now) self.old self.new) }
    {
        self.push_note(set)?;
        let mut reached = set;
        for stmt in &flow.list {
            reached = self.after_stmt(problem, stmt, reached)?;
            self.push_note(reached)?;
        }
        Ok(reached)
    }

    // Returns the atoms that the loop reaches from the set. Its invariant grows until its body keeps it, and only the
    // notes of the last round remain. The next turn of an outer loop reaches at least these atoms, so there the
    // invariant continues to grow from this one.
    #[cycle(finding)]
    fn after_loop(
        &mut self,
        problem: &Problem,
        body: &Flows,
        guard: &Test,
        set: DiagramId,
    ) -> Result<DiagramId, NoMemory>
        requires simple { AreSimple problem.now.hyps }
        requires finder { IsFinder problem.now self.old }
        requires in_range { IsStmtInRange problem.now (loop (test_tree guard.now) body.now) }
        requires set { HasAllowedSet problem.now self.old.diagrams set }
        requires loops { KnowsLoops problem.now (stmt_turns (loop (test_tree guard.now) body.now)) self.old }
        ensures found { IfOk result (FindsStmt problem.now (loop (test_tree guard.now) body.now) self.old set self.new) }
        ensures set { IfOk result (HasAllowedSet problem.now self.new.diagrams) }
        ensures finder { OnOk result (IsFinder problem.now self.new) }
        ensures kept { OnOk result (KeepsSteps self.old.diagrams self.new.diagrams) }
        ensures loops { OnOk result (KeepsLoops problem.now (stmt_turns (loop (test_tree guard.now) body.now)) self.old self.new) }
    {
        let place = self.notes.len();
        let earlier = self.earlier_loop(place);
        let mut invariant = first_invariant(&mut self.diagrams, earlier, set)?;
        'grows: loop {
            self.notes.truncate(place);
            self.push_note(invariant)?;
            let parts = parts_by(&mut self.diagrams, invariant, guard)?;
            let again = self.after_flow(problem, body, parts.holds)?;
            if self.diagrams.entails(again, invariant)? {
                self.keep_loop(place, set, invariant)?;
                return Ok(parts.fails);
            }
            invariant = self.diagrams.or(invariant, again)?;
        }
    }
}

// Does what `outline` does, from the first state of the finder. The finder is borrowed: the proof of a function grows
// with the exits at which it drops values.
fn outline_by(
    finder: &mut Finder,
    alloc: Global,
    problem: &Problem,
    task: &Task,
) -> Result<Option<Notes>, NoMemory>
    requires simple { AreSimple problem.now.hyps }
    requires triple { IsTripleOf problem.now (task_parts task.now) }
    requires finder { IsFinder problem.now finder.old }
    requires empty { finder.old.notes.items ≡ [] }
    requires no_loops { finder.old.loops.entries ≡ [] }
    requires within { IsProblem problem.now }
    ensures { IfOk result (λ found. MatchOption found (Same problem.now → ⊥)
        (λ notes. Same problem.now × Follows problem.now (task_parts task.now) notes)) }
{
    let start = parts_by(&mut finder.diagrams, finder.allowed, &task.pre)?;
    let last = finder.after_flow(problem, &task.flow, start.holds)?;
    let post = finder.diagrams.of_test(&task.post, Moment::Before)?;
    if !finder.diagrams.entails(last, post)? {
        return Ok(None);
    }
    let notes = notes_of_sets(alloc, &mut finder.diagrams, &finder.notes)?;
    Ok(Some(notes))
}

/// Returns notes that follow, if the triple holds: both sides of the problem denote the same relation in each table
/// that keeps the hypotheses. Returns `None` if it does not hold. Fails only when out of memory.
pub fn outline(alloc: Global, problem: &Problem, task: &Task) -> Result<Option<Notes>, NoMemory>
    requires simple { AreSimple problem.now.hyps }
    requires triple { IsTripleOf problem.now (task_parts task.now) }
    ensures { IfOk result (λ found. MatchOption found (Same problem.now → ⊥)
        (λ notes. Same problem.now × Follows problem.now (task_parts task.now) notes)) }
{
    let mut finder = Finder::new(alloc, problem)?;
    outline_by(&mut finder, alloc, problem, task)
}
