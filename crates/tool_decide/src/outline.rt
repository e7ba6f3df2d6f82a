//! `outline` of a file: replies to a text with notes that prove the triple that it asks, or with evidence that it
//! fails.
ghost use Rattle.std.specs.Prelude.{◌≡◌, Ok, IfOk};
ghost use Rattle.kat_model.specs.Problems.{ProblemParts};
ghost use Rattle.while_lang.specs.Files.{FileParts};
ghost use Rattle.problem_file.specs.Reads.{Reads};
ghost use Rattle.while_lang.specs.Concrete.{IsConcrete, Agrees};
ghost use Rattle.abstraction.specs.Abstracts.{AbstractParts, abstract_of};
ghost use Rattle.abstraction.specs.Readings.{Reading, KeepsStated, GoalHoldsBy};
ghost use Rattle.goal_forms.specs.TestTerms.{AreSimple};
ghost use Rattle.outline_rules.specs.Texts.{AreNarrowNotes};
ghost use Rattle.outline_rules.specs.Tasks.{task_parts, IsTripleOf};
ghost use Rattle.outline_rules.specs.Follows.{HasTests};
ghost use Rattle.tool_decide.specs.OutlineCheck.{SpellsNotes};
ghost use Rattle.tool_inputs.specs.FileProblem.{Poses};
ghost use Rattle.tool_decide.specs.Outline.{IsOutlined, OutlineHeadline, OutlineReply};

use crate::decide::{count, decide_reply};
use crate::triple::triple_in;
use hoare_outlines::{Notes, Task, outline, write_notes};
use kat_model::{NoMemory, Problem};
use std::alloc::Global;
use tool_inputs::{EarlyEnd, Reply, TextCommand, reply_to_text};

// Shows that the numbers in notes over the tests of a problem fit in 64 bits: they are those of nodes and tests.
fn know_numbers(problem: &Problem, notes: &Notes)
    requires { HasTests problem.now.tests notes.now.nodes }
    ensures { AreNarrowNotes notes.now }
{
    // A problem has at most 48 tests, and notes in memory have fewer than 2^64 nodes.
    let _ = problem.tests();
    let _ = count(notes.nodes());
}

// Returns the text of notes over the tests of a problem, which reads back as the same notes.
fn notes_text(alloc: Global, problem: &Problem, notes: &Notes) -> Result<Vec<u8>, NoMemory>
    requires { HasTests problem.now.tests notes.now.nodes }
    ensures { IfOk result (λ v. SpellsNotes v.items notes.now) }
{
    know_numbers(problem, notes);
    write_notes(alloc, notes)
}

// Returns the reply to a problem and its triple.
fn outline_reply(alloc: Global, problem: &Problem, task: &Task) -> Result<Reply, NoMemory>
    requires simple { AreSimple problem.now.hyps }
    requires triple { IsTripleOf problem.now (task_parts task.now) }
    ensures { IfOk result (λ r. IsOutlined problem.now (task_parts task.now) r.status r.output.items) }
{
    match outline(alloc, problem, task)? {
        Some(notes) => Ok(Reply {
            status: 0,
            output: notes_text(alloc, problem, &notes)?,
        }),
        None => decide_reply(alloc, problem),
    }
}

/// `outline` FILE
#[derive(Clone, Copy)]
pub struct OutlineCommand;

impl TextCommand for OutlineCommand {
    ghost use Rattle.tool_decide.specs.Working.OutlineReplies.{outline_long};

    ghost replies = { λ _. OutlineReply };

    fn text_reply(&self, alloc: Global, text: &[u8]) -> Result<Reply, EarlyEnd> {
        let triple = triple_in(alloc, text)?;
        Ok(outline_reply(alloc, &triple.problem, &triple.task)?)
    }

    ghost refuses_long = { λ _. outline_long };
}

/// Returns the reply of `outline` to the bytes of a text. If the text asks a question, the status is 0 exactly when its
/// goal is a triple of a program, all hypotheses are simple, and the triple holds: both sides denote one relation in
/// every finite table that satisfies the hypotheses. Then the text of notes that follow one from the other at the
/// places of the program is printed, and the goal of a concrete file holds for all its stores. It is 1 exactly when the
/// goal is such a triple, all hypotheses are simple, and the triple does not hold, with the text of a string as by
/// `decide`; and 2 exactly when the goal is not such a triple or some hypothesis is not simple. If the text asks no
/// question, the status is also 2. With 2, the line gives the reason. Fails only when out of memory.
pub fn outline_bytes(alloc: Global, text: &[u8]) -> Result<Reply, NoMemory>
    ensures headline { (q : ProblemParts) (poses : Poses text.now q)
        → IfOk result (λ r. OutlineHeadline poses.file q r.status r.output.items) }
    ensures stores { (f : FileParts) → Reads text.now f → IsConcrete f → IfOk result (λ r. r.status ≡ 0 → Agrees f) }
    ensures readings { (f : FileParts) (a : AbstractParts) (reading : Reading) → Reads text.now f → abstract_of f ≡ Ok a → KeepsStated f a reading
        → IfOk result (λ r. r.status ≡ 0 → GoalHoldsBy f a reading f.goal) }
    ensures reply { IfOk result (λ r. OutlineReply text.now r.status r.output.items) }
{
    let reply = reply_to_text(alloc, &OutlineCommand, text)?;
    Ok(reply)
}
