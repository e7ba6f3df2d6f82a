//! `outline` of a file and notes: checks whether bytes are notes that prove the triple that a text asks.
ghost use Rattle.std.specs.Prelude.{◌≡◌, ◌≢◌, [], None, Ok, IfOk};
ghost use Rattle.kat_model.specs.Problems.{ProblemParts};
ghost use Rattle.while_lang.specs.Files.{FileParts};
ghost use Rattle.problem_file.specs.Reads.{Reads};
ghost use Rattle.while_lang.specs.Concrete.{IsConcrete, Agrees};
ghost use Rattle.abstraction.specs.Abstracts.{AbstractParts, abstract_of};
ghost use Rattle.abstraction.specs.Readings.{Reading, KeepsStated, GoalHoldsBy};
ghost use Rattle.goal_forms.specs.TestTerms.{AreSimple};
ghost use Rattle.outline_rules.specs.declared.fault.NotesFault.TheVariants.{NoMemory as NoRoom};
ghost use Rattle.outline_rules.specs.Tasks.{task_parts, IsTripleOf};
ghost use Rattle.kat_report.specs.OutlineLines.{notes_fault_line, note_reason_line};
ghost use Rattle.tool_decide.specs.OutlineCheck.{SpellsNotes, IsNoNotes, AreChecked, ChecksNotes, NotesHeadline, OutlineCheckReply};
ghost use Rattle.tool_inputs.specs.FileProblem.{Poses};
ghost use Rattle.tool_inputs.specs.Steps.{IsRefusal};
ghost use Rattle.tool_inputs.specs.ReplySpecs.{EndsWith, Yields};

use crate::triple::Triple;
use hoare_outlines::{NoteAnswer, NoteReason, Notes, NotesFault, Task, check_notes, read_notes};
use kat_model::{NoMemory, Problem};
use kat_report::{accepted_outline_line, note_reason_line, notes_fault_line};
use std::alloc::Global;
use tool_inputs::{EarlyEnd, PairCommand, Reply, line, reply_to_pair};

// Returns the reply to bytes with this fault: a refusal, unless memory ran out.
fn fault_end(alloc: Global, fault: NotesFault) -> EarlyEnd
    ensures { EndsWith (λ status output. (status ≡ 2) × ((fault ≢ NoRoom) × (output ≡ notes_fault_line fault))) result }
{
    match fault {
        NotesFault::NoMemory => EarlyEnd::NoMemory,
        _ => match notes_fault_line(alloc, fault) {
            Ok(output) => EarlyEnd::Replied(Reply { status: 2, output }),
            Err(NoMemory) => EarlyEnd::NoMemory,
        },
    }
}

// Returns the notes whose text is these bytes. Other bytes are refused.
fn notes_in(alloc: Global, bytes: &[u8]) -> Result<Notes, EarlyEnd>
    ensures { Yields (SpellsNotes bytes.now) (IsRefusal (IsNoNotes bytes.now)) result }
{
    match read_notes(alloc, bytes) {
        Ok(notes) => Ok(notes),
        Err(fault) => Err(fault_end(alloc, fault)),
    }
}

// Returns a rejection for this reason.
fn rejection(alloc: Global, reason: NoteReason) -> Result<Reply, NoMemory>
    ensures { IfOk result (λ r. (r.status ≡ 3) × (r.output.items ≡ note_reason_line reason)) }
{
    Ok(Reply {
        status: 3,
        output: note_reason_line(alloc, reason)?,
    })
}

// Returns the reply to a problem, its triple and notes.
fn check_reply(
    alloc: Global,
    problem: &Problem,
    task: &Task,
    notes: &Notes,
) -> Result<Reply, NoMemory>
    requires simple { AreSimple problem.now.hyps }
    requires triple { IsTripleOf problem.now (task_parts task.now) }
    ensures { IfOk result (λ r. AreChecked problem.now (task_parts task.now) notes.now r.status r.output.items) }
{
    match check_notes(alloc, problem, task, notes)? {
        NoteAnswer::Accepted => line(alloc, 0, accepted_outline_line()),
        NoteAnswer::Rejected(reason) => rejection(alloc, reason),
    }
}

/// `outline` FILE NOTES
#[derive(Clone, Copy)]
pub struct OutlineCheckCommand;

impl PairCommand for OutlineCheckCommand {
    ghost use Rattle.tool_decide.specs.Working.NotesReplies.{outline_check_reply};

    type Question = Triple;

    ghost steps = { λ _ t bytes. ChecksNotes bytes t.problem (task_parts t.task) };

    ghost replies = { λ _. OutlineCheckReply };

    ghost limit = { λ _. None };

    ghost long_line = { λ _. [] };

    fn limit(&self) -> Option<u64> {
        None
    }

    fn long_line(&self) -> &'static [u8] {
        b""
    }

    fn bytes_reply(
        &self,
        alloc: Global,
        question: &Triple,
        bytes: &[u8],
    ) -> Result<Reply, EarlyEnd> {
        let notes = notes_in(alloc, bytes)?;
        Ok(check_reply(alloc, &question.problem, &question.task, &notes)?)
    }

    ghost refuses_long = { λ _ t bytes past. absurd past };

    ghost is_reply = { λ _. outline_check_reply };
}

/// Returns the reply of `outline` to the bytes of a text and of notes from any source. If the text asks a question, the
/// status is 0 exactly when its goal is a triple of a program, all hypotheses are simple, and the bytes are the text of
/// notes that follow one from the other at the places of the program; then both sides denote one relation in every
/// finite table that satisfies the hypotheses, and the goal of a concrete file holds for all its stores. It is 3
/// exactly when the goal is such a triple, all hypotheses are simple, and the bytes are the text of notes that do not
/// follow, with the line of the first reason; and 2 exactly when the goal is not such a triple, some hypothesis is not
/// simple, or the bytes are not the text of notes, with the line that gives the reason. Fails only when out of memory.
pub fn outline_check_bytes(alloc: Global, text: &[u8], notes: &[u8]) -> Result<Reply, NoMemory>
    ensures headline { (q : ProblemParts) (poses : Poses text.now q)
        → IfOk result (λ r. NotesHeadline notes.now poses.file q r.status r.output.items) }
    ensures stores { (f : FileParts) → Reads text.now f → IsConcrete f → IfOk result (λ r. r.status ≡ 0 → Agrees f) }
    ensures readings { (f : FileParts) (a : AbstractParts) (reading : Reading) → Reads text.now f → abstract_of f ≡ Ok a → KeepsStated f a reading
        → IfOk result (λ r. r.status ≡ 0 → GoalHoldsBy f a reading f.goal) }
    ensures reply { IfOk result (λ r. OutlineCheckReply text.now notes.now r.status r.output.items) }
{
    let reply = reply_to_pair(alloc, &OutlineCheckCommand, text, notes)?;
    Ok(reply)
}
