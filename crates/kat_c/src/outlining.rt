//! `outline`, which proves and checks notes.
ghost use Rattle.std.specs.Prelude.{◌≡◌, Ok};
ghost use Rattle.kat_model.specs.Problems.{ProblemParts};
ghost use Rattle.while_lang.specs.Files.{FileParts};
ghost use Rattle.problem_file.specs.Reads.{Reads};
ghost use Rattle.while_lang.specs.Concrete.{IsConcrete, Agrees};
ghost use Rattle.abstraction.specs.Abstracts.{AbstractParts, abstract_of};
ghost use Rattle.abstraction.specs.Readings.{Reading, KeepsStated, GoalHoldsBy};
ghost use Rattle.tool_inputs.specs.FileProblem.{Poses};
ghost use Rattle.tool_decide.specs.Outline.{OutlineHeadline, OutlineReply};
ghost use Rattle.tool_decide.specs.OutlineCheck.{NotesHeadline, OutlineCheckReply};
ghost use Rattle.kat_c.specs.CallEnds.{call_end, GivesReply};

use crate::giving::give;
use kat_tool::{outline_bytes, outline_check_bytes};
use std::alloc::Global;

/// Gives the caller the reply of `kat_tool::outline_bytes`.
#[unsafe(no_mangle)]
pub extern "C" fn kat_outline(alloc: Global, text: &[u8], out: &mut [u8], needed: &mut usize) -> u8
    ensures headline { (q : ProblemParts) (poses : Poses text.now q)
        → GivesReply (OutlineHeadline poses.file q) (call_end out.old out.new needed.new result) }
    ensures stores { (f : FileParts) → Reads text.now f → IsConcrete f
        → GivesReply (λ status output. status ≡ 0 → Agrees f) (call_end out.old out.new needed.new result) }
    ensures readings { (f : FileParts) (a : AbstractParts) (reading : Reading) → Reads text.now f → abstract_of f ≡ Ok a → KeepsStated f a reading
        → GivesReply (λ status output. status ≡ 0 → GoalHoldsBy f a reading f.goal) (call_end out.old out.new needed.new result) }
    ensures reply { GivesReply (OutlineReply text.now) (call_end out.old out.new needed.new result) }
{
    give(outline_bytes(alloc, text), out, needed)
}

/// Gives the caller the reply of `kat_tool::outline_check_bytes`.
#[unsafe(no_mangle)]
pub extern "C" fn kat_outline_check(
    alloc: Global,
    text: &[u8],
    notes: &[u8],
    out: &mut [u8],
    needed: &mut usize,
) -> u8
    ensures headline { (q : ProblemParts) (poses : Poses text.now q)
        → GivesReply (NotesHeadline notes.now poses.file q) (call_end out.old out.new needed.new result) }
    ensures stores { (f : FileParts) → Reads text.now f → IsConcrete f
        → GivesReply (λ status output. status ≡ 0 → Agrees f) (call_end out.old out.new needed.new result) }
    ensures readings { (f : FileParts) (a : AbstractParts) (reading : Reading) → Reads text.now f → abstract_of f ≡ Ok a → KeepsStated f a reading
        → GivesReply (λ status output. status ≡ 0 → GoalHoldsBy f a reading f.goal) (call_end out.old out.new needed.new result) }
    ensures reply { GivesReply (OutlineCheckReply text.now notes.now) (call_end out.old out.new needed.new result) }
{
    give(outline_check_bytes(alloc, text, notes), out, needed)
}
