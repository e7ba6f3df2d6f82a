//! `decide` and `batch`.
ghost use Rattle.std.specs.Prelude.{◌≡◌, ℕ, List, Ok};
ghost use Rattle.kat_model.specs.Problems.{ProblemParts};
ghost use Rattle.kat_model.specs.Expressions.{CondTree};
ghost use Rattle.kat_model.specs.declared.expression.Width.{Width};
ghost use Rattle.while_lang.specs.Programs.{ProgTree};
ghost use Rattle.problem_file.specs.Questions.{question_text, IsPrintable};
ghost use Rattle.problem_file.specs.ProgramTexts.{programs_text, triple_text, ArePrintable, IsTriplePrintable};
ghost use Rattle.while_lang.specs.Files.{GoalTree, FileParts};
ghost use Rattle.problem_file.specs.Reads.{Reads, ReadsAll};
ghost use Rattle.while_lang.specs.Concrete.{IsConcrete, Agrees};
ghost use Rattle.abstraction.specs.Abstracts.{AbstractParts, abstract_of};
ghost use Rattle.abstraction.specs.Readings.{Reading, KeepsStated, GoalHoldsBy};
ghost use Rattle.tool_inputs.specs.FileProblem.{Poses};
ghost use Rattle.tool_inputs.specs.StoreAnswers.{AlwaysEndAlike, AlwaysMeets, programs_abstraction, triple_abstraction};
ghost use Rattle.tool_decide.specs.Decide.{Headline, StoreHeadline, DecideReply};
ghost use Rattle.tool_decide.specs.DecideJson.{ReportHeadline, DecideJsonReply};
ghost use Rattle.tool_decide.specs.Batch.{BatchHeadline, BatchReply};
ghost use Rattle.kat_c.specs.CallEnds.{call_end, GivesReply};

use crate::giving::give;
use kat_tool::{batch_bytes, decide_bytes, decide_json_bytes};
use std::alloc::Global;

/// Gives the caller the reply of `kat_tool::decide_bytes`.
#[unsafe(no_mangle)]
pub extern "C" fn kat_decide(alloc: Global, text: &[u8], out: &mut [u8], needed: &mut usize) -> u8
    ensures plain { (q : ProblemParts) → IsPrintable q → text.now ≡ question_text q
        → GivesReply (Headline q) (call_end out.old out.new needed.new result) }
    ensures programs { (w : Width) (v : ℕ) (p q : ProgTree) → ArePrintable w v p q → text.now ≡ programs_text w v p q
        → GivesReply (StoreHeadline (programs_abstraction w v p q) (AlwaysEndAlike w v p q)) (call_end out.old out.new needed.new result) }
    ensures triples { (w : Width) (v : ℕ) (b : CondTree) (p : ProgTree) (c : CondTree) → IsTriplePrintable w v b p c → text.now ≡ triple_text w v b p c
        → GivesReply (StoreHeadline (triple_abstraction w v b p c) (AlwaysMeets w v b p c)) (call_end out.old out.new needed.new result) }
    ensures headline { (q : ProblemParts) → Poses text.now q
        → GivesReply (Headline q) (call_end out.old out.new needed.new result) }
    ensures stores { (f : FileParts) → Reads text.now f → IsConcrete f
        → GivesReply (λ status output. status ≡ 0 → Agrees f) (call_end out.old out.new needed.new result) }
    ensures readings { (f : FileParts) (a : AbstractParts) (reading : Reading) → Reads text.now f → abstract_of f ≡ Ok a → KeepsStated f a reading
        → GivesReply (λ status output. status ≡ 0 → GoalHoldsBy f a reading f.goal) (call_end out.old out.new needed.new result) }
    ensures reply { GivesReply (DecideReply text.now) (call_end out.old out.new needed.new result) }
{
    give(decide_bytes(alloc, text), out, needed)
}

/// Gives the caller the reply of `kat_tool::decide_json_bytes`.
#[unsafe(no_mangle)]
pub extern "C" fn kat_decide_json(
    alloc: Global,
    text: &[u8],
    out: &mut [u8],
    needed: &mut usize,
) -> u8
    ensures headline { (q : ProblemParts) → Poses text.now q
        → GivesReply (ReportHeadline q) (call_end out.old out.new needed.new result) }
    ensures stores { (f : FileParts) → Reads text.now f → IsConcrete f
        → GivesReply (λ status output. status ≡ 0 → Agrees f) (call_end out.old out.new needed.new result) }
    ensures readings { (f : FileParts) (a : AbstractParts) (reading : Reading) → Reads text.now f → abstract_of f ≡ Ok a → KeepsStated f a reading
        → GivesReply (λ status output. status ≡ 0 → GoalHoldsBy f a reading f.goal) (call_end out.old out.new needed.new result) }
    ensures reply { GivesReply (DecideJsonReply text.now) (call_end out.old out.new needed.new result) }
{
    give(decide_json_bytes(alloc, text), out, needed)
}

/// Gives the caller the reply of `kat_tool::batch_bytes`.
#[unsafe(no_mangle)]
pub extern "C" fn kat_batch(alloc: Global, text: &[u8], out: &mut [u8], needed: &mut usize) -> u8
    ensures headline { (f : FileParts) (more : List GoalTree) → ReadsAll text.now f more
        → GivesReply (BatchHeadline f more) (call_end out.old out.new needed.new result) }
    ensures reply { GivesReply (BatchReply text.now) (call_end out.old out.new needed.new result) }
{
    give(batch_bytes(alloc, text), out, needed)
}
