//! `check`, `replay`, `explain`, `try` and `chain`.
ghost use Rattle.std.specs.Prelude.{◌≡◌, ℕ, Ok};
ghost use Rattle.kat_model.specs.Problems.{ProblemParts};
ghost use Rattle.kat_model.specs.Expressions.{CondTree};
ghost use Rattle.kat_model.specs.declared.expression.Width.{Width};
ghost use Rattle.while_lang.specs.Programs.{ProgTree};
ghost use Rattle.problem_file.specs.ProgramTexts.{programs_text, triple_text, ArePrintable, IsTriplePrintable};
ghost use Rattle.while_lang.specs.Files.{FileParts};
ghost use Rattle.problem_file.specs.Reads.{Reads};
ghost use Rattle.while_lang.specs.Concrete.{IsConcrete, Agrees};
ghost use Rattle.abstraction.specs.Abstracts.{AbstractParts, abstract_of};
ghost use Rattle.abstraction.specs.Readings.{Reading, KeepsStated, GoalHoldsBy};
ghost use Rattle.tool_inputs.specs.FileProblem.{Poses};
ghost use Rattle.tool_inputs.specs.StoreAnswers.{AlwaysEndAlike, AlwaysMeets};
ghost use Rattle.tool_check.specs.Check.{CheckHeadline, CheckReply};
ghost use Rattle.tool_check.specs.Replay.{ReplayHeadline, ReplayReply};
ghost use Rattle.tool_check.specs.Chain.{ChainHeadline, ChainReply};
ghost use Rattle.tool_explain.specs.Explain.{ExplainHeadline, ExplainReply};
ghost use Rattle.tool_try.specs.Try.{TryHeadline, TryReply};
ghost use Rattle.tool_try.specs.TryWith.{TryWithHeadline, TryWithReply};
ghost use Rattle.kat_c.specs.CallEnds.{call_end, GivesReply};

use crate::giving::give;
use kat_tool::{chain_bytes, check_bytes, explain_bytes, replay_bytes, try_bytes, try_with_bytes};
use std::alloc::Global;

/// Gives the caller the reply of `kat_tool::check_bytes`.
#[unsafe(no_mangle)]
pub extern "C" fn kat_check(
    alloc: Global,
    text: &[u8],
    evidence: &[u8],
    out: &mut [u8],
    needed: &mut usize,
) -> u8
    ensures headline { (q : ProblemParts) → Poses text.now q
        → GivesReply (CheckHeadline evidence.now q) (call_end out.old out.new needed.new result) }
    ensures programs { (w : Width) (v : ℕ) (p q : ProgTree) → ArePrintable w v p q → text.now ≡ programs_text w v p q
        → GivesReply (λ status output. status ≡ 0 → AlwaysEndAlike w v p q) (call_end out.old out.new needed.new result) }
    ensures triples { (w : Width) (v : ℕ) (b : CondTree) (p : ProgTree) (c : CondTree) → IsTriplePrintable w v b p c → text.now ≡ triple_text w v b p c
        → GivesReply (λ status output. status ≡ 0 → AlwaysMeets w v b p c) (call_end out.old out.new needed.new result) }
    ensures stores { (f : FileParts) → Reads text.now f → IsConcrete f
        → GivesReply (λ status output. status ≡ 0 → Agrees f) (call_end out.old out.new needed.new result) }
    ensures readings { (f : FileParts) (a : AbstractParts) (reading : Reading) → Reads text.now f → abstract_of f ≡ Ok a → KeepsStated f a reading
        → GivesReply (λ status output. status ≡ 0 → GoalHoldsBy f a reading f.goal) (call_end out.old out.new needed.new result) }
    ensures reply { GivesReply (CheckReply text.now evidence.now) (call_end out.old out.new needed.new result) }
{
    give(check_bytes(alloc, text, evidence), out, needed)
}

/// Gives the caller the reply of `kat_tool::replay_bytes`.
#[unsafe(no_mangle)]
pub extern "C" fn kat_replay(
    alloc: Global,
    text: &[u8],
    evidence: &[u8],
    out: &mut [u8],
    needed: &mut usize,
) -> u8
    ensures headline { (q : ProblemParts) → Poses text.now q
        → GivesReply (ReplayHeadline evidence.now q) (call_end out.old out.new needed.new result) }
    ensures reply { GivesReply (ReplayReply text.now evidence.now) (call_end out.old out.new needed.new result) }
{
    give(replay_bytes(alloc, text, evidence), out, needed)
}

/// Gives the caller the reply of `kat_tool::explain_bytes`.
#[unsafe(no_mangle)]
pub extern "C" fn kat_explain(
    alloc: Global,
    text: &[u8],
    evidence: &[u8],
    out: &mut [u8],
    needed: &mut usize,
) -> u8
    ensures headline { (f : FileParts) (a : AbstractParts) → Reads text.now f → abstract_of f ≡ Ok a
        → GivesReply (ExplainHeadline evidence.now f a) (call_end out.old out.new needed.new result) }
    ensures reply { GivesReply (ExplainReply text.now evidence.now) (call_end out.old out.new needed.new result) }
{
    give(explain_bytes(alloc, text, evidence), out, needed)
}

/// Gives the caller the reply of `kat_tool::try_bytes`.
#[unsafe(no_mangle)]
pub extern "C" fn kat_try(
    alloc: Global,
    text: &[u8],
    turns: u64,
    out: &mut [u8],
    needed: &mut usize,
) -> u8
    ensures headline { (f : FileParts) → Reads text.now f
        → GivesReply (TryHeadline f turns) (call_end out.old out.new needed.new result) }
    ensures reply { GivesReply (TryReply text.now turns) (call_end out.old out.new needed.new result) }
{
    give(try_bytes(alloc, text, turns), out, needed)
}

/// Gives the caller the reply of `kat_tool::try_with_bytes`.
#[unsafe(no_mangle)]
pub extern "C" fn kat_try_with(
    alloc: Global,
    text: &[u8],
    turns: u64,
    evidence: &[u8],
    out: &mut [u8],
    needed: &mut usize,
) -> u8
    ensures headline { (f : FileParts) (a : AbstractParts) → Reads text.now f → IsConcrete f → abstract_of f ≡ Ok a
        → GivesReply (TryWithHeadline turns evidence.now f a) (call_end out.old out.new needed.new result) }
    ensures reply { GivesReply (TryWithReply turns text.now evidence.now) (call_end out.old out.new needed.new result) }
{
    give(try_with_bytes(alloc, text, evidence, turns), out, needed)
}

/// Gives the caller the reply of `kat_tool::chain_bytes`.
#[unsafe(no_mangle)]
pub extern "C" fn kat_chain(
    alloc: Global,
    text: &[u8],
    proof: &[u8],
    out: &mut [u8],
    needed: &mut usize,
) -> u8
    ensures headline { (q : ProblemParts) → Poses text.now q
        → GivesReply (ChainHeadline proof.now q) (call_end out.old out.new needed.new result) }
    ensures stores { (f : FileParts) → Reads text.now f → IsConcrete f
        → GivesReply (λ status output. status ≡ 0 → Agrees f) (call_end out.old out.new needed.new result) }
    ensures readings { (f : FileParts) (a : AbstractParts) (reading : Reading) → Reads text.now f → abstract_of f ≡ Ok a → KeepsStated f a reading
        → GivesReply (λ status output. status ≡ 0 → GoalHoldsBy f a reading f.goal) (call_end out.old out.new needed.new result) }
    ensures reply { GivesReply (ChainReply text.now proof.now) (call_end out.old out.new needed.new result) }
{
    give(chain_bytes(alloc, text, proof), out, needed)
}
