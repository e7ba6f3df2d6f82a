//! `show`, `run`, `oneloop`, `gkat`, `flow` and `optimise`. Names of programs and stores are bytes here: those that are
//! not UTF-8 are refused, as words that do not fit a file.
ghost use Rattle.std.specs.Prelude.{◌≡◌, IfOk, IsUtf8};
ghost use Rattle.while_lang.specs.Files.{FileParts};
ghost use Rattle.problem_file.specs.Reads.{Reads};
ghost use Rattle.tool_programs.specs.Running.{RunHeadline, RunReply};
ghost use Rattle.tool_programs.specs.OneLoop.{OneLoopHeadline, OneLoopReply};
ghost use Rattle.tool_programs.specs.Show.{ShowHeadline, ShowReply};
ghost use Rattle.tool_programs.specs.Gkat.{GkatHeadline, GkatReply};
ghost use Rattle.tool_flow.specs.Flow.{FlowHeadline, FlowReply};
ghost use Rattle.tool_decide.specs.Optimise.{OptimiseHeadline, OptimiseReply};
ghost use Rattle.kat_c.specs.CallEnds.{call_end, GivesReply, RefusesWords};

use crate::giving::give;
use kat_model::NoMemory;
use kat_report::words_line;
use kat_tool::{
    Reply, flow_bytes, gkat_bytes, one_loop_bytes, optimise_bytes, run_bytes, show_bytes,
};
use std::alloc::Global;
use std::str;
use tool_inputs::line;

fn refused_words(alloc: Global) -> Result<Reply, NoMemory>
    ensures { IfOk result (λ r. RefusesWords r.status r.output.items) }
{
    line(alloc, 7, words_line())
}

fn run_reply(
    alloc: Global,
    text: &[u8],
    prog: &[u8],
    store: &[u8],
    turns: u64,
) -> Result<Reply, NoMemory>
    ensures headline { (f : FileParts) → Reads text.now f → IsUtf8 prog.now → IsUtf8 store.now
        → IfOk result (λ r. RunHeadline f prog.now store.now turns r.status r.output.items) }
    ensures reply { IsUtf8 prog.now → IsUtf8 store.now
        → IfOk result (λ r. RunReply text.now prog.now store.now turns r.status r.output.items) }
    ensures words { (IsUtf8 prog.now → IsUtf8 store.now → ⊥) → IfOk result (λ r. RefusesWords r.status r.output.items) }
{
    let Ok(name) = str::from_utf8(prog) else {
        return refused_words(alloc);
    };
    let Ok(values) = str::from_utf8(store) else {
        return refused_words(alloc);
    };
    run_bytes(alloc, text, name, values, turns)
}

fn one_loop_reply(alloc: Global, text: &[u8], prog: &[u8]) -> Result<Reply, NoMemory>
    ensures headline { (f : FileParts) → Reads text.now f → IsUtf8 prog.now
        → IfOk result (λ r. OneLoopHeadline f prog.now r.status r.output.items) }
    ensures reply { IsUtf8 prog.now → IfOk result (λ r. OneLoopReply text.now prog.now r.status r.output.items) }
    ensures words { (IsUtf8 prog.now → ⊥) → IfOk result (λ r. RefusesWords r.status r.output.items) }
{
    match str::from_utf8(prog) {
        Ok(name) => one_loop_bytes(alloc, text, name),
        Err(_) => refused_words(alloc),
    }
}

fn optimise_reply(alloc: Global, text: &[u8], prog: &[u8], turns: u64) -> Result<Reply, NoMemory>
    ensures headline { (f : FileParts) → Reads text.now f → IsUtf8 prog.now
        → IfOk result (λ r. OptimiseHeadline f prog.now turns r.status r.output.items) }
    ensures reply { IsUtf8 prog.now → IfOk result (λ r. OptimiseReply text.now prog.now turns r.status r.output.items) }
    ensures words { (IsUtf8 prog.now → ⊥) → IfOk result (λ r. RefusesWords r.status r.output.items) }
{
    match str::from_utf8(prog) {
        Ok(name) => optimise_bytes(alloc, text, name, turns),
        Err(_) => refused_words(alloc),
    }
}

/// Gives the caller the reply of `kat_tool::show_bytes`.
#[unsafe(no_mangle)]
pub extern "C" fn kat_show(alloc: Global, text: &[u8], out: &mut [u8], needed: &mut usize) -> u8
    ensures headline { GivesReply (ShowHeadline text.now) (call_end out.old out.new needed.new result) }
    ensures reply { GivesReply (ShowReply text.now) (call_end out.old out.new needed.new result) }
{
    give(show_bytes(alloc, text), out, needed)
}

/// Gives the caller the reply of `kat_tool::run_bytes`, or a refusal if the name or the store is not UTF-8.
#[unsafe(no_mangle)]
pub extern "C" fn kat_run(
    alloc: Global,
    text: &[u8],
    prog: &[u8],
    store: &[u8],
    turns: u64,
    out: &mut [u8],
    needed: &mut usize,
) -> u8
    ensures headline { (f : FileParts) → Reads text.now f → IsUtf8 prog.now → IsUtf8 store.now
        → GivesReply (RunHeadline f prog.now store.now turns) (call_end out.old out.new needed.new result) }
    ensures reply { IsUtf8 prog.now → IsUtf8 store.now
        → GivesReply (RunReply text.now prog.now store.now turns) (call_end out.old out.new needed.new result) }
    ensures words { (IsUtf8 prog.now → IsUtf8 store.now → ⊥) → GivesReply RefusesWords (call_end out.old out.new needed.new result) }
{
    give(run_reply(alloc, text, prog, store, turns), out, needed)
}

/// Gives the caller the reply of `kat_tool::one_loop_bytes`, or a refusal if the name is not UTF-8.
#[unsafe(no_mangle)]
pub extern "C" fn kat_oneloop(
    alloc: Global,
    text: &[u8],
    prog: &[u8],
    out: &mut [u8],
    needed: &mut usize,
) -> u8
    ensures headline { (f : FileParts) → Reads text.now f → IsUtf8 prog.now
        → GivesReply (OneLoopHeadline f prog.now) (call_end out.old out.new needed.new result) }
    ensures reply { IsUtf8 prog.now → GivesReply (OneLoopReply text.now prog.now) (call_end out.old out.new needed.new result) }
    ensures words { (IsUtf8 prog.now → ⊥) → GivesReply RefusesWords (call_end out.old out.new needed.new result) }
{
    give(one_loop_reply(alloc, text, prog), out, needed)
}

/// Gives the caller the reply of `kat_tool::gkat_bytes`.
#[unsafe(no_mangle)]
pub extern "C" fn kat_gkat(alloc: Global, text: &[u8], out: &mut [u8], needed: &mut usize) -> u8
    ensures headline { GivesReply (GkatHeadline text.now) (call_end out.old out.new needed.new result) }
    ensures reply { GivesReply (GkatReply text.now) (call_end out.old out.new needed.new result) }
{
    give(gkat_bytes(alloc, text), out, needed)
}

/// Gives the caller the reply of `kat_tool::flow_bytes`.
#[unsafe(no_mangle)]
pub extern "C" fn kat_flow(alloc: Global, text: &[u8], out: &mut [u8], needed: &mut usize) -> u8
    ensures headline { GivesReply (FlowHeadline text.now) (call_end out.old out.new needed.new result) }
    ensures reply { GivesReply (FlowReply text.now) (call_end out.old out.new needed.new result) }
{
    give(flow_bytes(alloc, text), out, needed)
}

/// Gives the caller the reply of `kat_tool::optimise_bytes`, or a refusal if the name is not UTF-8.
#[unsafe(no_mangle)]
pub extern "C" fn kat_optimise(
    alloc: Global,
    text: &[u8],
    prog: &[u8],
    turns: u64,
    out: &mut [u8],
    needed: &mut usize,
) -> u8
    ensures headline { (f : FileParts) → Reads text.now f → IsUtf8 prog.now
        → GivesReply (OptimiseHeadline f prog.now turns) (call_end out.old out.new needed.new result) }
    ensures reply { IsUtf8 prog.now → GivesReply (OptimiseReply text.now prog.now turns) (call_end out.old out.new needed.new result) }
    ensures words { (IsUtf8 prog.now → ⊥) → GivesReply RefusesWords (call_end out.old out.new needed.new result) }
{
    give(optimise_reply(alloc, text, prog, turns), out, needed)
}
