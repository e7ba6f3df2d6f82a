//! The whole program, over a given shelf and sink.
#![tactic(auto)]

ghost use Rattle.std.specs.Prelude.{◌≡◌, ℕ, List, IfOk};
ghost use Rattle.tool_commands.specs.Commands.{command_seen};
ghost use Rattle.tool_inputs.specs.Steps.{shelf_use};
ghost use Rattle.tool_inputs.specs.ReplySpecs.{RepliesWith, KeepsFaultCount};
ghost use Rattle.kat_tool.specs.Replies.{RepliesTo, Replies};
ghost use Rattle.kat_tool.specs.Run.{IsRun, sink_use};

mod laws;

use kat_io::{Shelf, Sink, send};
use kat_model::NoMemory;
use kat_report::words_line;
pub use laws::{
    causes_exclude, check_agrees, flows_agree, headlines_agree, notes_follow, plain_flows_agree,
    words_give_stores,
};
use std::alloc::Global;
pub use tool_check::{chain_bytes, check_bytes, replay_bytes};
use tool_check::{ChainCommand, CheckCommand, ReplayCommand};
use tool_commands::Command;
pub use tool_commands::Words;
pub use tool_decide::{
    batch_bytes, decide_bytes, decide_json_bytes, optimise_bytes, outline_bytes,
    outline_check_bytes,
};
use tool_decide::{
    BatchCommand, DecideCommand, DecideJsonCommand, OptimiseCommand, OutlineCheckCommand,
    OutlineCommand, bench_reply,
};
use tool_explain::ExplainCommand;
pub use tool_explain::explain_bytes;
use tool_flow::FlowCommand;
pub use tool_flow::flow_bytes;
pub use tool_inputs::Reply;
use tool_inputs::{EarlyEnd, into_reply, line, reply_to_file, reply_to_files, reply_to_text_file};
pub use tool_programs::{gkat_bytes, one_loop_bytes, run_bytes, show_bytes};
use tool_programs::{GkatCommand, OneLoopCommand, RunCommand, ShowCommand};
use tool_try::{TryCommand, TryWithCommand};
pub use tool_try::{try_bytes, try_with_bytes};

fn command_reply<S: Shelf>(
    alloc: Global,
    command: Command<'_>,
    shelf: &mut S,
) -> Result<Reply, EarlyEnd>
    ensures replied { RepliesWith (RepliesTo (shelf_use (S.content shelf.old) (S.faults shelf.old) (S.faults shelf.new) (S.last_failed shelf.new)) (command_seen command.entry)) result }
    ensures counts { KeepsFaultCount (S.faults shelf.old) (S.faults shelf.new) result }
    ensures kept { (name : List ℕ) → S.content shelf.new name ≡ S.content shelf.old name }
{
    match command {
        Command::Decide(file) => reply_to_text_file(alloc, &DecideCommand, file, shelf),
        Command::DecideJson(file) => reply_to_text_file(alloc, &DecideJsonCommand, file, shelf),
        Command::Show(file) => reply_to_file(alloc, &ShowCommand, file, shelf),
        Command::Gkat(file) => reply_to_text_file(alloc, &GkatCommand, file, shelf),
        Command::Flow(file) => reply_to_text_file(alloc, &FlowCommand, file, shelf),
        Command::Batch(file) => reply_to_text_file(alloc, &BatchCommand, file, shelf),
        Command::Check(file, other) => reply_to_files(alloc, &CheckCommand, file, other, shelf),
        Command::Replay(file, other) => reply_to_files(alloc, &ReplayCommand, file, other, shelf),
        Command::Explain(file, other) => reply_to_files(alloc, &ExplainCommand, file, other, shelf),
        Command::Try { file, turns } => reply_to_file(alloc, &TryCommand { turns }, file, shelf),
        Command::TryWith {
            file,
            turns,
            evidence,
        } => reply_to_files(alloc, &TryWithCommand { turns }, file, evidence, shelf),
        Command::Outline(file) => reply_to_text_file(alloc, &OutlineCommand, file, shelf),
        Command::OutlineCheck(file, other) => {
            reply_to_files(alloc, &OutlineCheckCommand, file, other, shelf)
        }
        Command::Chain(file, other) => reply_to_files(alloc, &ChainCommand, file, other, shelf),
        Command::Run {
            file,
            prog,
            store,
            turns,
        } => reply_to_file(alloc, &RunCommand { prog, store, turns }, file, shelf),
        Command::OneLoop(file, prog) => {
            reply_to_file(alloc, &OneLoopCommand { prog }, file, shelf)
        }
        Command::Bench(count) => match bench_reply(alloc, count) {
            Ok(reply) => Ok(reply),
            Err(NoMemory) => Err(EarlyEnd::NoMemory),
        },
        Command::Optimise { file, prog, turns } => {
            reply_to_file(alloc, &OptimiseCommand { prog, turns }, file, shelf)
        }
    }
}

fn answer<S: Shelf>(alloc: Global, words: &Words, shelf: &mut S) -> Result<Reply, NoMemory>
    ensures replies { IfOk result (λ r. Replies (shelf_use (S.content shelf.old) (S.faults shelf.old) (S.faults shelf.new) (S.last_failed shelf.new)) words.now r.status r.output.items) }
    ensures kept { (name : List ℕ) → S.content shelf.new name ≡ S.content shelf.old name }
{
    let Some(command) = words.command() else {
        return line(alloc, 7, words_line());
    };
    into_reply(command_reply(alloc, command, shelf))
}

/// Runs the command of the words over the shelf, sends the output to the sink and returns the exit status. `IsRun` of
/// `specs/Run.antt` says all of it.
/// - 0: the goals hold, those of a concrete file for all its stores; or, for other commands, the result is printed
/// - 1: the question over tests and actions fails, which says nothing about stores; `try`: the goal is false from the
///   printed store; `run`: stuck or no turn left
/// - 2: a file is refused, or one of its goals or its program; the output is the line with the reason
/// - 3: the evidence, the proof or the notes are read but rejected; the output is the line with the first reason
/// - 4: the shelf failed in this call on a file that the words name
/// - 5: the sink failed in this call and took a proper prefix of the output
/// - 6: out of memory; nothing was sent
/// - 7: the words form no command, or PROG or STORE does not fit FILE
pub fn run<S: Shelf, K: Sink>(alloc: Global, words: &Words, shelf: &mut S, sink: &mut K) -> u8
    ensures is_run { IsRun (record {
      words = words.now;
      shelf = shelf_use (S.content shelf.old) (S.faults shelf.old) (S.faults shelf.new) (S.last_failed shelf.new);
      sink = sink_use (K.faults sink.old) (K.faults sink.new) (K.taken sink.old) (K.taken sink.new);
      status = result;
    }) }
    ensures kept { (name : List ℕ) → S.content shelf.new name ≡ S.content shelf.old name }
{
    match answer(alloc, words, shelf) {
        Ok(reply) => match send(sink, &reply.output) {
            Ok(()) => reply.status,
            Err(_) => 5,
        },
        Err(NoMemory) => 6,
    }
}
