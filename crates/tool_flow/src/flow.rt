//! `flow`: replies to a text of two flow graphs with the question whether they always return the same, as a problem file.
ghost use Rattle.std.specs.Prelude.{◌≡◌, true, false, IfOk, slice_get};
ghost use Rattle.flow_text.specs.Trees.{graph_of};
ghost use Rattle.flow_text.specs.Checking.{graph_or_none, pair_of};
ghost use Rattle.flow_text.specs.FileViews.{graphs_of, file_parts};
ghost use Rattle.flow_text.specs.Texts.{IsFlowText, FirstFault};
ghost use Rattle.flow_problem.specs.PlacedProblems.{IsFlowPair};
ghost use Rattle.flow_print.specs.FlowTexts.{AreLines};
ghost use Rattle.flow_abstraction.specs.Abstracts.{flow_problem_of};
ghost use Rattle.tool_inputs.specs.TextProblem.{IsFaultOf};
ghost use Rattle.tool_inputs.specs.Steps.{IsRefusal};
ghost use Rattle.tool_inputs.specs.ReplySpecs.{Yields};
ghost use Rattle.tool_flow.specs.Questions.{names_of, problem_text, IsPrintable, HasNoFlowProblem};
ghost use Rattle.tool_flow.specs.Flow.{FlowHeadline, FlowReply};
ghost use Rattle.tool_flow.specs.Working.Found.{IsFound};

use crate::fault::fault_end;
use crate::printable::are_shallow;
use flow_abstraction::{FlowAbstract, FlowFault, problem_of};
use flow_model::Block;
use flow_print::{FlowNames, flow_text};
use flow_text::{FlowFile, read};
use kat_model::{MAX_TEXT_BYTES, NoMemory};
use std::alloc::Global;
use tool_inputs::{EarlyEnd, Reply, TextCommand, reply_to_text, text_fault_end};

// Reads a flow file. A text with a first fault is refused with the line of the fault.
fn file_of(alloc: Global, text: &[u8]) -> Result<FlowFile, EarlyEnd>
    ensures { Yields (λ f. IsFlowText text.now (file_parts f)) (IsRefusal (IsFaultOf (FirstFault text.now))) result }
{
    match read(alloc, text) {
        Ok(file) => Ok(file),
        Err(fault) => Err(text_fault_end(alloc, fault)),
    }
}

// Returns a graph of the file, by its number. A number without a graph gives a graph without blocks.
fn graph_at(graphs: &[Vec<Block>], number: usize) -> &[Block]
    ensures { graph_of result.now ≡ graph_or_none (slice_get (graphs_of graphs.now) number) }
{
    match graphs.get(number) {
        Some(graph) => graph,
        None => &[],
    }
}

// Returns the problem of a file. A file whose question is refused has no problem, and the line gives the reason.
fn problem_in(alloc: Global, file: &FlowFile) -> Result<FlowAbstract, EarlyEnd>
    requires { IsFlowPair (pair_of (file_parts file.now)) }
    ensures { Yields (IsFound (file_parts file.now)) (IsRefusal (HasNoFlowProblem (file_parts file.now))) result }
{
    let before = graph_at(&file.graphs, file.before);
    let after = graph_at(&file.graphs, file.after);
    match problem_of(
        alloc,
        &file.sorts,
        before,
        after,
        file.rounds as usize,
        file.splits,
    ) {
        Ok(found) => Ok(found),
        Err(fault) => Err(fault_end(alloc, fault)),
    }
}

// Returns the text of the problem, whether or not it is within the limits.
fn text_of(alloc: Global, file: &FlowFile, found: &FlowAbstract) -> Result<Vec<u8>, NoMemory>
    requires { IsFound (file_parts file.now) found.now }
    ensures { IfOk result (λ v. v.items ≡ problem_text (file_parts file.now) (flow_problem_of found.now)) }
{
    let names = FlowNames {
        variables: &file.variable_names,
        sorts: &file.sorts,
        functions: &file.function_names,
    };
    flow_text(
        alloc,
        &names,
        &found.tests,
        &found.actions,
        &found.rules,
        &found.problem,
    )
}

// Returns whether the text of the problem is within the limits of a problem file.
fn is_printable(file: &FlowFile, found: &FlowAbstract, text: &[u8]) -> bool
    requires lines { AreLines (names_of (file_parts file.now)) }
    requires found { IsFound (file_parts file.now) found.now }
    requires printed { text.now ≡ problem_text (file_parts file.now) (flow_problem_of found.now) }
    ensures yes { result ≡ true → IsPrintable (file_parts file.now) (flow_problem_of found.now) }
    ensures no { result ≡ false → IsPrintable (file_parts file.now) (flow_problem_of found.now) → ⊥ }
{
    // Shows that the problem is within the limits of a problem.
    let _ = found.problem.left();
    text.len() <= MAX_TEXT_BYTES && are_shallow(&found.problem)
}

/// `flow` FILE
#[derive(Clone, Copy)]
pub struct FlowCommand;

impl TextCommand for FlowCommand {
    ghost use Rattle.tool_flow.specs.Working.FlowReplies.{flow_long};

    ghost replies = { λ _. FlowReply };

    fn text_reply(&self, alloc: Global, text: &[u8]) -> Result<Reply, EarlyEnd> {
        let file = file_of(alloc, text)?;
        let found = problem_in(alloc, &file)?;
        let output = text_of(alloc, &file, &found)?;
        if !is_printable(&file, &found, &output) {
            return Err(fault_end(alloc, FlowFault::ProblemTooLarge));
        }
        Ok(Reply { status: 0, output })
    }

    ghost refuses_long = { λ _. flow_long };
}

/// Returns the reply of `flow` to the bytes of a flow file. The status is 0 exactly when the text is read and its question
/// has a problem within the limits of a problem file, with the text of the problem. If both sides of the question that
/// this text asks are the same, both graphs of the file return the same under every interpretation, from every state.
/// Otherwise the status is 2, with the line of the first fault of the text or of a reason why there is no problem. Fails
/// only when out of memory.
pub fn flow_bytes(alloc: Global, text: &[u8]) -> Result<Reply, NoMemory>
    ensures headline { IfOk result (λ r. FlowHeadline text.now r.status r.output.items) }
    ensures reply { IfOk result (λ r. FlowReply text.now r.status r.output.items) }
{
    let reply = reply_to_text(alloc, &FlowCommand, text)?;
    Ok(reply)
}
