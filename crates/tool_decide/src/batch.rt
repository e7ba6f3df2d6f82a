//! `batch`: replies to a text with the decision of each of its goals. All goals share one store.
ghost use Rattle.std.specs.Prelude.{◌≡◌, ◌++◌, ℕ, max, List, map, IfOk, OnOk};
ghost use Rattle.std.specs.Fmt.{decimal};
ghost use Rattle.kat_model.specs.Members.{Has};
ghost use Rattle.abstraction.specs.Abstracts.{AbstractParts, HasNumbersInRange, abstract_of, with_goal};
ghost use Rattle.while_lang.specs.Files.{GoalTree, FileParts};
ghost use Rattle.problem_file.specs.Reads.{ReadsAll, FirstFaultOfAll};
ghost use Rattle.problem_file.specs.Laws.{ReadsBoth};
ghost use Rattle.while_lang.specs.Trees.{goal_tree};
ghost use Rattle.tool_inputs.specs.TextProblem.{IsFaultOf, HasNoAbstraction};
ghost use Rattle.tool_inputs.specs.Steps.{IsRefusal};
ghost use Rattle.tool_decide.specs.Decide.{IsDecided};
ghost use Rattle.tool_decide.specs.Batch.{with_each, PosesSome, IsFirstRefused, goal_line, IsGoalAnswer, AnswersFrom, AnswersAll, BatchHeadline, BatchReply};
ghost use Rattle.tool_inputs.specs.ReplySpecs.{Yields, RepliesWith, IsQuestionOf};
ghost use Rattle.tool_decide.specs.Working.Goals.{AreInRange};

use crate::decide::decided_reply;
use abstraction::{AbstractFault, abstracted_for};
use bisim_worklist::decide_in;
use kat_model::{NoMemory, Problem};
use problem_file::{File, Goal, read_all};
use std::alloc::Global;
use term_store::Store;
use tool_inputs::{EarlyEnd, Reply, TextCommand, abstract_for, reply_to_text, text_fault_end};

// Reads a text. Returns the file with its first goal, and the goals after it.
fn goals_of(alloc: Global, text: &[u8]) -> Result<(File, Vec<Goal>), EarlyEnd>
    ensures { Yields (λ x. ReadsBoth text.now (x.0, map goal_tree x.1.items)) (IsRefusal (IsFaultOf (FirstFaultOfAll text.now))) result }
{
    match read_all(alloc, text) {
        Ok(goals) => Ok(goals),
        Err(fault) => Err(text_fault_end(alloc, fault)),
    }
}

// Checks that a goal asks a question. Does not keep the question.
fn test_goal(alloc: Global, file: &File, goal: &Goal) -> Result<(), EarlyEnd>
    requires { HasNumbersInRange (with_goal file.now (goal_tree goal.now)) }
    ensures { Yields (λ u. PosesSome (with_goal file.now (goal_tree goal.now))) (IsRefusal (HasNoAbstraction (with_goal file.now (goal_tree goal.now)))) result }
{
    match abstract_for(alloc, file, goal) {
        Ok(_) => Ok(()),
        Err(stop) => Err(stop),
    }
}

// Checks that each goal asks a question. Keeps no question, since all hypotheses together can have millions of nodes.
fn test_goals(alloc: Global, file: &File, more: &[Goal]) -> Result<(), EarlyEnd>
    requires { AreInRange file.now (map goal_tree more.now) }
    ensures { Yields (λ u. (f : FileParts) → Has (with_each file.now (map goal_tree more.now)) f → PosesSome f) (IsRefusal (IsFirstRefused (with_each file.now (map goal_tree more.now)))) result }
{
    test_goal(alloc, file, &file.goal)?;
    for goal in more {
        test_goal(alloc, file, goal)?;
    }
    Ok(())
}

// Returns the question of a goal that asks one. Fails only when out of memory.
fn question_of(alloc: Global, file: &File, goal: &Goal) -> Result<Problem, NoMemory>
    requires numbers { HasNumbersInRange (with_goal file.now (goal_tree goal.now)) }
    requires poses { PosesSome (with_goal file.now (goal_tree goal.now)) }
    ensures { IfOk result (IsQuestionOf (with_goal file.now (goal_tree goal.now))) }
{
    match abstracted_for(alloc, file, goal) {
        Ok(shown) => Ok(shown.into_problem()),
        Err(AbstractFault::NoMemory) => Err(NoMemory),
        Err(_) => unreachable!(),
    }
}

// Returns the answer to a goal.
fn goal_reply(alloc: Global, store: &mut Store, file: &File, goal: &Goal) -> Result<Reply, NoMemory>
    requires numbers { HasNumbersInRange (with_goal file.now (goal_tree goal.now)) }
    requires poses { PosesSome (with_goal file.now (goal_tree goal.now)) }
    ensures { IfOk result (λ r. IsGoalAnswer (with_goal file.now (goal_tree goal.now)) r.status r.output.items) }
{
    let problem = question_of(alloc, file, goal)?;
    let evidence = decide_in(alloc, store, &problem)?;
    decided_reply(alloc, &problem, &evidence)
}

// Appends the answer to goal `k`.
fn put_answer(alloc: Global, all: &mut Reply, k: usize, answer: &Reply) -> Result<(), NoMemory>
    ensures { OnOk result (
        (all.new.status ≡ max all.old.status answer.now.status) × (all.new.output.items ≡ all.old.output.items ++ (goal_line k ++ answer.now.output.items))
        ) }
{
    all.output
        .extend_from_slice(format!(in alloc; "goal {k}\n")?.as_bytes())?;
    all.output.extend_from_slice(&answer.output)?;
    all.status = all.status.max(answer.status);
    Ok(())
}

// Returns the answers to all goals, decided with this store.
fn answers_in(
    alloc: Global,
    store: &mut Store,
    file: &File,
    more: &[Goal],
) -> Result<Reply, NoMemory>
    requires numbers { AreInRange file.now (map goal_tree more.now) }
    requires poses { (f : FileParts) → Has (with_each file.now (map goal_tree more.now)) f → PosesSome f }
    ensures { IfOk result (λ r. AnswersFrom 0 (with_each file.now (map goal_tree more.now)) r.status r.output.items) }
{
    let mut all = Reply {
        status: 0,
        output: Vec::new(alloc),
    };
    let first = goal_reply(alloc, store, file, &file.goal)?;
    put_answer(alloc, &mut all, 0, &first)?;
    for (k, goal) in more.iter().enumerate() {
        let answer = goal_reply(alloc, store, file, goal)?;
        put_answer(alloc, &mut all, k + 1, &answer)?;
    }
    Ok(all)
}

// Returns the answers to all goals. The store is owned where nothing else can fail.
fn answers(alloc: Global, file: &File, more: &[Goal]) -> Result<Reply, NoMemory>
    requires numbers { AreInRange file.now (map goal_tree more.now) }
    requires poses { (f : FileParts) → Has (with_each file.now (map goal_tree more.now)) f → PosesSome f }
    ensures { IfOk result (λ r. AnswersFrom 0 (with_each file.now (map goal_tree more.now)) r.status r.output.items) }
{
    let mut store = Store::new(alloc);
    answers_in(alloc, &mut store, file, more)
}

// Returns the reply to a file and the goals after its first. Each goal is abstracted twice: all goals are checked
// before the first is decided, so that a refusal is printed without answers; and no abstraction is kept, since the
// hypotheses of 64 problems can have millions of nodes.
fn goals_reply(alloc: Global, file: &File, more: &[Goal]) -> Result<Reply, EarlyEnd>
    requires { AreInRange file.now (map goal_tree more.now) }
    ensures { RepliesWith (AnswersAll file.now (map goal_tree more.now)) result }
{
    test_goals(alloc, file, more)?;
    Ok(answers(alloc, file, more)?)
}

/// `batch` FILE
#[derive(Clone, Copy)]
pub struct BatchCommand;

impl TextCommand for BatchCommand {
    ghost use Rattle.tool_decide.specs.Working.BatchReplies.{batch_long};

    ghost replies = { λ _. BatchReply };

    fn text_reply(&self, alloc: Global, text: &[u8]) -> Result<Reply, EarlyEnd> {
        let (file, more) = goals_of(alloc, text)?;
        goals_reply(alloc, &file, &more)
    }

    ghost refuses_long = { λ _. batch_long };
}

/// Returns the reply of `batch` to the bytes of a text with 1 to 64 goals. Each goal is answered as `decide` answers
/// the file with only that goal, after a line with its number. The status is 0 exactly when both sides of each goal
/// denote one relation in every finite table that satisfies its hypotheses, and 1 exactly when each goal asks a
/// question and the sides of some goal do not. It is 2 if the text is not read or a goal is refused, with only the line
/// of the first refusal. If the status is 0, the goals of a concrete file hold for all its stores, and those of any file
/// hold for them under each reading of its tests and actions that satisfies its hypotheses. Fails only when out of
/// memory.
pub fn batch_bytes(alloc: Global, text: &[u8]) -> Result<Reply, NoMemory>
    ensures headline { (f : FileParts) (more : List GoalTree) → ReadsAll text.now f more
        → IfOk result (λ r. BatchHeadline f more r.status r.output.items) }
    ensures reply { IfOk result (λ r. BatchReply text.now r.status r.output.items) }
{
    let reply = reply_to_text(alloc, &BatchCommand, text)?;
    Ok(reply)
}
