//! The triple of a program that a text asks.
ghost use Rattle.std.specs.Prelude.{◌≡◌, Some, Ok, IfOk};
ghost use Rattle.std.specs.Option.{option_map};
ghost use Rattle.while_lang.specs.Trees.{goal_tree};
ghost use Rattle.abstraction.specs.Abstracts.{HasNumbersInRange, abstract_of};
ghost use Rattle.abstraction.specs.ShownTables.{shown_tables};
ghost use Rattle.goal_forms.specs.TestTerms.{AreSimple};
ghost use Rattle.outline_rules.specs.Tasks.{task_parts};
ghost use Rattle.kat_report.specs.OutlineLines.{not_simple_line};
ghost use Rattle.tool_decide.specs.Triples.{goal_task, file_task, ReportsNotSimple, PosesTask, PosesNoTask};
ghost use Rattle.tool_inputs.specs.Steps.{IsRefusal};
ghost use Rattle.tool_inputs.specs.ReplySpecs.{EndsWith, Yields};
ghost use Rattle.tool_decide.specs.Working.FileTriples.{IsSimpleTriple, IsTripleOfFile, LacksTask};

use abstraction::{Abstract, flow_of, test_of};
use hoare_outlines::{Task, not_simple};
use kat_model::{NoMemory, Problem};
use kat_report::{not_a_triple_line, not_simple_line};
use std::alloc::Global;
use tool_inputs::{EarlyEnd, Reply, TextQuestion, abstract_in, file_of, refusal};
use while_lang::{File, Goal, Side};

/// A problem that asks the triple of a program, and that triple.
pub struct Triple {
    pub problem: Problem,
    pub task: Task,
}

// Explicit, so that it is proved once and not at each end of each function that owns one.
impl Drop for Triple {
    fn drop(self) {
        let Triple {
            problem: _problem,
            task: _task,
        } = self;
    }
}

// Returns the task of a goal by the rows of an abstraction, or `None` if the goal is not a triple of a program.
fn goal_task(alloc: Global, shown: &Abstract, goal: &Goal) -> Result<Option<Task>, NoMemory>
    ensures { IfOk result (λ task. option_map task_parts task ≡ goal_task (shown_tables shown.now) (goal_tree goal.now)) }
{
    match goal {
        Goal::Triple(pre, Side::Prog(prog), post) => {
            let before = test_of(alloc, shown, pre)?;
            let flow = flow_of(alloc, shown, prog)?;
            let after = test_of(alloc, shown, post)?;
            Ok(Some(Task {
                pre: before,
                flow,
                post: after,
            }))
        }
        Goal::Triple(_, Side::Term(_), _) | Goal::Equal(_, _) | Goal::Below(_, _) => Ok(None),
    }
}

// Returns the task of a file, or `None` if its goal is not a triple of a program.
fn file_task(alloc: Global, file: &File, shown: &Abstract) -> Result<Option<Task>, NoMemory>
    requires { abstract_of file.now ≡ Ok shown.now }
    ensures { IfOk result (λ task. option_map task_parts task ≡ file_task file.now) }
{
    goal_task(alloc, shown, &file.goal)
}

// Returns the task of a file. A file whose goal is not a triple of a program is refused.
fn task_in(alloc: Global, file: &File, shown: &Abstract) -> Result<Task, EarlyEnd>
    requires { abstract_of file.now ≡ Ok shown.now }
    ensures { Yields (λ t. file_task file.now ≡ Some (task_parts t)) (IsRefusal (LacksTask file.now)) result }
{
    match file_task(alloc, file, shown)? {
        Some(task) => Ok(task),
        None => Err(refusal(alloc, not_a_triple_line())),
    }
}

// Returns the refusal of a hypothesis that is not simple.
fn not_simple_end(alloc: Global, hyp: usize) -> EarlyEnd
    ensures { EndsWith (IsRefusal (λ line. line ≡ not_simple_line hyp)) result }
{
    match not_simple_line(alloc, hyp) {
        Ok(output) => EarlyEnd::Replied(Reply { status: 2, output }),
        Err(NoMemory) => EarlyEnd::NoMemory,
    }
}

// Checks that all hypotheses are simple. Refuses the first that is not.
fn test_hypotheses(alloc: Global, problem: &Problem) -> Result<(), EarlyEnd>
    ensures { Yields (λ u. AreSimple problem.now.hyps) (IsRefusal (ReportsNotSimple problem.now.hyps)) result }
{
    match not_simple(problem) {
        Some(hyp) => Err(not_simple_end(alloc, hyp)),
        None => Ok(()),
    }
}

// Returns the triple of an abstraction with this task. Refuses a hypothesis that is not simple.
fn simple_triple(alloc: Global, shown: Abstract, task: Task) -> Result<Triple, EarlyEnd>
    ensures { Yields (IsSimpleTriple shown task) (IsRefusal (ReportsNotSimple shown.problem.hyps)) result }
{
    let problem = shown.into_problem();
    test_hypotheses(alloc, &problem)?;
    Ok(Triple { problem, task })
}

// Returns the triple of a file with this abstraction.
fn abstract_triple(alloc: Global, file: &File, shown: Abstract) -> Result<Triple, EarlyEnd>
    requires { abstract_of file.now ≡ Ok shown }
    ensures { Yields (IsTripleOfFile file.now) (IsRefusal (LacksTask file.now)) result }
{
    let task = task_in(alloc, file, &shown)?;
    simple_triple(alloc, shown, task)
}

// Returns the triple of a file.
fn file_triple(alloc: Global, file: &File) -> Result<Triple, EarlyEnd>
    requires { HasNumbersInRange file.now }
    ensures { Yields (IsTripleOfFile file.now) (IsRefusal (LacksTask file.now)) result }
{
    let shown = abstract_in(alloc, file)?;
    abstract_triple(alloc, file, shown)
}

/// Returns the triple that a text asks. All its hypotheses are simple. Other texts are refused with the line that gives
/// the reason.
pub(crate) fn triple_in(alloc: Global, text: &[u8]) -> Result<Triple, EarlyEnd>
    ensures { Yields (λ t. PosesTask text.now t.problem (task_parts t.task)) (IsRefusal (PosesNoTask text.now)) result }
{
    let file = file_of(alloc, text)?;
    file_triple(alloc, &file)
}

impl TextQuestion for Triple {
    ghost use Rattle.tool_decide.specs.Triples.{PosesSomeTask};
    ghost use Rattle.tool_decide.specs.Working.TextTriples.{IsPosed, some_task, task_or_no_task, long_task};

    ghost poses = { IsPosed };

    ghost accepts = { PosesSomeTask };

    ghost declines = { PosesNoTask };

    fn of_text(alloc: Global, text: &[u8]) -> Result<Triple, EarlyEnd> {
        triple_in(alloc, text)
    }

    ghost is_accepted = { some_task };

    ghost is_declined = { task_or_no_task };

    ghost declines_long = { long_task };
}
