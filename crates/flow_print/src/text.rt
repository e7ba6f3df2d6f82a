//! The text of a flow problem.
ghost use Rattle.std.specs.Prelude.{◌≡◌, map, IfOk};
ghost use Rattle.flow_forms.specs.Comparisons.{comparison_tree};
ghost use Rattle.problem_file.specs.Working.Scopes.{IsPlain};
ghost use Rattle.flow_edges.specs.EdgeViews.{flow_action};
ghost use Rattle.flow_abstraction.specs.HypothesisViews.{flow_rule};
ghost use Rattle.flow_print.specs.NameTables.{names_of};
ghost use Rattle.flow_print.specs.FlowTexts.{flow_text};
ghost use Rattle.flow_print.specs.Working.Written.{IsTextOf};

use crate::names::FlowNames;
use crate::reasons::put_hyps;
use crate::rows::{put_action_comments, put_test_comments};
use flow_abstraction::FlowRule;
use flow_edges::FlowAction;
use flow_forms::FlowComparison;
use kat_model::{NoMemory, Problem};
use problem_file::{plain_scope, put_actions, put_goal, put_tests};
use std::alloc::Global;
use text_parser::Scope;

// Returns the text of the problem, given a scope with its names.
fn text_in(
    alloc: Global,
    names: &FlowNames,
    tests: &[FlowComparison],
    actions: &[FlowAction],
    rules: &[FlowRule],
    problem: &Problem,
    plain: &Scope,
) -> Result<Vec<u8>, NoMemory>
    requires { IsPlain plain.now problem.now.tests problem.now.actions }
    ensures { IfOk result (IsTextOf names.now rules.now problem.now tests.now actions.now) }
{
    let mut out = Vec::new(alloc);
    put_test_comments(alloc, &mut out, names, tests)?;
    put_tests(alloc, &mut out, problem.tests())?;
    put_action_comments(alloc, &mut out, names, actions)?;
    put_actions(alloc, &mut out, problem.actions())?;
    put_hyps(alloc, &mut out, rules, problem, plain)?;
    put_goal(alloc, &mut out, problem.left(), problem.right(), plain)?;
    Ok(out)
}

/// Returns a flow problem as the text of a problem file, with one item per line. Comments give the comparison of each
/// test and the assignment of each action with the names of the flow file, and the reason for each hypothesis, once for
/// adjacent hypotheses with the same reason. Tests are named `t0`, `t1`, .. and actions `a0`, `a1`, .. in the text.
/// Fails only when out of memory.
pub fn flow_text(
    alloc: Global,
    names: &FlowNames,
    tests: &[FlowComparison],
    actions: &[FlowAction],
    rules: &[FlowRule],
    problem: &Problem,
) -> Result<Vec<u8>, NoMemory>
    ensures { IfOk result (λ v. v.items ≡ flow_text (names_of names.now.variables.now names.now.sorts.now names.now.functions.now) (map flow_rule rules.now) (record { problem = problem.now; tests = map comparison_tree tests.now; actions = map flow_action actions.now })) }
{
    let plain = plain_scope(alloc, problem.tests(), problem.actions())?;
    text_in(alloc, names, tests, actions, rules, problem, &plain)
}
