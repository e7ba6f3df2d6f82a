//! The problem of a question.
ghost use Rattle.std.specs.Prelude.{◌≡◌, map, IfOk, IfErr};
ghost use Rattle.flow_forms.specs.Comparisons.{comparison_tree};
ghost use Rattle.flow_edges.specs.EdgeViews.{flow_action};
ghost use Rattle.flow_abstraction.specs.HypothesisViews.{flow_rule};
ghost use Rattle.flow_problem.specs.FlowFacts.{flow_hypotheses};
ghost use Rattle.flow_problem.specs.PlacedProblems.{IsFlowProblem};
ghost use Rattle.flow_abstraction.specs.PosedQuestion.{posed, question_of, HasFault, HasNoFault};
ghost use Rattle.flow_abstraction.specs.Abstracts.{flow_problem_of};
ghost use Rattle.flow_abstraction.specs.Working.Stages.{posed_by, KeepsLimits, HasPairEdges, HasTables, HasReasons, HasSides};
ghost use Rattle.flow_abstraction.specs.Working.Questions.{IsProblemOf, HasOwnRules};

use crate::edges::{PairEdges, Question, pair_edges};
use crate::fault::FlowFault;
use crate::hypotheses::{Reasons, reasons_of};
use crate::hypothesis::FlowRule;
use crate::parts::{Sides, Tables, sides_of, tables_of};
use flow_edges::FlowAction;
use flow_forms::FlowComparison;
use flow_model::{Block, Sort};
use kat_model::Problem;
use std::alloc::Global;

/// The problem of a question, with the comparison of each test, the action of each action, and the reason of each
/// hypothesis, by their numbers.
pub struct FlowAbstract {
    pub problem: Problem,
    pub tests: Vec<FlowComparison>,
    pub actions: Vec<FlowAction>,
    pub rules: Vec<FlowRule>,
}

// Explicit, so that this crate proves it once and not at each end of each function that owns one.
impl Drop for FlowAbstract {
    fn drop(self) {
        let FlowAbstract {
            problem: _problem,
            tests: _tests,
            actions: _actions,
            rules: _rules,
        } = self;
    }
}

// Returns the problem of these parts.
fn with_parts(
    question: &Question,
    tables: Tables,
    reasons: Reasons,
    sides: Sides,
) -> Result<FlowAbstract, FlowFault>
    requires limits { KeepsLimits (posed_by question.now) }
    requires tables { HasTables (posed_by question.now) tables }
    requires reasons { HasReasons (posed_by question.now) reasons }
    requires sides { HasSides (posed_by question.now) sides }
    ensures made { IfOk result (IsProblemOf question.now) }
    ensures rules { IfOk result (HasOwnRules question.now.sorts.now) }
    ensures faultless { IfOk result (λ _. HasNoFault (posed_by question.now)) }
    ensures refused { IfErr result (HasFault (posed_by question.now)) }
{
    let Tables { tests, actions } = tables;
    let Reasons { rules, terms } = reasons;
    let Sides { left, right } = sides;
    match Problem::new(tests.len(), actions.len(), terms, left, right) {
        Ok(problem) => Ok(FlowAbstract {
            problem,
            tests,
            actions,
            rules,
        }),
        // Only the number of nodes is left as a fault.
        Err(_) => Err(FlowFault::ProblemTooLarge),
    }
}

// Returns the problem of these tests and edges.
fn problem_with(
    alloc: Global,
    question: &Question,
    edges: PairEdges,
) -> Result<FlowAbstract, FlowFault>
    requires { HasPairEdges (posed_by question.now) edges }
    ensures made { IfOk result (IsProblemOf question.now) }
    ensures rules { IfOk result (HasOwnRules question.now.sorts.now) }
    ensures faultless { IfOk result (λ _. HasNoFault (posed_by question.now)) }
    ensures refused { IfErr result (HasFault (posed_by question.now)) }
{
    let PairEdges {
        tests,
        before,
        after,
    } = edges;
    let tables = tables_of(alloc, question, tests, &before, &after)?;
    let reasons = reasons_of(alloc, question, &tables)?;
    let sides = sides_of(alloc, question, &tables, &before, &after)?;
    with_parts(question, tables, reasons, sides)
}

/// Returns the problem that asks whether two graphs, over variables of these sorts, always return the same. Its tests are
/// the comparisons of the ways of both graphs, and those that the rounds add; its actions are the parallel assignments
/// and results of the ways, which are split by tests of cells if `splits`. An empty graph has the side 0. Where there is
/// no problem, a reason that holds is named; more than one may hold.
pub fn problem_of(
    alloc: Global,
    sorts: &[Sort],
    before: &[Block],
    after: &[Block],
    rounds: usize,
    splits: bool,
) -> Result<FlowAbstract, FlowFault>
    ensures made { IfOk result (λ a. IsFlowProblem (question_of (posed sorts.now before.now after.now rounds splits)) (flow_problem_of a)) }
    ensures rules { IfOk result (λ a. map flow_rule a.rules.items ≡ map (λ h. h.rule) (flow_hypotheses sorts.now (map comparison_tree a.tests.items) (map flow_action a.actions.items))) }
    ensures faultless { IfOk result (λ _. HasNoFault (posed sorts.now before.now after.now rounds splits)) }
    ensures refused { IfErr result (HasFault (posed sorts.now before.now after.now rounds splits)) }
{
    let question = Question {
        sorts,
        before,
        after,
        rounds,
        splits,
    };
    let edges = pair_edges(alloc, &question)?;
    problem_with(alloc, &question, edges)
}
