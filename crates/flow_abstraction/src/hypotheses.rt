//! The hypotheses of a question.
ghost use Rattle.std.specs.Prelude.{[], ◌∷◌, IfOk, IfErr};
ghost use Rattle.kat_model.specs.Trees.{kat_tree};
ghost use Rattle.flow_abstraction.specs.HypothesisViews.{flow_rule};
ghost use Rattle.flow_abstraction.specs.PosedQuestion.{HasFault};
ghost use Rattle.flow_abstraction.specs.Working.Stages.{posed_by, HasTables, HasReasons};
ghost use Rattle.flow_abstraction.specs.Working.Adding.{HasRulesOf, HasTermsOf};
ghost use Rattle.flow_edges.specs.Working.Views.{Appends};

use crate::edges::Question;
use crate::fault::FlowFault;
use crate::hypothesis::{FlowHypothesis, FlowRule};
use crate::parts::Tables;
use crate::problem_hypotheses::hypotheses;
use kat_model::{Kat, NoMemory, append};
use std::alloc::Global;

/// The hypotheses of a question, and the rule that gives each.
#[derive(Drop)]
pub(crate) struct Reasons {
    pub(crate) rules: Vec<FlowRule>,
    pub(crate) terms: Vec<Kat>,
}

// Appends a rule and a term.
#[tactic(auto, using(flow_ways::proofs::CourseLists::map_pushed))]
fn push_parts(
    rules: &mut Vec<FlowRule>,
    terms: &mut Vec<Kat>,
    hypothesis: FlowHypothesis,
) -> Result<(), NoMemory>
    ensures rule { Appends flow_rule result rules.old rules.new (flow_rule hypothesis.rule ∷ []) }
    ensures term { Appends kat_tree result terms.old terms.new (kat_tree hypothesis.term ∷ []) }
{
    let FlowHypothesis { rule, term } = hypothesis;
    append(rules, rule)?;
    append(terms, term)
}

// Splits hypotheses into their rules and their terms.
fn rules_and_terms(alloc: Global, list: Vec<FlowHypothesis>) -> Result<Reasons, NoMemory>
    ensures rules { IfOk result (HasRulesOf list) }
    ensures terms { IfOk result (HasTermsOf list) }
{
    let mut rules = Vec::new(alloc);
    let mut terms = Vec::new(alloc);
    for hypothesis in list {
        push_parts(&mut rules, &mut terms, hypothesis)?;
    }
    Ok(Reasons { rules, terms })
}

/// Returns the hypotheses of a question, and the rule that gives each.
pub(crate) fn reasons_of(
    alloc: Global,
    question: &Question,
    tables: &Tables,
) -> Result<Reasons, FlowFault>
    requires { HasTables (posed_by question.now) tables.now }
    ensures made { IfOk result (HasReasons (posed_by question.now)) }
    ensures refused { IfErr result (HasFault (posed_by question.now)) }
{
    let list = hypotheses(alloc, question.sorts, &tables.tests, &tables.actions)?;
    Ok(rules_and_terms(alloc, list)?)
}
