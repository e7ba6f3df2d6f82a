//! Runs with forms in place of values.
ghost use Rattle.std.specs.Prelude.{◌≡◌, ◌∷◌, ◌++◌, [], true, false, IfOk, IfErr, OnOk, map, length, take};
ghost use Rattle.flow_model.specs.Polish.{cond_of, values_of, statement_of};
ghost use Rattle.flow_forms.specs.Expressions.{form_of};
ghost use Rattle.flow_ways.specs.Conditions.{facts_of};
ghost use Rattle.flow_ways.specs.CondTrees.{cond_tree, known_fact};
ghost use Rattle.flow_ways.specs.CondForms.{cond_nodes_fit};
ghost use Rattle.flow_ways.specs.Ways.{with_queried, with_forms, with_test, condition_on as condition_in, after_statements};
ghost use Rattle.flow_ways.specs.Outcomes.{values_fit, statement_fits, after_statement, statements_fit};
ghost use Rattle.flow_ways.specs.CourseTrees.{course_tree, if_goes, IsGrown};

use crate::cond_form::condition_form;
use crate::condition::{FlowCond, Known, is_false, is_true, simplified};
use crate::form_list::{forms_of_values, set_forms};
use flow_forms::{FlowForm, FormFault};
use flow_model::{CondNode, ExprNode, Sort, Statement};
use kat_model::{NoMemory, append};
use std::alloc::Global;

/// A run with forms: the forms of the variables, what is known of comparisons, and the tests so far.
pub(crate) struct SymbolicRun {
    pub(crate) forms: Vec<FlowForm>,
    pub(crate) facts: Vec<Known>,
    pub(crate) tests: Vec<FlowCond>,
}

// Explicit, so that it is proved once and not at each end of each function that owns one.
impl Drop for SymbolicRun {
    fn drop(self) {
        let SymbolicRun {
            forms: _forms,
            facts: _facts,
            tests: _tests,
        } = self;
    }
}

#[tactic(auto, using(crate::proofs::CourseLists::map_pushed))]
fn push_known(facts: &mut Vec<Known>, known: Known) -> Result<(), NoMemory>
    ensures { OnOk result (map known_fact facts.new.items ≡ map known_fact facts.old.items ++ known_fact known ∷ []) }
{
    append(facts, known)
}

/// Appends a test.
#[tactic(auto, using(crate::proofs::CourseLists::map_pushed))]
pub(crate) fn push_cond(conds: &mut Vec<FlowCond>, cond: FlowCond) -> Result<(), NoMemory>
    ensures { OnOk result (map cond_tree conds.new.items ≡ map cond_tree conds.old.items ++ cond_tree cond ∷ []) }
{
    append(conds, cond)
}

/// Returns the number of facts.
#[tactic(auto, using(crate::proofs::CourseLists::mapped_length))]
pub(crate) fn count_facts(facts: &[Known]) -> usize
    ensures { result ≡ length (map known_fact facts.now) }
{
    facts.len()
}

/// Returns the number of tests.
#[tactic(auto, using(crate::proofs::CourseLists::mapped_length))]
pub(crate) fn count_tests(tests: &[FlowCond]) -> usize
    ensures { result ≡ length (map cond_tree tests.now) }
{
    tests.len()
}

/// Leaves the first `count` facts.
#[tactic(auto, using(crate::proofs::CourseLists::mapped_first))]
pub(crate) fn cut_facts(facts: &mut Vec<Known>, count: usize)
    ensures { map known_fact facts.new.items ≡ take count (map known_fact facts.old.items) }
{
    facts.truncate(count);
}

/// Leaves the first `count` tests.
#[tactic(auto, using(crate::proofs::CourseLists::mapped_first))]
pub(crate) fn cut_tests(tests: &mut Vec<FlowCond>, count: usize)
    ensures { map cond_tree tests.new.items ≡ take count (map cond_tree tests.old.items) }
{
    tests.truncate(count);
}

// Adds the facts that follow from the truth value of a condition without further cases.
#[tactic(auto, using(crate::proofs::CourseLists::no_facts, crate::proofs::CourseLists::both_facts, crate::proofs::CourseLists::no_both_facts, crate::proofs::CourseLists::either_facts, crate::proofs::CourseLists::no_either_facts))]
fn add_facts(
    alloc: Global,
    cond: &FlowCond,
    holds: bool,
    facts: &mut Vec<Known>,
) -> Result<(), NoMemory>
    ensures { OnOk result (map known_fact facts.new.items ≡ map known_fact facts.old.items ++ facts_of (cond_tree cond.now) holds) }
{
    match cond {
        FlowCond::Constantly(_) => Ok(()),
        FlowCond::Atom(comparison) => {
            let comparison = comparison.copy(alloc)?;
            push_known(facts, Known { comparison, holds })
        }
        FlowCond::Negation(cond) => add_facts(alloc, cond, !holds, facts),
        FlowCond::Both(left, right) => {
            if !holds {
                return Ok(());
            }
            add_facts(alloc, left, true, facts)?;
            add_facts(alloc, right, true, facts)
        }
        FlowCond::Either(left, right) => {
            if holds {
                return Ok(());
            }
            add_facts(alloc, left, false, facts)?;
            add_facts(alloc, right, false, facts)
        }
    }
}

// Adds a test that is not decided.
#[tactic(auto, using(crate::proofs::CourseLists::take_first))]
fn add_test(alloc: Global, cond: FlowCond, symbolic_run: &mut SymbolicRun) -> Result<(), NoMemory>
    ensures queried { OnOk result (course_tree symbolic_run.new ≡ with_queried (course_tree symbolic_run.old) (cond_tree cond)) }
    ensures grown { OnOk result (IsGrown (course_tree symbolic_run.old) (course_tree symbolic_run.new)) }
{
    add_facts(alloc, &cond, true, &mut symbolic_run.facts)?;
    push_cond(&mut symbolic_run.tests, cond)
}

/// Asks a condition on a course. Returns whether the course goes on, which it does not if the condition is known not to
/// hold. Fails only when out of memory.
#[tactic(auto, using(crate::proofs::Courses::test_true, crate::proofs::Courses::test_false, crate::proofs::Courses::test_queried, crate::proofs::CourseLists::take_own))]
pub(crate) fn query(
    alloc: Global,
    cond: FlowCond,
    symbolic_run: &mut SymbolicRun,
) -> Result<bool, NoMemory>
    ensures test { IfOk result (λ goes. if_goes goes (course_tree symbolic_run.new) ≡ with_test (course_tree symbolic_run.old) (cond_tree cond)) }
    ensures grown { OnOk result (IsGrown (course_tree symbolic_run.old) (course_tree symbolic_run.new)) }
{
    if is_true(&cond) {
        return Ok(true);
    }
    if is_false(&cond) {
        return Ok(false);
    }
    add_test(alloc, cond, symbolic_run)?;
    Ok(true)
}

/// Returns a condition over the forms of the course, with what is known left out. Fails with `TooLarge` exactly if a form
/// in it is too large.
pub(crate) fn condition_on(
    alloc: Global,
    sorts: &[Sort],
    symbolic_run: &SymbolicRun,
    cond: &[CondNode],
) -> Result<FlowCond, FormFault>
    ensures made { IfOk result (λ c. cond_tree c ≡ condition_in sorts.now (course_tree symbolic_run.now) (cond_of cond.now)) }
    ensures fits { IfOk result (λ _. cond_nodes_fit sorts.now (course_tree symbolic_run.now).forms cond.now ≡ true) }
    ensures refused { IfErr result (λ e. e ≡ FormFault.TooLarge → cond_nodes_fit sorts.now (course_tree symbolic_run.now).forms cond.now ≡ false) }
{
    let form = condition_form(alloc, sorts, &symbolic_run.forms, cond)?;
    Ok(simplified(alloc, &symbolic_run.facts, &form)?)
}

// Sets variables at once.
#[tactic(auto, using(crate::proofs::CourseLists::take_own))]
fn assign(
    alloc: Global,
    sorts: &[Sort],
    targets: &[usize],
    values: &[Vec<ExprNode>],
    symbolic_run: &mut SymbolicRun,
) -> Result<(), FormFault>
    ensures set { OnOk result (course_tree symbolic_run.new ≡ record (course_tree symbolic_run.old) { forms = with_forms (course_tree symbolic_run.old).forms targets.now (map (form_of sorts.now (course_tree symbolic_run.old).forms) (values_of values.now)) }) }
    ensures grown { OnOk result (IsGrown (course_tree symbolic_run.old) (course_tree symbolic_run.new)) }
    ensures fits { OnOk result (values_fit sorts.now (course_tree symbolic_run.old).forms values.now ≡ true) }
    ensures refused { IfErr result (λ e. e ≡ FormFault.TooLarge → values_fit sorts.now (course_tree symbolic_run.old).forms values.now ≡ false) }
{
    let forms = forms_of_values(alloc, sorts, &symbolic_run.forms, values)?;
    set_forms(targets, forms, &mut symbolic_run.forms);
    Ok(())
}

// Runs a statement. Returns whether the course goes on.
fn run_statement(
    alloc: Global,
    sorts: &[Sort],
    statement: &Statement,
    symbolic_run: &mut SymbolicRun,
) -> Result<bool, FormFault>
    ensures after { IfOk result (λ goes. if_goes goes (course_tree symbolic_run.new) ≡ after_statement sorts.now (statement_of statement.now) (course_tree symbolic_run.old)) }
    ensures grown { OnOk result (IsGrown (course_tree symbolic_run.old) (course_tree symbolic_run.new)) }
    ensures fits { OnOk result (statement_fits sorts.now statement.now (course_tree symbolic_run.old) ≡ true) }
    ensures refused { IfErr result (λ e. e ≡ FormFault.TooLarge → statement_fits sorts.now statement.now (course_tree symbolic_run.old) ≡ false) }
{
    match statement {
        Statement::Assign(targets, values) => {
            assign(alloc, sorts, targets, values, symbolic_run)?;
            Ok(true)
        }
        Statement::Claim(cond) => {
            let cond = condition_on(alloc, sorts, symbolic_run, cond)?;
            Ok(query(alloc, cond, symbolic_run)?)
        }
    }
}

/// Runs statements. Returns whether the course goes on, which it does not if an assertion is known not to hold. Fails
/// with `TooLarge` exactly if a form is too large.
#[tactic(auto, using(crate::proofs::CourseLists::take_own, crate::proofs::CourseLists::still_first, crate::proofs::Courses::still_after, crate::proofs::Courses::still_fits, crate::proofs::Courses::stops_after, crate::proofs::Courses::stops_fitting, crate::proofs::Courses::left_unfit, crate::proofs::Courses::none_left, crate::proofs::Courses::none_unfit))]
pub(crate) fn run_statements(
    alloc: Global,
    sorts: &[Sort],
    statements: &[Statement],
    symbolic_run: &mut SymbolicRun,
) -> Result<bool, FormFault>
    ensures after { IfOk result (λ goes. if_goes goes (course_tree symbolic_run.new) ≡ after_statements sorts.now (map statement_of statements.now) (course_tree symbolic_run.old)) }
    ensures grown { OnOk result (IsGrown (course_tree symbolic_run.old) (course_tree symbolic_run.new)) }
    ensures fits { OnOk result (statements_fit sorts.now statements.now (course_tree symbolic_run.old) ≡ true) }
    ensures refused { IfErr result (λ e. e ≡ FormFault.TooLarge → statements_fit sorts.now statements.now (course_tree symbolic_run.old) ≡ false) }
{
    let mut rest = statements;
    'statements: while let Some((statement, _)) = rest.split_first() {
        let goes = run_statement(alloc, sorts, statement, symbolic_run)?;
        if !goes {
            return Ok(false);
        }
        rest = &rest[1..];
    }
    Ok(true)
}
