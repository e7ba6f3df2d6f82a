//! Statements with their names resolved and their sorts checked.
ghost use Rattle.std.specs.Prelude.{◌≡◌, [], map, IfOk};
ghost use Rattle.text_parser.specs.TokenParts.{parts_of_token};
ghost use Rattle.text_parser.specs.Parsed.{Makes};
ghost use Rattle.flow_text.specs.Trees.{statement_of, values_of};
ghost use Rattle.flow_text.specs.Checking.{is_set, target_of, next_target, targets_after, expressions_of, firsts, seconds, assigned, statements_after};
ghost use Rattle.flow_text.specs.Checking as checking;
ghost use Rattle.flow_text.specs.Working.Assigning.{assignment_of};
ghost use Rattle.flow_syntax.specs.Syntax as spelled;
ghost use Rattle.flow_text.specs.ScopeViews.{sight_parts};
ghost use Rattle.flow_syntax.specs.SyntaxViews.{tokens_syntax, exprs_syntax, cond_syntax, statement_syntax, statements_syntax};

use crate::faults::{name_fault, repeat_fault, sort_fault};
use crate::meaning::Meaning;
use crate::resolve_cond::resolve_cond;
use crate::resolve_expr::resolve_expr;
use crate::visible_names::{VisibleNames, sort_at};
use flow_model::{ExprNode, Sort};
use flow_syntax::{CondNode, Node, Statement};
use kat_model::{NoMemory, append};
use std::alloc::Global;
use text_parser::{TextFault, Token};

fn is_set(targets: &[(usize, Sort)], k: usize) -> bool
    ensures { result ≡ is_set targets.now k }
{
    targets.iter().any(|target| target.0 == k)
}

// Returns the variable with this number, which has a sort if it is declared.
fn target_of(
    before: &[(usize, Sort)],
    name: &Token,
    k: usize,
    sort: Option<Sort>,
) -> Result<(usize, Sort), TextFault>
    ensures { result ≡ target_of before.now (parts_of_token name.now) k sort }
{
    match sort {
        None => name_fault(name),
        Some(sort) => {
            if is_set(before, k) {
                repeat_fault(name)
            } else {
                Ok((k, sort))
            }
        }
    }
}

pub(crate) fn next_target(
    visible_names: &VisibleNames,
    before: &[(usize, Sort)],
    name: &Token,
) -> Result<(usize, Sort), TextFault>
    ensures { result ≡ next_target (sight_parts visible_names.now) before.now (parts_of_token name.now) }
{
    match visible_names.meaning(name) {
        None => name_fault(name),
        Some(meaning) => match meaning {
            Meaning::Variable(k) => target_of(before, name, k, sort_at(visible_names.variables, k)),
            Meaning::SortName(_) => sort_fault(name),
            Meaning::Function(_) => sort_fault(name),
            Meaning::GraphName(_) => sort_fault(name),
        },
    }
}

// Returns the variables that an assignment sets, with their sorts.
#[tactic(auto, using(flow_syntax::proofs::Stacked::pushes, crate::proofs::Checked::targets, crate::proofs::LastTaken::last))]
fn targets(
    alloc: Global,
    visible_names: &VisibleNames,
    names: &[Token],
) -> Result<Vec<(usize, Sort)>, TextFault>
    ensures { Makes (Unit {0}) (λ v. v.items) result (targets_after (sight_parts visible_names.now) [] (tokens_syntax names.now)) }
{
    let mut targets = Vec::new(alloc);
    let mut rest = names;
    'names: while let Some((name, _)) = rest.split_last() {
        let target = next_target(visible_names, &targets, name)?;
        append(&mut targets, target)?;
        rest = &rest[..rest.len() - 1];
    }
    Ok(targets)
}

/// Returns expressions of the sorts, one for each.
#[tactic(auto, using(flow_syntax::proofs::Stacked::pushes, crate::proofs::Checked::expressions, crate::proofs::LastTaken::last))]
pub(crate) fn resolve_all(
    alloc: Global,
    visible_names: &VisibleNames,
    sorts: &[Sort],
    exprs: &[Vec<Node>],
) -> Result<Vec<Vec<ExprNode>>, TextFault>
    ensures { Makes (Unit {0}) (λ v. values_of v.items) result (expressions_of (sight_parts visible_names.now) sorts.now (exprs_syntax exprs.now)) }
{
    let mut values = Vec::new(alloc);
    let mut rest = exprs;
    for sort in sorts {
        let Some((expr, _)) = rest.split_last() else {
            return Ok(values);
        };
        let value = resolve_expr(alloc, visible_names, *sort, expr)?;
        append(&mut values, value)?;
        rest = &rest[..rest.len() - 1];
    }
    Ok(values)
}

fn variables_of(alloc: Global, targets: &[(usize, Sort)]) -> Result<Vec<usize>, NoMemory>
    ensures { IfOk result (λ v. v.items ≡ firsts targets.now) }
{
    let mut variables = Vec::new(alloc);
    for target in targets {
        append(&mut variables, target.0)?;
    }
    Ok(variables)
}

fn sorts_of(alloc: Global, targets: &[(usize, Sort)]) -> Result<Vec<Sort>, NoMemory>
    ensures { IfOk result (λ v. v.items ≡ seconds targets.now) }
{
    let mut sorts = Vec::new(alloc);
    for target in targets {
        append(&mut sorts, target.1)?;
    }
    Ok(sorts)
}

// Returns the assignment of expressions to variables of these sorts.
fn assignment(
    alloc: Global,
    visible_names: &VisibleNames,
    targets: &[(usize, Sort)],
    exprs: &[Vec<Node>],
) -> Result<flow_model::Statement, TextFault>
    ensures { Makes (Unit {0}) statement_of result (assignment_of (sight_parts visible_names.now) targets.now (exprs_syntax exprs.now)) }
{
    let sorts = sorts_of(alloc, targets)?;
    let values = resolve_all(alloc, visible_names, &sorts, exprs)?;
    let variables = variables_of(alloc, targets)?;
    Ok(flow_model::Statement::Assign(variables, values))
}

#[tactic(auto, using(crate::proofs::Checked::tokens_length, flow_syntax::proofs::NodeLists::exprs_length))]
fn assign(
    alloc: Global,
    visible_names: &VisibleNames,
    names: &[Token],
    becomes: &Token,
    exprs: &[Vec<Node>],
) -> Result<flow_model::Statement, TextFault>
    ensures { Makes (Unit {0}) statement_of result (assigned (sight_parts visible_names.now) (tokens_syntax names.now) (parts_of_token becomes.now) (exprs_syntax exprs.now)) }
{
    let targets = targets(alloc, visible_names, names)?;
    if names.len() != exprs.len() {
        return sort_fault(becomes);
    }
    assignment(alloc, visible_names, &targets, exprs)
}

fn claim(
    alloc: Global,
    visible_names: &VisibleNames,
    cond: &[CondNode],
) -> Result<flow_model::Statement, TextFault>
    ensures { Makes (Unit {0}) statement_of result (checking.statement_of (sight_parts visible_names.now) (spelled.claim (cond_syntax cond.now))) }
{
    let cond = resolve_cond(alloc, visible_names, cond)?;
    Ok(flow_model::Statement::Claim(cond))
}

fn check_statement(
    alloc: Global,
    visible_names: &VisibleNames,
    statement: &Statement,
) -> Result<flow_model::Statement, TextFault>
    ensures { Makes (Unit {0}) statement_of result (checking.statement_of (sight_parts visible_names.now) (statement_syntax statement.now)) }
{
    match statement {
        Statement::Assign(names, becomes, exprs) => assign(
            alloc,
            visible_names,
            names,
            becomes,
            exprs,
        ),
        Statement::Claim(cond) => claim(alloc, visible_names, cond),
    }
}

/// Returns the statements with their names resolved, or their first fault in text order.
#[tactic(auto, using(flow_syntax::proofs::Stacked::pushes, crate::proofs::Checked::statements, crate::proofs::LastTaken::last))]
pub(crate) fn check_statements(
    alloc: Global,
    visible_names: &VisibleNames,
    statements: &[Statement],
) -> Result<Vec<flow_model::Statement>, TextFault>
    ensures { Makes (Unit {0}) (λ v. map statement_of v.items) result (statements_after (sight_parts visible_names.now) [] (statements_syntax statements.now)) }
{
    let mut checked = Vec::new(alloc);
    let mut rest = statements;
    'statements: while let Some((statement, _)) = rest.split_last() {
        let statement = check_statement(alloc, visible_names, statement)?;
        append(&mut checked, statement)?;
        rest = &rest[..rest.len() - 1];
    }
    Ok(checked)
}
