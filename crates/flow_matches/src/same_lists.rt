//! Whether lists of expressions, statements and equations are the same.
ghost use Rattle.std.specs.Prelude.{◌≡◌, map};
ghost use Rattle.std.specs.Cmp.Lexicographic.{pointwise};
ghost use Rattle.flow_model.specs.Polish.{values_of, statement_of};
ghost use Rattle.flow_pieces.specs.SameTrees.{is_same_expr as same_expr, is_same_statement as same_statement};
ghost use Rattle.flow_pieces.specs.Exits.{is_same_equation as same_equation};
ghost use Rattle.flow_model.specs.Matches.{equation_of};

use crate::same::{is_same_cond, is_same_expr};
use flow_model::{Equation, ExprNode, Statement};

/// Returns whether expressions are the same in turn.
pub(crate) fn are_same_exprs(left: &[Vec<ExprNode>], right: &[Vec<ExprNode>]) -> bool
    ensures { result ≡ pointwise same_expr (values_of left.now) (values_of right.now) }
{
    if left.len() != right.len() {
        return false;
    }
    for (one, other) in left.iter().zip(right) {
        if !is_same_expr(one, other) {
            return false;
        }
    }
    true
}

fn is_same_statement(left: &Statement, right: &Statement) -> bool
    ensures { result ≡ same_statement (statement_of left.now) (statement_of right.now) }
{
    match (left, right) {
        (Statement::Assign(targets, values), Statement::Assign(others, exprs)) => {
            targets.as_slice() == others.as_slice() && are_same_exprs(values, exprs)
        }
        (Statement::Claim(cond), Statement::Claim(other)) => is_same_cond(cond, other),
        _ => false,
    }
}

/// Returns whether statements are the same in turn.
pub(crate) fn are_same_statements(left: &[Statement], right: &[Statement]) -> bool
    ensures { result ≡ pointwise same_statement (map statement_of left.now) (map statement_of right.now) }
{
    if left.len() != right.len() {
        return false;
    }
    for (one, other) in left.iter().zip(right) {
        if !is_same_statement(one, other) {
            return false;
        }
    }
    true
}

fn is_same_equation(left: &Equation, right: &Equation) -> bool
    ensures { result ≡ same_equation (equation_of left.now) (equation_of right.now) }
{
    left.variable == right.variable && is_same_expr(&left.expression, &right.expression)
}

/// Returns whether equations are the same in turn.
pub(crate) fn are_same_equations(left: &[Equation], right: &[Equation]) -> bool
    ensures { result ≡ pointwise same_equation (map equation_of left.now) (map equation_of right.now) }
{
    if left.len() != right.len() {
        return false;
    }
    for (one, other) in left.iter().zip(right) {
        if !is_same_equation(one, other) {
            return false;
        }
    }
    true
}
