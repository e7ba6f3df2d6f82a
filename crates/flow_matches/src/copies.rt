//! Copies of expressions, conditions and statements.
ghost use Rattle.std.specs.Prelude.{◌≡◌, ◌&&◌, ◌++◌, IfOk, OnOk, map};
ghost use Rattle.std.specs.List.{list_all};
ghost use Rattle.flow_model.specs.Polish.{cond_part, cond_of, values_of, statement_of};
ghost use Rattle.flow_model.specs.WholeGraphs.{are_whole_exprs, has_whole_sides, is_whole_cond, is_whole_statement};
ghost use Rattle.flow_matches.specs.Working.WholeSides.{are_whole_statements};

use flow_model::{CondNode, ExprNode, Statement};
use kat_model::{NoMemory, append};
use std::alloc::Global;

pub(crate) fn copy_expr(nodes: &Vec<ExprNode>) -> Result<Vec<ExprNode>, NoMemory>
    ensures { IfOk result (λ copy. copy.items ≡ nodes.now.items) }
{
    Ok(nodes.clone()?)
}

/// Adds copies of expressions to a list.
pub(crate) fn push_exprs(
    values: &[Vec<ExprNode>],
    list: &mut Vec<Vec<ExprNode>>,
) -> Result<(), NoMemory>
    ensures trees { OnOk result (values_of list.new.items ≡ values_of list.old.items ++ values_of values.now) }
    ensures whole { OnOk result (are_whole_exprs list.new.items ≡ (are_whole_exprs list.old.items && are_whole_exprs values.now)) }
{
    for value in values {
        append(list, copy_expr(value)?)?;
    }
    Ok(())
}

pub(crate) fn copy_exprs(
    alloc: Global,
    values: &[Vec<ExprNode>],
) -> Result<Vec<Vec<ExprNode>>, NoMemory>
    ensures trees { IfOk result (λ copy. values_of copy.items ≡ values_of values.now) }
    ensures whole { IfOk result (λ copy. are_whole_exprs copy.items ≡ are_whole_exprs values.now) }
{
    let mut copies = Vec::new(alloc);
    push_exprs(values, &mut copies)?;
    Ok(copies)
}

fn copy_cond_node(node: &CondNode) -> Result<CondNode, NoMemory>
    ensures part { IfOk result (λ copy. cond_part copy ≡ cond_part node.now) }
    ensures whole { IfOk result (λ copy. has_whole_sides copy ≡ has_whole_sides node.now) }
{
    match node {
        CondNode::Always => Ok(CondNode::Always),
        CondNode::Never => Ok(CondNode::Never),
        CondNode::Compared(rel, left, right) => {
            Ok(CondNode::Compared(*rel, copy_expr(left)?, copy_expr(right)?))
        }
        CondNode::ComparedSigned(rel, width, left, right) => Ok(CondNode::ComparedSigned(
            *rel,
            *width,
            copy_expr(left)?,
            copy_expr(right)?,
        )),
        CondNode::Negation => Ok(CondNode::Negation),
        CondNode::Both => Ok(CondNode::Both),
        CondNode::Either => Ok(CondNode::Either),
    }
}

/// Adds copies of the nodes of a condition to nodes.
pub(crate) fn push_cond(nodes: &[CondNode], list: &mut Vec<CondNode>) -> Result<(), NoMemory>
    ensures parts { OnOk result (map cond_part list.new.items ≡ map cond_part list.old.items ++ map cond_part nodes.now) }
    ensures whole { OnOk result (list_all has_whole_sides list.new.items ≡ (list_all has_whole_sides list.old.items && list_all has_whole_sides nodes.now)) }
{
    for node in nodes {
        append(list, copy_cond_node(node)?)?;
    }
    Ok(())
}

pub(crate) fn copy_cond(alloc: Global, nodes: &[CondNode]) -> Result<Vec<CondNode>, NoMemory>
    ensures tree { IfOk result (λ copy. cond_of copy.items ≡ cond_of nodes.now) }
    ensures whole { IfOk result (λ copy. is_whole_cond copy.items ≡ is_whole_cond nodes.now) }
{
    let mut copy = Vec::new(alloc);
    push_cond(nodes, &mut copy)?;
    Ok(copy)
}

fn copy_statement(alloc: Global, statement: &Statement) -> Result<Statement, NoMemory>
    ensures tree { IfOk result (λ copy. statement_of copy ≡ statement_of statement.now) }
    ensures whole { IfOk result (λ copy. is_whole_statement copy ≡ is_whole_statement statement.now) }
{
    match statement {
        Statement::Assign(targets, values) => Ok(Statement::Assign(
            targets.clone()?,
            copy_exprs(alloc, values)?,
        )),
        Statement::Claim(cond) => Ok(Statement::Claim(copy_cond(alloc, cond)?)),
    }
}

pub(crate) fn copy_statements(
    alloc: Global,
    statements: &[Statement],
) -> Result<Vec<Statement>, NoMemory>
    ensures trees { IfOk result (λ copy. map statement_of copy.items ≡ map statement_of statements.now) }
    ensures whole { IfOk result (λ copy. are_whole_statements copy.items ≡ are_whole_statements statements.now) }
{
    let mut copies = Vec::new(alloc);
    for statement in statements {
        append(&mut copies, copy_statement(alloc, statement)?)?;
    }
    Ok(copies)
}
