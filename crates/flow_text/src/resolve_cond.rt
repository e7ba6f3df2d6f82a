//! Conditions with their names resolved and their sorts checked.
ghost use Rattle.std.specs.Prelude.{◌≡◌, [], map};
ghost use Rattle.text_parser.specs.TokenParts.{parts_of_token};
ghost use Rattle.text_parser.specs.Parsed.{Makes};
ghost use Rattle.flow_text.specs.Trees.{cond_part, cond_of};
ghost use Rattle.flow_text.specs.Resolving.{rel_named, sort_of_sides, signed_rel_named, relation_on, width_of_sort, comparison_of, signed_comparison_of, part_of, parts_after, condition_of};
ghost use Rattle.flow_text.specs.ScopeViews.{sight_parts};
ghost use Rattle.flow_text.specs.Working.Words.{listed_rel};
ghost use Rattle.flow_syntax.specs.SyntaxViews.{cond_node_syntax, cond_syntax, expr_syntax};

use crate::faults::sort_fault;
use crate::resolve_expr::resolve_expr;
use crate::visible_names::VisibleNames;
use flow_model::Sort;
use flow_syntax::{CondNode, Node};
use kat_model::{Rel, Width, append};
use std::alloc::Global;
use text_parser::{TextFault, Token};

/// The symbols of relations, but for that of `Ge`.
const RELATIONS: &[(&str, Rel)] = &[
    ("==", Rel::Eq),
    ("!=", Rel::Ne),
    ("<", Rel::Lt),
    ("<=", Rel::Le),
    (">", Rel::Gt),
];

/// The words of signed relations, but for that of `Ge`.
const SIGNED_RELATIONS: &[(&str, Rel)] = &[("slt", Rel::Lt), ("sle", Rel::Le), ("sgt", Rel::Gt)];

fn listed_rel(list: &[(&str, Rel)], other: Rel, text: &str) -> Rel
    ensures { result ≡ listed_rel list.now other text.now }
{
    for (listed, rel) in list {
        if text == *listed {
            return *rel;
        }
    }
    other
}

fn rel_named(text: &str) -> Rel
    ensures { result ≡ rel_named text.now }
{
    listed_rel(RELATIONS, Rel::Ge, text)
}

fn signed_rel_named(text: &str) -> Rel
    ensures { result ≡ signed_rel_named text.now }
{
    listed_rel(SIGNED_RELATIONS, Rel::Ge, text)
}

fn relation_on(sort: Sort, token: &Token, rel: Rel) -> Result<Rel, TextFault>
    ensures { result ≡ relation_on sort (parts_of_token token.now) rel }
{
    match sort {
        Sort::Number(_) => Ok(rel),
        Sort::Opaque(_) => match rel {
            Rel::Eq => Ok(Rel::Eq),
            Rel::Ne => Ok(Rel::Ne),
            _ => sort_fault(token),
        },
    }
}

fn width_of_sort(sort: Sort, token: &Token) -> Result<Width, TextFault>
    ensures { result ≡ width_of_sort sort (parts_of_token token.now) }
{
    match sort {
        Sort::Number(width) => Ok(width),
        Sort::Opaque(_) => sort_fault(token),
    }
}

fn compare(
    alloc: Global,
    visible_names: &VisibleNames,
    relation: &Token,
    left: &[Node],
    right: &[Node],
) -> Result<flow_model::CondNode, TextFault>
    ensures { Makes (Unit {0}) cond_part result (comparison_of (sight_parts visible_names.now) (sort_of_sides (sight_parts visible_names.now) (expr_syntax left.now) (expr_syntax right.now)) (parts_of_token relation.now) (expr_syntax left.now) (expr_syntax right.now)) }
{
    let sort = visible_names.sort_of_sides(left, right);
    let left = resolve_expr(alloc, visible_names, sort, left)?;
    let rel = relation_on(sort, relation, rel_named(relation.text))?;
    let right = resolve_expr(alloc, visible_names, sort, right)?;
    Ok(flow_model::CondNode::Compared(rel, left, right))
}

fn compare_signed(
    alloc: Global,
    visible_names: &VisibleNames,
    word: &Token,
    left: &[Node],
    right: &[Node],
) -> Result<flow_model::CondNode, TextFault>
    ensures { Makes (Unit {0}) cond_part result (signed_comparison_of (sight_parts visible_names.now) (sort_of_sides (sight_parts visible_names.now) (expr_syntax left.now) (expr_syntax right.now)) (parts_of_token word.now) (expr_syntax left.now) (expr_syntax right.now)) }
{
    let width = width_of_sort(visible_names.sort_of_sides(left, right), word)?;
    let left = resolve_expr(alloc, visible_names, Sort::Number(width), left)?;
    let right = resolve_expr(alloc, visible_names, Sort::Number(width), right)?;
    let rel = signed_rel_named(word.text);
    Ok(flow_model::CondNode::ComparedSigned(rel, width, left, right))
}

fn resolve_node(
    alloc: Global,
    visible_names: &VisibleNames,
    node: &CondNode,
) -> Result<flow_model::CondNode, TextFault>
    ensures { Makes (Unit {0}) cond_part result (part_of (sight_parts visible_names.now) (cond_node_syntax node.now)) }
{
    match node {
        CondNode::Always => Ok(flow_model::CondNode::Always),
        CondNode::Never => Ok(flow_model::CondNode::Never),
        CondNode::Compared(relation, left, right) => compare(
            alloc,
            visible_names,
            relation,
            left,
            right,
        ),
        CondNode::ComparedSigned(word, left, right) => {
            compare_signed(alloc, visible_names, word, left, right)
        }
        CondNode::Negation => Ok(flow_model::CondNode::Negation),
        CondNode::Both => Ok(flow_model::CondNode::Both),
        CondNode::Either => Ok(flow_model::CondNode::Either),
    }
}

#[tactic(auto, using(flow_syntax::proofs::Stacked::pushes, crate::proofs::CondSteps::nodes, crate::proofs::LastTaken::last))]
fn resolve_nodes(
    alloc: Global,
    visible_names: &VisibleNames,
    cond: &[CondNode],
) -> Result<Vec<flow_model::CondNode>, TextFault>
    ensures { Makes (Unit {0}) (λ v. map cond_part v.items) result (parts_after (sight_parts visible_names.now) [] (cond_syntax cond.now)) }
{
    let mut nodes = Vec::new(alloc);
    let mut rest = cond;
    'nodes: while let Some((node, _)) = rest.split_last() {
        let node = resolve_node(alloc, visible_names, node)?;
        append(&mut nodes, node)?;
        rest = &rest[..rest.len() - 1];
    }
    Ok(nodes)
}

/// Returns the condition with its names resolved, or its first fault in text order.
pub(crate) fn resolve_cond(
    alloc: Global,
    visible_names: &VisibleNames,
    cond: &[CondNode],
) -> Result<Vec<flow_model::CondNode>, TextFault>
    ensures { Makes (Unit {0}) (λ v. cond_of v.items) result (condition_of (sight_parts visible_names.now) (cond_syntax cond.now)) }
{
    resolve_nodes(alloc, visible_names, cond)
}
