//! Whether expressions and conditions in Polish notation are the same.
ghost use Rattle.std.specs.Prelude.{◌≡◌, [], drop};
ghost use Rattle.flow_model.specs.Polish.{expr_of, cond_of};
ghost use Rattle.flow_forms.specs.Conversions.{is_same_width as has_same_bits};
ghost use Rattle.flow_pieces.specs.SameTrees.{is_same_bool as same_bool, is_same_rel as same_rel, is_same_sort as same_sort, is_same_expr as same_expr, is_same_cond as same_cond};
ghost use Rattle.flow_matches.specs.Working.SameNodes.{is_same_node as same_node, is_same_at as same_at, same_nodes, is_same_cond_node as same_cond_node, is_always as always_holds, are_empty as no_nodes, is_same_cond_at as same_cond_at, with_first_conditions, same_cond_nodes};

use flow_model::{CondNode, ExprNode, Sort};
use flow_places::{with_conditions, with_operands};
use kat_model::{Rel, Width};

fn is_same_width(left: Width, right: Width) -> bool
    ensures { result ≡ has_same_bits left right }
{
    match (left, right) {
        (Width::W8, Width::W8) | (Width::W16, Width::W16) => true,
        (Width::W32, Width::W32) | (Width::W64, Width::W64) => true,
        _ => false,
    }
}

fn is_same_sign(left: bool, right: bool) -> bool
    ensures { result ≡ same_bool left right }
{
    left == right
}

fn is_same_rel(left: Rel, right: Rel) -> bool
    ensures { result ≡ same_rel left right }
{
    match (left, right) {
        (Rel::Eq, Rel::Eq) | (Rel::Ne, Rel::Ne) => true,
        (Rel::Lt, Rel::Lt) | (Rel::Le, Rel::Le) => true,
        (Rel::Gt, Rel::Gt) | (Rel::Ge, Rel::Ge) => true,
        _ => false,
    }
}

fn is_same_sort(left: Sort, right: Sort) -> bool
    ensures { result ≡ same_sort left right }
{
    match (left, right) {
        (Sort::Number(v), Sort::Number(w)) => is_same_width(v, w),
        (Sort::Opaque(j), Sort::Opaque(k)) => j == k,
        _ => false,
    }
}

// Returns whether two nodes over the same operands are the same expression.
fn is_same_node(left: ExprNode, right: ExprNode) -> bool
    ensures { result ≡ same_node left right }
{
    match (left, right) {
        (ExprNode::Number(v, m), ExprNode::Number(w, n)) => is_same_width(v, w) && m == n,
        (ExprNode::Variable(k), ExprNode::Variable(l)) => k == l,
        (ExprNode::Plus(v), ExprNode::Plus(w)) => is_same_width(v, w),
        (ExprNode::Minus(v), ExprNode::Minus(w)) => is_same_width(v, w),
        (ExprNode::Times(v), ExprNode::Times(w)) => is_same_width(v, w),
        (ExprNode::Converted(b, v, from), ExprNode::Converted(c, w, to)) => {
            is_same_sign(b, c) && is_same_width(v, w) && is_same_width(from, to)
        }
        (ExprNode::Applied(f, s, m), ExprNode::Applied(g, t, n)) => {
            f == g && is_same_sort(s, t) && m == n
        }
        _ => false,
    }
}

// Returns whether the first nodes are the same over the same operands.
fn is_same_first(left: ExprNode, others: &[ExprNode]) -> bool
    ensures { result ≡ same_at left others.now }
{
    match others.first() {
        Some(right) => is_same_node(left, *right),
        None => false,
    }
}

// Returns the items after the first.
fn without_first<T>(items: &[T]) -> &[T]
    ensures { result.now ≡ drop 1 items.now }
{
    match items {
        [] => items,
        [_, rest @ ..] => rest,
    }
}

// Returns whether trees that have no nodes are the same as the first `count` trees of others.
#[tactic(auto, using(crate::proofs::SameNodes::at_end))]
fn ends_same(count: usize, others: &[ExprNode]) -> bool
    ensures { result ≡ same_nodes count [] others.now }
{
    count == 0 || others.is_empty()
}

// Returns whether the first `count` trees are the same.
#[tactic(auto, using(crate::proofs::SameNodes::next_same, crate::proofs::SameNodes::next_differs, crate::proofs::SameNodes::none_pending, crate::proofs::SameNodes::none_left))]
fn are_same_nodes(left: &[ExprNode], right: &[ExprNode], count: usize) -> bool
    ensures { result ≡ same_nodes count left.now right.now }
{
    let mut others = right;
    let mut pending = count;
    let mut rest = left;
    'nodes: while let Some((node, _)) = rest.split_first() {
        if pending == 0 {
            return true;
        }
        let same = is_same_first(*node, others);
        if !same {
            return false;
        }
        pending = with_operands(*node, pending - 1);
        others = without_first(others);
        rest = &rest[1..];
    }
    ends_same(pending, others)
}

/// Returns whether two expressions are the same.
#[tactic(auto, using(crate::proofs::SameNodes::exprs_same))]
pub(crate) fn is_same_expr(left: &[ExprNode], right: &[ExprNode]) -> bool
    ensures { result ≡ same_expr (expr_of left.now) (expr_of right.now) }
{
    let _known = left.len();
    let _known = right.len();
    are_same_nodes(left, right, 1)
}

fn is_always(node: &CondNode) -> bool
    ensures { result ≡ always_holds node.now }
{
    match node {
        CondNode::Always => true,
        _ => false,
    }
}

// Returns whether two nodes over the same operands are the same condition.
fn is_same_cond_node(left: &CondNode, right: &CondNode) -> bool
    ensures { result ≡ same_cond_node left.now right.now }
{
    match (left, right) {
        (CondNode::Always, CondNode::Always) | (CondNode::Never, CondNode::Never) => true,
        (CondNode::Negation, CondNode::Negation) => true,
        (CondNode::Both, CondNode::Both) | (CondNode::Either, CondNode::Either) => true,
        (CondNode::Compared(r, e, f), CondNode::Compared(s, g, h)) => {
            is_same_rel(*r, *s) && is_same_expr(e, g) && is_same_expr(f, h)
        }
        (CondNode::ComparedSigned(r, v, e, f), CondNode::ComparedSigned(s, w, g, h)) => {
            is_same_rel(*r, *s) && is_same_width(*v, *w) && is_same_expr(e, g) && is_same_expr(f, h)
        }
        _ => false,
    }
}

fn are_empty(left: &[CondNode], right: &[CondNode]) -> bool
    ensures { result ≡ no_nodes left.now right.now }
{
    match (left, right) {
        ([], []) => true,
        _ => false,
    }
}

// Returns whether the first nodes are the same over the same operands. A condition that has no node is always true.
fn is_same_first_cond(left: &[CondNode], right: &[CondNode]) -> bool
    ensures { result ≡ same_cond_at left.now right.now }
{
    match (left, right) {
        ([], []) => true,
        ([], [node, ..]) | ([node, ..], []) => is_always(node),
        ([one, ..], [other, ..]) => is_same_cond_node(one, other),
    }
}

// Returns the number of conditions that the first nodes and `count` conditions after them are made of.
fn with_first(left: &[CondNode], right: &[CondNode], count: usize) -> usize
    ensures { result ≡ with_first_conditions left.now right.now count }
{
    match (left, right) {
        ([node, ..], [_, ..]) => with_conditions(node, count),
        _ => count,
    }
}

// Returns whether the first `count` conditions are the same.
#[tactic(auto, using(crate::proofs::SameCondNodes::next_same, crate::proofs::SameCondNodes::next_differs, crate::proofs::SameCondNodes::none_pending, crate::proofs::SameCondNodes::none_left, crate::proofs::SameCondNodes::fewer_left))]
fn are_same_cond_nodes(left: &[CondNode], right: &[CondNode], count: usize) -> bool
    ensures { result ≡ same_cond_nodes count left.now right.now }
{
    let mut others = right;
    let mut pending = count;
    let mut rest = left;
    'nodes: while !are_empty(rest, others) {
        if pending == 0 {
            return true;
        }
        let same = is_same_first_cond(rest, others);
        if !same {
            return false;
        }
        pending = with_first(rest, others, pending - 1);
        rest = without_first(rest);
        others = without_first(others);
    }
    true
}

/// Returns whether two conditions are the same.
#[tactic(auto, using(crate::proofs::SameCondNodes::conds_same))]
pub(crate) fn is_same_cond(left: &[CondNode], right: &[CondNode]) -> bool
    ensures { result ≡ same_cond (cond_of left.now) (cond_of right.now) }
{
    let _known = left.len();
    let _known = right.len();
    are_same_cond_nodes(left, right, 1)
}
