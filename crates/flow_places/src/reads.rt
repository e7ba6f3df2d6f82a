//! Marks of the variables that expressions and conditions read.
ghost use Rattle.std.specs.Prelude.{◌≡◌, ◌<◌, ◌∷◌, ◌||◌, ℕ, false, true, length, slice_index_or, slice_set};
ghost use Rattle.kat_model.specs.Problems.{counted};
ghost use Rattle.flow_model.specs.Polish.{expr_of, cond_of};
ghost use Rattle.flow_ways.specs.Liveness.{reads, cond_reads, is_target};
ghost use Rattle.flow_places.specs.Reads.{node_reads, with_operands as trees_with, nodes_read, cond_node_reads, with_conditions as conds_with, cond_nodes_read, values_read};
ghost use Rattle.flow_places.specs.Working.Marks.{Marks, Unmarks};

use flow_model::{CondNode, ExprNode};

/// Sets the mark of a variable, if it has one.
pub(crate) fn mark(live: &mut [bool], variable: usize, value: bool)
    ensures { live.new ≡ slice_set live.old variable value }
{
    if variable < live.len() {
        live[variable] = value;
    }
}

// Marks the variable that a node reads.
#[tactic(auto, using(crate::proofs::Marks::marked, crate::proofs::Marks::none_read))]
fn mark_node(node: ExprNode, live: &mut [bool])
    ensures { Marks live.old live.new (λ x. node_reads x node) }
{
    match node {
        ExprNode::Variable(k) => mark(live, k, true),
        _ => {}
    }
}

/// Returns the number of trees that a node and `count` trees after it are made of, saturated at `usize::MAX`.
pub fn with_operands(node: ExprNode, count: usize) -> usize
    ensures { result ≡ counted (trees_with node count) }
{
    match node {
        ExprNode::Number(_, _) | ExprNode::Variable(_) => count,
        ExprNode::Plus(_) | ExprNode::Minus(_) | ExprNode::Times(_) => count.saturating_add(2),
        ExprNode::Converted(_, _, _) => count.saturating_add(1),
        ExprNode::Applied(_, _, operands) => count.saturating_add(operands),
    }
}

// Marks the variables that the first `count` trees read.
#[cycle(mark_nodes)]
fn mark_nodes(nodes: &[ExprNode], count: usize, live: &mut [bool])
    ensures { Marks live.old live.new (λ x. nodes_read x count nodes.now) }
{
    match nodes {
        [] => {}
        [node, rest @ ..] => mark_nodes_from(*node, rest, count, live),
    }
}

#[cycle(mark_nodes)]
#[tactic(auto, using(crate::proofs::Marks::marked_twice))]
fn mark_nodes_from(node: ExprNode, rest: &[ExprNode], count: usize, live: &mut [bool])
    ensures { Marks live.old live.new (λ x. nodes_read x count (node ∷ rest.now)) }
{
    if count == 0 {
        return;
    }
    mark_node(node, live);
    mark_nodes(rest, with_operands(node, count - 1), live);
}

/// Marks the variables that an expression reads.
#[tactic(auto, using(crate::proofs::NodeReads::expr_read))]
pub fn mark_expr(nodes: &[ExprNode], live: &mut [bool])
    ensures { (x : ℕ) → x < length live.old → slice_index_or live.new x false ≡ (reads x (expr_of nodes.now) || slice_index_or live.old x false) }
{
    let _known = nodes.len();
    mark_nodes(nodes, 1, live);
}

// Marks the variables that two expressions read.
#[tactic(auto, using(crate::proofs::Marks::marked_twice))]
fn mark_both(left: &[ExprNode], right: &[ExprNode], live: &mut [bool])
    ensures { Marks live.old live.new (λ x. reads x (expr_of left.now) || reads x (expr_of right.now)) }
{
    mark_expr(left, live);
    mark_expr(right, live);
}

/// Marks the variables that expressions read.
#[cycle(mark_values)]
pub(crate) fn mark_values(values: &[Vec<ExprNode>], live: &mut [bool])
    ensures { Marks live.old live.new (λ x. values_read x values.now) }
{
    match values {
        [] => {}
        [value, rest @ ..] => mark_values_from(value, rest, live),
    }
}

#[cycle(mark_values)]
#[tactic(auto, using(crate::proofs::Marks::marked_twice))]
fn mark_values_from(value: &Vec<ExprNode>, rest: &[Vec<ExprNode>], live: &mut [bool])
    ensures { Marks live.old live.new (λ x. values_read x (value.now ∷ rest.now)) }
{
    mark_expr(value, live);
    mark_values(rest, live);
}

fn mark_cond_node(node: &CondNode, live: &mut [bool])
    ensures { Marks live.old live.new (λ x. cond_node_reads x node.now) }
{
    match node {
        CondNode::Compared(_, left, right) => mark_both(left, right, live),
        CondNode::ComparedSigned(_, _, left, right) => mark_both(left, right, live),
        CondNode::Always | CondNode::Never => {}
        CondNode::Negation | CondNode::Both | CondNode::Either => {}
    }
}

/// Returns the number of conditions that a node and `count` conditions after it are made of, saturated at `usize::MAX`.
pub fn with_conditions(node: &CondNode, count: usize) -> usize
    ensures { result ≡ counted (conds_with node.now count) }
{
    match node {
        CondNode::Always | CondNode::Never => count,
        CondNode::Compared(_, _, _) | CondNode::ComparedSigned(_, _, _, _) => count,
        CondNode::Negation => count.saturating_add(1),
        CondNode::Both | CondNode::Either => count.saturating_add(2),
    }
}

// Marks the variables that the first `count` conditions read.
#[cycle(mark_conds)]
fn mark_conds(nodes: &[CondNode], count: usize, live: &mut [bool])
    ensures { Marks live.old live.new (λ x. cond_nodes_read x count nodes.now) }
{
    match nodes {
        [] => {}
        [node, rest @ ..] => mark_conds_from(node, rest, count, live),
    }
}

#[cycle(mark_conds)]
#[tactic(auto, using(crate::proofs::Marks::marked_twice))]
fn mark_conds_from(node: &CondNode, rest: &[CondNode], count: usize, live: &mut [bool])
    ensures { Marks live.old live.new (λ x. cond_nodes_read x count (node.now ∷ rest.now)) }
{
    if count == 0 {
        return;
    }
    mark_cond_node(node, live);
    mark_conds(rest, with_conditions(node, count - 1), live);
}

/// Marks the variables that a condition reads.
#[tactic(auto, using(crate::proofs::NodeReads::cond_read))]
pub(crate) fn mark_cond(nodes: &[CondNode], live: &mut [bool])
    ensures { Marks live.old live.new (λ x. cond_reads x (cond_of nodes.now)) }
{
    let _known = nodes.len();
    mark_conds(nodes, 1, live);
}

/// Removes the marks of variables.
#[cycle(unmark)]
pub(crate) fn unmark(targets: &[usize], live: &mut [bool])
    ensures { Unmarks live.old live.new (λ x. is_target x targets.now) }
{
    match targets {
        [] => {}
        [target, rest @ ..] => unmark_from(*target, rest, live),
    }
}

#[cycle(unmark)]
#[tactic(auto, using(crate::proofs::Marks::unmarked))]
fn unmark_from(target: usize, rest: &[usize], live: &mut [bool])
    ensures { Unmarks live.old live.new (λ x. is_target x (target ∷ rest.now)) }
{
    mark(live, target, false);
    unmark(rest, live);
}
