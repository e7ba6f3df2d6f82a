//! What productions make of conditions.
ghost use Rattle.std.specs.Prelude.{◌≡◌, [], ◌∷◌, ◌++◌, IfOk, OnOk};
ghost use Rattle.flow_syntax.specs.Actions.{cond, first, second, past_two, cond_in, conds_done, linked};
ghost use Rattle.flow_syntax.specs.SyntaxViews.{stack_syntax, cond_syntax, cond_node_syntax};

use crate::action::CondAction;
use crate::lists::append_cond_node;
use crate::stack::{push, skip, take_cond, take_expr, take_token};
use crate::value::Value;
use crate::written::CondNode;
use kat_model::NoMemory;
use std::alloc::Global;

#[tactic(auto, using(crate::proofs::Stacked::pushes))]
fn push_node<'a>(
    alloc: Global,
    stack: &mut Vec<Value<'a>>,
    node: CondNode<'a>,
) -> Result<(), NoMemory>
    ensures { OnOk result (stack_syntax stack.new.items ≡ cond (cond_node_syntax node.entry ∷ []) ∷ stack_syntax stack.old.items) }
{
    let mut nodes = Vec::new(alloc);
    append_cond_node(&mut nodes, node)?;
    push(stack, Value::Cond(nodes))
}

// Joins a condition and those after it, if there are any, by a node.
#[tactic(auto, using(crate::proofs::Stacked::pushes, crate::proofs::Reversed::cond_append, crate::proofs::Reversed::linked_some))]
fn link<'a>(
    node: CondNode<'a>,
    mut cond: Vec<CondNode<'a>>,
    mut others: Vec<CondNode<'a>>,
) -> Result<Vec<CondNode<'a>>, NoMemory>
    ensures { IfOk result (λ all. cond_syntax all.items ≡ linked (cond_node_syntax node.entry) (cond_syntax cond.entry.items) (cond_syntax others.entry.items)) }
{
    if others.is_empty() {
        return Ok(cond);
    }
    others.append(&mut cond)?;
    append_cond_node(&mut others, node)?;
    Ok(others)
}

// Replaces the condition on top of the stack and those after it by all of them, joined by a node.
#[tactic(auto, using(crate::proofs::Stacked::pushes))]
fn link_all<'a>(
    alloc: Global,
    stack: &mut Vec<Value<'a>>,
    node: CondNode<'a>,
) -> Result<(), NoMemory>
    ensures { OnOk result (stack_syntax stack.new.items ≡ cond (linked (cond_node_syntax node.entry) (cond_in (first (stack_syntax stack.old.items))) (cond_in (second (stack_syntax stack.old.items)))) ∷ past_two (stack_syntax stack.old.items)) }
{
    let cond = take_cond(alloc, stack);
    let others = take_cond(alloc, stack);
    let all = link(node, cond, others)?;
    push(stack, Value::Cond(all))
}

#[tactic(auto, using(crate::proofs::Stacked::pushes))]
fn next_any(alloc: Global, stack: &mut Vec<Value>) -> Result<(), NoMemory>
    ensures { OnOk result (stack_syntax stack.new.items ≡ conds_done CondAction.NextAny (stack_syntax stack.old.items)) }
{
    skip(stack);
    link_all(alloc, stack, CondNode::Either)
}

#[tactic(auto, using(crate::proofs::Stacked::pushes))]
fn next_all(alloc: Global, stack: &mut Vec<Value>) -> Result<(), NoMemory>
    ensures { OnOk result (stack_syntax stack.new.items ≡ conds_done CondAction.NextAll (stack_syntax stack.old.items)) }
{
    skip(stack);
    link_all(alloc, stack, CondNode::Both)
}

#[tactic(auto, using(crate::proofs::Stacked::pushes))]
fn true_cond(alloc: Global, stack: &mut Vec<Value>) -> Result<(), NoMemory>
    ensures { OnOk result (stack_syntax stack.new.items ≡ conds_done CondAction.TrueCond (stack_syntax stack.old.items)) }
{
    skip(stack);
    push_node(alloc, stack, CondNode::Always)
}

#[tactic(auto, using(crate::proofs::Stacked::pushes))]
fn false_cond(alloc: Global, stack: &mut Vec<Value>) -> Result<(), NoMemory>
    ensures { OnOk result (stack_syntax stack.new.items ≡ conds_done CondAction.FalseCond (stack_syntax stack.old.items)) }
{
    skip(stack);
    push_node(alloc, stack, CondNode::Never)
}

#[tactic(auto, using(crate::proofs::Stacked::pushes))]
fn negate(alloc: Global, stack: &mut Vec<Value>) -> Result<(), NoMemory>
    ensures { OnOk result (stack_syntax stack.new.items ≡ conds_done CondAction.Negate (stack_syntax stack.old.items)) }
{
    skip(stack);
    let mut cond = take_cond(alloc, stack);
    append_cond_node(&mut cond, CondNode::Negation)?;
    push(stack, Value::Cond(cond))
}

#[tactic(auto, using(crate::proofs::Stacked::pushes))]
fn enclosed_cond(alloc: Global, stack: &mut Vec<Value>) -> Result<(), NoMemory>
    ensures { OnOk result (stack_syntax stack.new.items ≡ conds_done CondAction.EnclosedCond (stack_syntax stack.old.items)) }
{
    skip(stack);
    let cond = take_cond(alloc, stack);
    skip(stack);
    push(stack, Value::Cond(cond))
}

#[tactic(auto, using(crate::proofs::Stacked::pushes))]
fn compare(alloc: Global, stack: &mut Vec<Value>) -> Result<(), NoMemory>
    ensures { OnOk result (stack_syntax stack.new.items ≡ conds_done CondAction.Compare (stack_syntax stack.old.items)) }
{
    let left = take_expr(alloc, stack);
    let relation = take_token(stack);
    let right = take_expr(alloc, stack);
    push_node(alloc, stack, CondNode::Compared(relation, left, right))
}

#[tactic(auto, using(crate::proofs::Stacked::pushes))]
fn compare_signed(alloc: Global, stack: &mut Vec<Value>) -> Result<(), NoMemory>
    ensures { OnOk result (stack_syntax stack.new.items ≡ conds_done CondAction.CompareSigned (stack_syntax stack.old.items)) }
{
    let word = take_token(stack);
    skip(stack);
    let left = take_expr(alloc, stack);
    skip(stack);
    let right = take_expr(alloc, stack);
    skip(stack);
    push_node(alloc, stack, CondNode::ComparedSigned(word, left, right))
}

/// Replaces the values of the parts by that of the phrase. Fails only when out of memory.
#[tactic(auto, using(crate::proofs::Stacked::pushes))]
pub(crate) fn make_conds(
    alloc: Global,
    action: CondAction,
    stack: &mut Vec<Value>,
) -> Result<(), NoMemory>
    ensures { OnOk result (stack_syntax stack.new.items ≡ conds_done action (stack_syntax stack.old.items)) }
{
    match action {
        CondAction::NoConds => push(stack, Value::Cond(Vec::new(alloc))),
        CondAction::NextAny => next_any(alloc, stack),
        CondAction::NextAll => next_all(alloc, stack),
        CondAction::Any => link_all(alloc, stack, CondNode::Either),
        CondAction::All => link_all(alloc, stack, CondNode::Both),
        CondAction::TrueCond => true_cond(alloc, stack),
        CondAction::FalseCond => false_cond(alloc, stack),
        CondAction::Negate => negate(alloc, stack),
        CondAction::EnclosedCond => enclosed_cond(alloc, stack),
        CondAction::Compare => compare(alloc, stack),
        CondAction::CompareSigned => compare_signed(alloc, stack),
    }
}
