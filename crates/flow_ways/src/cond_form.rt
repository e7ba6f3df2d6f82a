//! Conditions of forms, from conditions in Polish notation.
ghost use Rattle.std.specs.Prelude.{◌≡◌, ◌∷◌, true, false, IfOk, IfErr, map};
ghost use Rattle.flow_model.specs.Polish.{expr_of, cond_part, conds_of, cond_of};
ghost use Rattle.flow_forms.specs.Forms.{form_tree};
ghost use Rattle.flow_forms.specs.Comparisons.{comparison_tree, literal_tree, compared_signed as signed_comparison};
ghost use Rattle.flow_forms.specs.Expressions.{sort_of, form_of};
ghost use Rattle.flow_ways.specs.Conditions.{of_literal as cond_of_literal, compared_opaque as opaque_comparison, compared_values as value_comparison, cond_form, opposite_cond as opposite_of, both_conds as both_of, either_cond as either_of};
ghost use Rattle.flow_ways.specs.CondTrees.{cond_tree};
ghost use Rattle.flow_ways.specs.CondForms.{comparison_is_small as is_small_comparison, literal_is_small as is_small_literal, compared_fit, signed_fit, cond_node_fits, cond_nodes_fit, top_cond, below, part_form, stack_conds};

use crate::condition::{FlowCond, both_conds, either_cond, of_literal};
use flow_forms::{
    FlowComparison, FlowForm, FlowLiteral, FormFault, compared, compared_signed, expression_form,
    is_small, opposite, same_literal,
};
use flow_model::{CondNode, ExprNode, Sort};
use kat_model::{NoMemory, Rel, Width};
use std::alloc::Global;

// A stack of conditions.
enum CondStack {
    Empty,
    Pushed(Box<FlowCond>, Box<CondStack>),
}

// Explicit, so that it is proved once and not at each end of each function that owns a stack.
impl Drop for CondStack {
    fn drop(self) {
        match self {
            CondStack::Empty => {}
            CondStack::Pushed(_cond, _rest) => {}
        }
    }
}

// The first condition of a stack, and the stack below it.
#[derive(Drop)]
struct Popped {
    cond: FlowCond,
    rest: CondStack,
}

fn push(alloc: Global, cond: FlowCond, stack: CondStack) -> Result<CondStack, NoMemory>
    ensures { IfOk result (λ s. stack_conds s ≡ cond_tree cond ∷ stack_conds stack) }
{
    let cond = Box::new(alloc, cond)?;
    let stack = Box::new(alloc, stack)?;
    Ok(CondStack::Pushed(cond, stack))
}

impl CondStack {
    fn pop(self) -> Popped
        ensures cond { cond_tree result.cond ≡ top_cond (stack_conds self) }
        ensures rest { stack_conds result.rest ≡ below (stack_conds self) }
    {
        match self {
            CondStack::Pushed(cond, rest) => Popped {
                cond: Box::into_inner(cond),
                rest: Box::into_inner(rest),
            },
            CondStack::Empty => Popped {
                cond: FlowCond::Constantly(true),
                rest: CondStack::Empty,
            },
        }
    }
}

fn comparison_is_small(comparison: &FlowComparison) -> bool
    ensures { result ≡ is_small_comparison (comparison_tree comparison.now) }
{
    match comparison {
        FlowComparison::Zero(_, f) => is_small(f),
        FlowComparison::Less(_, f, g) => is_small(f) && is_small(g),
        FlowComparison::Same(f, g) => is_small(f) && is_small(g),
    }
}

fn literal_is_small(literal: &FlowLiteral) -> bool
    ensures { result ≡ is_small_literal (literal_tree literal.now) }
{
    match literal {
        FlowLiteral::Decided(_) => true,
        FlowLiteral::Holds(comparison) => comparison_is_small(comparison),
        FlowLiteral::Fails(comparison) => comparison_is_small(comparison),
    }
}

// Returns the condition that a literal is, or `TooLarge`.
fn small_cond(alloc: Global, literal: FlowLiteral) -> Result<FlowCond, FormFault>
    ensures made { IfOk result (λ c. cond_tree c ≡ cond_of_literal (literal_tree literal)) }
    ensures fits { IfOk result (λ _. is_small_literal (literal_tree literal) ≡ true) }
    ensures refused { IfErr result (λ e. e ≡ FormFault.TooLarge → is_small_literal (literal_tree literal) ≡ false) }
{
    if !literal_is_small(&literal) {
        return Err(FormFault::TooLarge);
    }
    Ok(of_literal(alloc, literal)?)
}

fn compared_opaque(rel: Rel, left: FlowForm, right: FlowForm) -> FlowLiteral
    ensures { literal_tree result ≡ opaque_comparison rel (form_tree left) (form_tree right) }
{
    match rel {
        Rel::Eq => same_literal(left, right),
        Rel::Ne => opposite(same_literal(left, right)),
        _ => FlowLiteral::Decided(false),
    }
}

fn compared_values(
    alloc: Global,
    sort: Sort,
    rel: Rel,
    left: FlowForm,
    right: FlowForm,
) -> Result<FlowLiteral, NoMemory>
    ensures { IfOk result (λ l. literal_tree l ≡ value_comparison sort rel (form_tree left) (form_tree right)) }
{
    match sort {
        Sort::Number(width) => compared(alloc, width, rel, left, right),
        Sort::Opaque(_) => Ok(compared_opaque(rel, left, right)),
    }
}

#[tactic(auto, using(crate::proofs::CondForms::no_second))]
fn compared_cond(
    alloc: Global,
    sorts: &[Sort],
    forms: &[FlowForm],
    rel: Rel,
    left: &[ExprNode],
    right: &[ExprNode],
) -> Result<FlowCond, FormFault>
    ensures made { IfOk result (λ c. cond_tree c ≡ cond_of_literal (value_comparison (sort_of sorts.now (expr_of left.now)) rel (form_of sorts.now (map form_tree forms.now) (expr_of left.now)) (form_of sorts.now (map form_tree forms.now) (expr_of right.now)))) }
    ensures fits { IfOk result (λ _. compared_fit sorts.now (map form_tree forms.now) rel left.now right.now ≡ true) }
    ensures refused { IfErr result (λ e. e ≡ FormFault.TooLarge → compared_fit sorts.now (map form_tree forms.now) rel left.now right.now ≡ false) }
{
    let (sort, first) = expression_form(alloc, sorts, forms, left)?;
    let (_, second) = expression_form(alloc, sorts, forms, right)?;
    let literal = compared_values(alloc, sort, rel, first, second)?;
    small_cond(alloc, literal)
}

#[tactic(auto, using(crate::proofs::CondForms::no_second))]
fn signed_cond(
    alloc: Global,
    sorts: &[Sort],
    forms: &[FlowForm],
    rel: Rel,
    width: Width,
    left: &[ExprNode],
    right: &[ExprNode],
) -> Result<FlowCond, FormFault>
    ensures made { IfOk result (λ c. cond_tree c ≡ cond_of_literal (signed_comparison width rel (form_of sorts.now (map form_tree forms.now) (expr_of left.now)) (form_of sorts.now (map form_tree forms.now) (expr_of right.now)))) }
    ensures fits { IfOk result (λ _. signed_fit sorts.now (map form_tree forms.now) rel width left.now right.now ≡ true) }
    ensures refused { IfErr result (λ e. e ≡ FormFault.TooLarge → signed_fit sorts.now (map form_tree forms.now) rel width left.now right.now ≡ false) }
{
    let (_, first) = expression_form(alloc, sorts, forms, left)?;
    let (_, second) = expression_form(alloc, sorts, forms, right)?;
    let literal = compared_signed(alloc, width, rel, first, second)?;
    small_cond(alloc, literal)
}

fn negated(alloc: Global, stack: CondStack) -> Result<CondStack, NoMemory>
    ensures { IfOk result (λ s. stack_conds s ≡ opposite_of (top_cond (stack_conds stack)) ∷ below (stack_conds stack)) }
{
    let top = stack.pop();
    let cond = top.cond.opposite(alloc)?;
    push(alloc, cond, top.rest)
}

fn conjunction(alloc: Global, stack: CondStack) -> Result<CondStack, NoMemory>
    ensures { IfOk result (λ s. stack_conds s ≡ both_of (top_cond (stack_conds stack)) (top_cond (below (stack_conds stack))) ∷ below (below (stack_conds stack))) }
{
    let first = stack.pop();
    let second = first.rest.pop();
    let cond = both_conds(alloc, first.cond, second.cond)?;
    push(alloc, cond, second.rest)
}

fn disjunction(alloc: Global, stack: CondStack) -> Result<CondStack, NoMemory>
    ensures { IfOk result (λ s. stack_conds s ≡ either_of (top_cond (stack_conds stack)) (top_cond (below (stack_conds stack))) ∷ below (below (stack_conds stack))) }
{
    let first = stack.pop();
    let second = first.rest.pop();
    let cond = either_cond(alloc, first.cond, second.cond)?;
    push(alloc, cond, second.rest)
}

fn with_cond_node(
    alloc: Global,
    sorts: &[Sort],
    forms: &[FlowForm],
    node: &CondNode,
    stack: CondStack,
) -> Result<CondStack, FormFault>
    ensures made { IfOk result (λ s. stack_conds s ≡ part_form sorts.now (map form_tree forms.now) (cond_part node.now) (stack_conds stack)) }
    ensures fits { IfOk result (λ _. cond_node_fits sorts.now (map form_tree forms.now) node.now ≡ true) }
    ensures refused { IfErr result (λ e. e ≡ FormFault.TooLarge → cond_node_fits sorts.now (map form_tree forms.now) node.now ≡ false) }
{
    match node {
        CondNode::Always => Ok(push(alloc, FlowCond::Constantly(true), stack)?),
        CondNode::Never => Ok(push(alloc, FlowCond::Constantly(false), stack)?),
        CondNode::Compared(rel, left, right) => {
            let cond = compared_cond(alloc, sorts, forms, *rel, left, right)?;
            Ok(push(alloc, cond, stack)?)
        }
        CondNode::ComparedSigned(rel, width, left, right) => {
            let cond = signed_cond(alloc, sorts, forms, *rel, *width, left, right)?;
            Ok(push(alloc, cond, stack)?)
        }
        CondNode::Negation => Ok(negated(alloc, stack)?),
        CondNode::Both => Ok(conjunction(alloc, stack)?),
        CondNode::Either => Ok(disjunction(alloc, stack)?),
    }
}

// Returns the conditions, one after the other.
#[tactic(auto, using(crate::proofs::CondForms::over_all, crate::proofs::CondForms::over_rest, crate::proofs::CondForms::fits_rest, crate::proofs::CondForms::unfit_last, crate::proofs::CondForms::over_none, crate::proofs::CondForms::fits_none))]
fn evaluated(
    alloc: Global,
    sorts: &[Sort],
    forms: &[FlowForm],
    nodes: &[CondNode],
) -> Result<CondStack, FormFault>
    ensures made { IfOk result (λ s. stack_conds s ≡ map (cond_form sorts.now (map form_tree forms.now)) (conds_of (map cond_part nodes.now))) }
    ensures fits { IfOk result (λ _. cond_nodes_fit sorts.now (map form_tree forms.now) nodes.now ≡ true) }
    ensures refused { IfErr result (λ e. e ≡ FormFault.TooLarge → cond_nodes_fit sorts.now (map form_tree forms.now) nodes.now ≡ false) }
{
    let mut stack = CondStack::Empty;
    let mut rest = nodes;
    'nodes: while let Some((node, _)) = rest.split_last() {
        stack = with_cond_node(alloc, sorts, forms, node, stack)?;
        rest = &rest[..rest.len() - 1];
    }
    Ok(stack)
}

/// Returns the condition of forms that a condition is, with the sorts and the forms of the variables. Fails with
/// `TooLarge` exactly if a form in it is too large, or too large to be multiplied out.
#[tactic(auto, using(crate::proofs::CondForms::top_cond_is))]
pub(crate) fn condition_form(
    alloc: Global,
    sorts: &[Sort],
    forms: &[FlowForm],
    cond: &[CondNode],
) -> Result<FlowCond, FormFault>
    ensures made { IfOk result (λ c. cond_tree c ≡ cond_form sorts.now (map form_tree forms.now) (cond_of cond.now)) }
    ensures fits { IfOk result (λ _. cond_nodes_fit sorts.now (map form_tree forms.now) cond.now ≡ true) }
    ensures refused { IfErr result (λ e. e ≡ FormFault.TooLarge → cond_nodes_fit sorts.now (map form_tree forms.now) cond.now ≡ false) }
{
    let top = evaluated(alloc, sorts, forms, cond)?.pop();
    Ok(top.cond)
}
