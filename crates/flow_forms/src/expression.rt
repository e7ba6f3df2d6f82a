//! Forms of expressions in Polish notation.
ghost use Rattle.std.specs.Prelude.{◌≡◌, ◌∷◌, true, false, IfOk, IfErr, map, slice_get};
ghost use Rattle.kat_model.specs.Stores.{modulus};
ghost use Rattle.flow_model.specs.Polish.{expr_of, exprs_of};
ghost use Rattle.flow_forms.specs.Forms.{applied as applied_form, argument as argument_form, form_tree};
ghost use Rattle.flow_forms.specs.Arithmetic.{form_sum, form_difference, form_product};
ghost use Rattle.flow_forms.specs.Conversions.{form_conversion};
ghost use Rattle.flow_forms.specs.Expressions.{or_number, or_zero, sort_of, form_of_cell, form_of};
ghost use Rattle.flow_forms.specs.Sizes.{is_small as is_small_form, product_fits, conversion_fits};
ghost use Rattle.flow_forms.specs.Evaluation.{forms_of, all_fit, top_sort, top_form, below as below_top, first_arguments as first_forms, without as without_forms, node_form, node_fits};

use crate::arithmetic::{difference, sum};
use crate::checked::{checked_conversion, checked_product, small};
use crate::fault::FormFault;
use crate::form::FlowForm;
use crate::form::stack::Top;
use flow_model::{ExprNode, Sort};
use kat_model::{NoMemory, Width};
use std::alloc::Global;

// The first forms of a stack, and the stack below them.
#[derive(Drop)]
struct Taken {
    arguments: FlowForm,
    rest: FlowForm,
}

// Takes `count` forms off a stack.
fn take(alloc: Global, count: usize, stack: FlowForm) -> Result<Taken, NoMemory>
    ensures arguments { IfOk result (λ s. form_tree s.arguments ≡ first_forms count (form_tree stack)) }
    ensures rest { IfOk result (λ s. form_tree s.rest ≡ without_forms count (form_tree stack)) }
{
    if count == 0 {
        let arguments = FlowForm::NoArguments;
        return Ok(Taken {
            arguments,
            rest: stack,
        });
    }
    let Top { sort, form, rest } = stack.popped();
    let Taken { arguments, rest } = take(alloc, count - 1, rest)?;
    let arguments = FlowForm::new_argument(alloc, sort, form, arguments)?;
    Ok(Taken { arguments, rest })
}

/// Puts the form on a stack.
pub(crate) fn stacked(
    alloc: Global,
    sort: Sort,
    form: FlowForm,
    stack: FlowForm,
) -> Result<FlowForm, FormFault>
    ensures made { IfOk result (λ f. form_tree f ≡ argument_form sort (form_tree form) (form_tree stack)) }
    ensures refused { IfErr result (λ e. e ≡ FormFault.NoMemory) }
{
    Ok(FlowForm::new_argument(alloc, sort, form, stack)?)
}

// Puts the form on a stack, or fails with `TooLarge` if it has too many nodes.
fn pushed(alloc: Global, sort: Sort, form: FlowForm, stack: FlowForm) -> Result<FlowForm, FormFault>
    ensures made { IfOk result (λ f. form_tree f ≡ argument_form sort (form_tree form) (form_tree stack)) }
    ensures fits { IfOk result (λ _. is_small_form (form_tree form) ≡ true) }
    ensures refused { IfErr result (λ e. e ≡ FormFault.TooLarge → is_small_form (form_tree form) ≡ false) }
{
    let form = small(form)?;
    stacked(alloc, sort, form, stack)
}

/// Returns the sort of a variable, or u64 if there is no such variable.
pub(crate) fn sort_at(sorts: &[Sort], k: usize) -> Sort
    ensures { result ≡ or_number (slice_get sorts.now k) }
{
    match sorts.get(k) {
        Some(sort) => *sort,
        None => Sort::Number(Width::W64),
    }
}

/// Returns the form of a variable, or 0 if there is no such variable.
#[tactic(auto, using(crate::proofs::Evaluated::form_there, crate::proofs::Evaluated::no_form_there))]
pub(crate) fn form_at(alloc: Global, forms: &[FlowForm], k: usize) -> Result<FlowForm, NoMemory>
    ensures { IfOk result (λ f. form_tree f ≡ or_zero (slice_get (map form_tree forms.now) k)) }
{
    match forms.get(k) {
        Some(form) => form.copy(alloc),
        None => Ok(FlowForm::Constant(0)),
    }
}

fn variable(
    alloc: Global,
    sorts: &[Sort],
    forms: &[FlowForm],
    k: usize,
    stack: FlowForm,
) -> Result<FlowForm, FormFault>
    ensures made { IfOk result (λ f. form_tree f ≡ argument_form (or_number (slice_get sorts.now k)) (or_zero (slice_get (map form_tree forms.now) k)) (form_tree stack)) }
    ensures refused { IfErr result (λ e. e ≡ FormFault.NoMemory) }
{
    let sort = sort_at(sorts, k);
    let form = form_at(alloc, forms, k)?;
    stacked(alloc, sort, form, stack)
}

fn plus(alloc: Global, width: Width, stack: FlowForm) -> Result<FlowForm, FormFault>
    ensures made { IfOk result (λ f. form_tree f ≡ argument_form (Sort.Number width) (form_sum (modulus width) (top_form (form_tree stack)) (top_form (below_top (form_tree stack)))) (below_top (below_top (form_tree stack)))) }
    ensures fits { IfOk result (λ _. is_small_form (form_sum (modulus width) (top_form (form_tree stack)) (top_form (below_top (form_tree stack)))) ≡ true) }
    ensures refused { IfErr result (λ e. e ≡ FormFault.TooLarge → is_small_form (form_sum (modulus width) (top_form (form_tree stack)) (top_form (below_top (form_tree stack)))) ≡ false) }
{
    let first = stack.popped();
    let second = first.rest.popped();
    let form = sum(alloc, width, first.form, second.form)?;
    pushed(alloc, Sort::Number(width), form, second.rest)
}

fn minus(alloc: Global, width: Width, stack: FlowForm) -> Result<FlowForm, FormFault>
    ensures made { IfOk result (λ f. form_tree f ≡ argument_form (Sort.Number width) (form_difference (modulus width) (top_form (form_tree stack)) (top_form (below_top (form_tree stack)))) (below_top (below_top (form_tree stack)))) }
    ensures fits { IfOk result (λ _. is_small_form (form_difference (modulus width) (top_form (form_tree stack)) (top_form (below_top (form_tree stack)))) ≡ true) }
    ensures refused { IfErr result (λ e. e ≡ FormFault.TooLarge → is_small_form (form_difference (modulus width) (top_form (form_tree stack)) (top_form (below_top (form_tree stack)))) ≡ false) }
{
    let first = stack.popped();
    let second = first.rest.popped();
    let form = difference(alloc, width, first.form, second.form)?;
    pushed(alloc, Sort::Number(width), form, second.rest)
}

fn times(alloc: Global, width: Width, stack: FlowForm) -> Result<FlowForm, FormFault>
    ensures made { IfOk result (λ f. form_tree f ≡ argument_form (Sort.Number width) (form_product (modulus width) (top_form (form_tree stack)) (top_form (below_top (form_tree stack)))) (below_top (below_top (form_tree stack)))) }
    ensures fits { IfOk result (λ _. product_fits width (top_form (form_tree stack)) (top_form (below_top (form_tree stack))) ≡ true) }
    ensures refused { IfErr result (λ e. e ≡ FormFault.TooLarge → product_fits width (top_form (form_tree stack)) (top_form (below_top (form_tree stack))) ≡ false) }
{
    let first = stack.popped();
    let second = first.rest.popped();
    let form = checked_product(alloc, width, &first.form, &second.form)?;
    stacked(alloc, Sort::Number(width), form, second.rest)
}

fn conversion(
    alloc: Global,
    signed: bool,
    from: Width,
    to: Width,
    stack: FlowForm,
) -> Result<FlowForm, FormFault>
    ensures made { IfOk result (λ f. form_tree f ≡ argument_form (Sort.Number to) (form_conversion signed from to (top_form (form_tree stack))) (below_top (form_tree stack))) }
    ensures fits { IfOk result (λ _. conversion_fits signed from to (top_form (form_tree stack)) ≡ true) }
    ensures refused { IfErr result (λ e. e ≡ FormFault.TooLarge → conversion_fits signed from to (top_form (form_tree stack)) ≡ false) }
{
    let top = stack.popped();
    let form = checked_conversion(alloc, signed, from, to, &top.form)?;
    stacked(alloc, Sort::Number(to), form, top.rest)
}

/// Returns the form of a sort that is one cell.
pub(crate) fn cell_of(alloc: Global, sort: Sort, cell: FlowForm) -> Result<FlowForm, NoMemory>
    ensures { IfOk result (λ f. form_tree f ≡ form_of_cell sort (form_tree cell)) }
{
    match sort {
        Sort::Number(_) => FlowForm::of_cell(alloc, cell),
        Sort::Opaque(_) => Ok(cell),
    }
}

fn application(
    alloc: Global,
    function: usize,
    sort: Sort,
    count: usize,
    stack: FlowForm,
) -> Result<FlowForm, FormFault>
    ensures made { IfOk result (λ f. form_tree f ≡ argument_form sort (form_of_cell sort (applied_form function sort (first_forms count (form_tree stack)))) (without_forms count (form_tree stack))) }
    ensures fits { IfOk result (λ _. is_small_form (form_of_cell sort (applied_form function sort (first_forms count (form_tree stack)))) ≡ true) }
    ensures refused { IfErr result (λ e. e ≡ FormFault.TooLarge → is_small_form (form_of_cell sort (applied_form function sort (first_forms count (form_tree stack)))) ≡ false) }
{
    let Taken { arguments, rest } = take(alloc, count, stack)?;
    let cell = FlowForm::new_applied(alloc, function, sort, arguments)?;
    let form = cell_of(alloc, sort, cell)?;
    pushed(alloc, sort, form, rest)
}

fn with_node(
    alloc: Global,
    sorts: &[Sort],
    forms: &[FlowForm],
    node: ExprNode,
    stack: FlowForm,
) -> Result<FlowForm, FormFault>
    ensures made { IfOk result (λ f. form_tree f ≡ node_form sorts.now (map form_tree forms.now) node (form_tree stack)) }
    ensures fits { IfOk result (λ _. node_fits node (form_tree stack) ≡ true) }
    ensures refused { IfErr result (λ e. e ≡ FormFault.TooLarge → node_fits node (form_tree stack) ≡ false) }
{
    match node {
        ExprNode::Number(width, n) => {
            let form = FlowForm::Constant(width.residue(n));
            stacked(alloc, Sort::Number(width), form, stack)
        }
        ExprNode::Variable(k) => variable(alloc, sorts, forms, k, stack),
        ExprNode::Plus(width) => plus(alloc, width, stack),
        ExprNode::Minus(width) => minus(alloc, width, stack),
        ExprNode::Times(width) => times(alloc, width, stack),
        ExprNode::Converted(signed, from, to) => conversion(alloc, signed, from, to, stack),
        ExprNode::Applied(function, sort, count) => {
            application(alloc, function, sort, count, stack)
        }
    }
}

// Returns the forms of the expressions, one after the other, as arguments.
#[cycle(evaluated)]
fn evaluated(
    alloc: Global,
    sorts: &[Sort],
    forms: &[FlowForm],
    nodes: &[ExprNode],
) -> Result<FlowForm, FormFault>
    ensures made { IfOk result (λ f. form_tree f ≡ forms_of sorts.now (map form_tree forms.now) (exprs_of nodes.now)) }
    ensures fits { IfOk result (λ _. all_fit sorts.now (map form_tree forms.now) (exprs_of nodes.now) ≡ true) }
    ensures refused { IfErr result (λ e. e ≡ FormFault.TooLarge → all_fit sorts.now (map form_tree forms.now) (exprs_of nodes.now) ≡ false) }
{
    match nodes {
        [] => Ok(FlowForm::NoArguments),
        [node, rest @ ..] => evaluated_from(alloc, sorts, forms, *node, rest),
    }
}

// Returns the forms of the expressions that begin with a node.
#[cycle(evaluated)]
#[tactic(auto, using(crate::proofs::Evaluated::forms_with_node, crate::proofs::Evaluated::fits_with_node, crate::proofs::Evaluated::no_second))]
fn evaluated_from(
    alloc: Global,
    sorts: &[Sort],
    forms: &[FlowForm],
    node: ExprNode,
    rest: &[ExprNode],
) -> Result<FlowForm, FormFault>
    ensures made { IfOk result (λ f. form_tree f ≡ forms_of sorts.now (map form_tree forms.now) (exprs_of (node ∷ rest.now))) }
    ensures fits { IfOk result (λ _. all_fit sorts.now (map form_tree forms.now) (exprs_of (node ∷ rest.now)) ≡ true) }
    ensures refused { IfErr result (λ e. e ≡ FormFault.TooLarge → all_fit sorts.now (map form_tree forms.now) (exprs_of (node ∷ rest.now)) ≡ false) }
{
    let stack = evaluated(alloc, sorts, forms, rest)?;
    with_node(alloc, sorts, forms, node, stack)
}

/// Returns the sort and the form of an expression, with the sorts and the forms of the variables. Fails with `TooLarge`
/// exactly if a form of the expression or of a part of it is too large, or too large to be multiplied out.
#[tactic(auto, using(crate::proofs::Evaluated::top_sort_is, crate::proofs::Evaluated::top_form_is))]
pub fn expression_form(
    alloc: Global,
    sorts: &[Sort],
    forms: &[FlowForm],
    expr: &[ExprNode],
) -> Result<(Sort, FlowForm), FormFault>
    ensures sort { IfOk result (λ r. r.0 ≡ sort_of sorts.now (expr_of expr.now)) }
    ensures form { IfOk result (λ r. form_tree r.1 ≡ form_of sorts.now (map form_tree forms.now) (expr_of expr.now)) }
    ensures fits { IfOk result (λ _. all_fit sorts.now (map form_tree forms.now) (exprs_of expr.now) ≡ true) }
    ensures refused { IfErr result (λ e. e ≡ FormFault.TooLarge → all_fit sorts.now (map form_tree forms.now) (exprs_of expr.now) ≡ false) }
{
    let top = evaluated(alloc, sorts, forms, expr)?.popped();
    Ok((top.sort, top.form))
}
