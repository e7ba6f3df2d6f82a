//! Ways, and those that are found.
ghost use Rattle.std.specs.Prelude.{◌≡◌, ◌<◌, ◌+◌, ◌&&◌, ◌∷◌, ◌++◌, [], true, false, IfOk, IfErr, OnOk, map};
ghost use Rattle.flow_model.specs.Polish.{expr_of, exprs_of, values_of};
ghost use Rattle.flow_forms.specs.Forms.{form_tree};
ghost use Rattle.flow_forms.specs.Expressions.{sort_of, form_of};
ghost use Rattle.flow_forms.specs.Evaluation.{all_fit};
ghost use Rattle.flow_ways.specs.CondTrees.{cond_tree};
ghost use Rattle.flow_ways.specs.Outcomes.{aborted, one_way, values_fit, placed_way, returned_way, if_fits};
ghost use Rattle.flow_ways.specs.CourseTrees.{course_tree};
ghost use Rattle.flow_ways.specs.WayTrees.{sorted_form, way_tree, Adds, HasReason};

use crate::condition::FlowCond;
use crate::fault::WayFault;
use crate::form_list::push_form;
use crate::found::Found;
use crate::limits::MAX_WAYS;
use crate::symbolic_run::{SymbolicRun, push_cond};
use flow_forms::{FlowForm, FormFault, expression_form};
use flow_model::{ExprNode, Sort};
use kat_model::{NoMemory, append};
use std::alloc::Global;

/// A form and its sort.
pub struct SortedForm {
    pub sort: Sort,
    pub form: FlowForm,
}

// Explicit, so that it is proved once and not at each end of each function that owns one.
impl Drop for SortedForm {
    fn drop(self) {
        let SortedForm {
            sort: _,
            form: _form,
        } = self;
    }
}

/// The end of a way: a place, by its block, with the forms of the variables, or results.
#[derive(Drop)]
pub enum WayEnd {
    AtPlace(usize, Vec<FlowForm>),
    AtReturn(Vec<SortedForm>),
}

/// A way: its tests in order, and its end.
#[derive(Drop)]
pub struct Way {
    pub tests: Vec<FlowCond>,
    pub end: WayEnd,
}

// Appends copies of conditions.
#[cycle(push_conds)]
#[tactic(auto, using(crate::proofs::CourseLists::none_then))]
fn push_conds(alloc: Global, conds: &[FlowCond], list: &mut Vec<FlowCond>) -> Result<(), NoMemory>
    ensures { OnOk result (map cond_tree list.new.items ≡ map cond_tree list.old.items ++ map cond_tree conds.now) }
{
    match conds {
        [] => Ok(()),
        [cond, rest @ ..] => push_conds_from(alloc, cond, rest, list),
    }
}

#[cycle(push_conds)]
#[tactic(auto, using(crate::proofs::CourseLists::pushed_then))]
fn push_conds_from(
    alloc: Global,
    cond: &FlowCond,
    rest: &[FlowCond],
    list: &mut Vec<FlowCond>,
) -> Result<(), NoMemory>
    ensures { OnOk result (map cond_tree list.new.items ≡ map cond_tree list.old.items ++ cond_tree cond.now ∷ map cond_tree rest.now) }
{
    let copy = cond.copy(alloc)?;
    push_cond(list, copy)?;
    push_conds(alloc, rest, list)
}

/// Returns copies of conditions. Fails only when out of memory.
pub fn copy_conds(alloc: Global, conds: &[FlowCond]) -> Result<Vec<FlowCond>, NoMemory>
    ensures { IfOk result (λ list. map cond_tree list.items ≡ map cond_tree conds.now) }
{
    let mut list = Vec::new(alloc);
    push_conds(alloc, conds, &mut list)?;
    Ok(list)
}

// Appends copies of forms.
#[cycle(push_forms)]
#[tactic(auto, using(crate::proofs::CourseLists::none_then))]
fn push_forms(alloc: Global, forms: &[FlowForm], list: &mut Vec<FlowForm>) -> Result<(), NoMemory>
    ensures { OnOk result (map form_tree list.new.items ≡ map form_tree list.old.items ++ map form_tree forms.now) }
{
    match forms {
        [] => Ok(()),
        [form, rest @ ..] => push_forms_from(alloc, form, rest, list),
    }
}

#[cycle(push_forms)]
#[tactic(auto, using(crate::proofs::CourseLists::pushed_then))]
fn push_forms_from(
    alloc: Global,
    form: &FlowForm,
    rest: &[FlowForm],
    list: &mut Vec<FlowForm>,
) -> Result<(), NoMemory>
    ensures { OnOk result (map form_tree list.new.items ≡ map form_tree list.old.items ++ form_tree form.now ∷ map form_tree rest.now) }
{
    let copy = form.copy(alloc)?;
    push_form(list, copy)?;
    push_forms(alloc, rest, list)
}

/// Returns copies of forms. Fails only when out of memory.
pub(crate) fn copy_forms(alloc: Global, forms: &[FlowForm]) -> Result<Vec<FlowForm>, NoMemory>
    ensures { IfOk result (λ list. map form_tree list.items ≡ map form_tree forms.now) }
{
    let mut list = Vec::new(alloc);
    push_forms(alloc, forms, &mut list)?;
    Ok(list)
}

#[tactic(auto, using(crate::proofs::CourseLists::map_pushed))]
fn push_result(list: &mut Vec<SortedForm>, result_form: SortedForm) -> Result<(), NoMemory>
    ensures { OnOk result (map sorted_form list.new.items ≡ map sorted_form list.old.items ++ sorted_form result_form ∷ []) }
{
    append(list, result_form)
}

// Appends the forms of results, each with its sort.
#[cycle(push_results)]
#[tactic(auto, using(crate::proofs::CourseLists::none_then))]
fn push_results(
    alloc: Global,
    sorts: &[Sort],
    forms: &[FlowForm],
    values: &[Vec<ExprNode>],
    list: &mut Vec<SortedForm>,
) -> Result<(), FormFault>
    ensures made { OnOk result (map sorted_form list.new.items ≡ map sorted_form list.old.items ++ map (λ e. (sort_of sorts.now e, form_of sorts.now (map form_tree forms.now) e)) (values_of values.now)) }
    ensures fits { OnOk result (values_fit sorts.now (map form_tree forms.now) values.now ≡ true) }
    ensures refused { IfErr result (λ e. e ≡ FormFault.TooLarge → values_fit sorts.now (map form_tree forms.now) values.now ≡ false) }
{
    match values {
        [] => Ok(()),
        [value, rest @ ..] => push_results_from(alloc, sorts, forms, value, rest, list),
    }
}

#[cycle(push_results)]
#[tactic(auto, using(crate::proofs::CourseLists::pushed_then, crate::proofs::CondForms::no_second))]
fn push_results_from(
    alloc: Global,
    sorts: &[Sort],
    forms: &[FlowForm],
    value: &Vec<ExprNode>,
    rest: &[Vec<ExprNode>],
    list: &mut Vec<SortedForm>,
) -> Result<(), FormFault>
    ensures made { OnOk result (map sorted_form list.new.items ≡ map sorted_form list.old.items ++ (sort_of sorts.now (expr_of value.now.items), form_of sorts.now (map form_tree forms.now) (expr_of value.now.items)) ∷ map (λ e. (sort_of sorts.now e, form_of sorts.now (map form_tree forms.now) e)) (values_of rest.now)) }
    ensures fits { OnOk result ((all_fit sorts.now (map form_tree forms.now) (exprs_of value.now.items) && values_fit sorts.now (map form_tree forms.now) rest.now) ≡ true) }
    ensures refused { IfErr result (λ e. e ≡ FormFault.TooLarge → (all_fit sorts.now (map form_tree forms.now) (exprs_of value.now.items) && values_fit sorts.now (map form_tree forms.now) rest.now) ≡ false) }
{
    let (sort, form) = expression_form(alloc, sorts, forms, value)?;
    push_result(list, SortedForm { sort, form })?;
    push_results(alloc, sorts, forms, rest, list)
}

fn results_of(
    alloc: Global,
    sorts: &[Sort],
    forms: &[FlowForm],
    values: &[Vec<ExprNode>],
) -> Result<Vec<SortedForm>, FormFault>
    ensures made { IfOk result (λ list. map sorted_form list.items ≡ map (λ e. (sort_of sorts.now e, form_of sorts.now (map form_tree forms.now) e)) (values_of values.now)) }
    ensures fits { IfOk result (λ _. values_fit sorts.now (map form_tree forms.now) values.now ≡ true) }
    ensures refused { IfErr result (λ e. e ≡ FormFault.TooLarge → values_fit sorts.now (map form_tree forms.now) values.now ≡ false) }
{
    let mut list = Vec::new(alloc);
    push_results(alloc, sorts, forms, values, &mut list)?;
    Ok(list)
}

/// Counts a way that aborts. Fails with `TooManyPaths` if there are too many.
#[tactic(auto, using(crate::proofs::CourseLists::none_then))]
pub(crate) fn count_aborted(found: &mut Found) -> Result<(), WayFault>
    ensures added { OnOk result (Adds aborted found.old found.new) }
    ensures refused { IfErr result (HasReason aborted found.old.count) }
{
    if found.count >= MAX_WAYS {
        return Err(WayFault::TooManyPaths);
    }
    found.count += 1;
    Ok(())
}

#[tactic(auto, using(crate::proofs::CourseLists::map_pushed))]
fn push_way(ways: &mut Vec<Way>, way: Way) -> Result<(), NoMemory>
    ensures { OnOk result (map way_tree ways.new.items ≡ map way_tree ways.old.items ++ way_tree way ∷ []) }
{
    append(ways, way)
}

// Adds a way. Fails with `TooManyPaths` if there are too many.
fn add_way(found: &mut Found, way: Way) -> Result<(), WayFault>
    ensures added { OnOk result (Adds (one_way (way_tree way)) found.old found.new) }
    ensures refused { IfErr result (HasReason (one_way (way_tree way)) found.old.count) }
{
    if found.count >= MAX_WAYS {
        return Err(WayFault::TooManyPaths);
    }
    push_way(&mut found.ways, way)?;
    found.count += 1;
    Ok(())
}

/// Ends a course at a place.
pub(crate) fn end_at_place(
    alloc: Global,
    block: usize,
    symbolic_run: &SymbolicRun,
    found: &mut Found,
) -> Result<(), WayFault>
    ensures added { OnOk result (Adds (one_way (placed_way block (course_tree symbolic_run.now))) found.old found.new) }
    ensures refused { IfErr result (HasReason (one_way (placed_way block (course_tree symbolic_run.now))) found.old.count) }
{
    let tests = copy_conds(alloc, &symbolic_run.tests)?;
    let forms = copy_forms(alloc, &symbolic_run.forms)?;
    add_way(
        found,
        Way {
            tests,
            end: WayEnd::AtPlace(block, forms),
        },
    )
}

/// Ends a course with results.
#[tactic(auto, using(crate::proofs::FoundWays::large_form, crate::proofs::FoundWays::never_many, crate::proofs::CondForms::no_second))]
pub(crate) fn end_with_results(
    alloc: Global,
    sorts: &[Sort],
    values: &[Vec<ExprNode>],
    symbolic_run: &SymbolicRun,
    found: &mut Found,
) -> Result<(), WayFault>
    ensures added { OnOk result (Adds (if_fits (values_fit sorts.now (course_tree symbolic_run.now).forms values.now) (one_way (returned_way sorts.now values.now (course_tree symbolic_run.now)))) found.old found.new) }
    ensures refused { IfErr result (HasReason (if_fits (values_fit sorts.now (course_tree symbolic_run.now).forms values.now) (one_way (returned_way sorts.now values.now (course_tree symbolic_run.now)))) found.old.count) }
{
    let results = results_of(alloc, sorts, &symbolic_run.forms, values)?;
    let tests = copy_conds(alloc, &symbolic_run.tests)?;
    add_way(
        found,
        Way {
            tests,
            end: WayEnd::AtReturn(results),
        },
    )
}
