//! What holds of a comparison after a parallel assignment, as a condition before it.
ghost use Rattle.std.specs.Prelude.{◌≡◌, ◌&&◌, true, option_map};
ghost use Rattle.flow_forms.specs.Comparisons.{comparison_tree, literal_tree};
ghost use Rattle.flow_ways.specs.CondForms.{comparison_is_small as is_small_comparison, literal_is_small as is_small_literal};
ghost use Rattle.flow_problem.specs.Substitutions.{literal_if_small as literal_unless_large};
ghost use Rattle.flow_abstraction.specs.Working.Substituted.{MakesLiteral, literal_by, fits_by, literal_if_it_fits, literal_where, literal_of_sets};
ghost use Rattle.flow_edges.specs.Working.Splitting.{OkOnlyIf, LargeOnlyIfNot};
ghost use Rattle.flow_edges.specs.Working.Views.{Makes};

use crate::assigned_forms::forms_after;
use crate::variables::sets_cell_of;
use flow_forms::{
    FlowComparison, FlowForm, FlowLiteral, FormFault, Place, is_small, less_literal, same_literal,
    substitute, zero_literal,
};
use flow_model::Sort;
use kat_model::NoMemory;
use std::alloc::Global;

// Returns the condition that a comparison holds of forms in place of its variables, or `TooLarge`.
#[tactic(auto, using(flow_ways::proofs::CondForms::no_second))]
fn comparison_after(
    alloc: Global,
    sorts: &[Sort],
    forms: &[FlowForm],
    comparison: &FlowComparison,
) -> Result<FlowLiteral, FormFault>
    ensures made { Makes literal_tree result (literal_by sorts.now forms.now comparison.now) }
    ensures fits { OkOnlyIf result (fits_by sorts.now forms.now comparison.now) }
    ensures refused { LargeOnlyIfNot result (fits_by sorts.now forms.now comparison.now) }
{
    match comparison {
        FlowComparison::Zero(width, f) => {
            let form = substitute(alloc, sorts, forms, Place::InNumber(*width), f)?;
            Ok(zero_literal(alloc, *width, form)?)
        }
        FlowComparison::Less(width, f, g) => {
            let left = substitute(alloc, sorts, forms, Place::InNumber(*width), f)?;
            let right = substitute(alloc, sorts, forms, Place::InNumber(*width), g)?;
            Ok(less_literal(alloc, *width, left, right)?)
        }
        FlowComparison::Same(f, g) => {
            let left = substitute(alloc, sorts, forms, Place::AsValue, f)?;
            let right = substitute(alloc, sorts, forms, Place::AsValue, g)?;
            Ok(same_literal(left, right))
        }
    }
}

fn comparison_is_small(comparison: &FlowComparison) -> bool
    ensures { result ≡ is_small_comparison (comparison_tree comparison.now) }
{
    match comparison {
        FlowComparison::Zero(_, f) => is_small(f),
        FlowComparison::Less(_, f, g) => is_small(f) && is_small(g),
        FlowComparison::Same(f, g) => is_small(f) && is_small(g),
    }
}

fn literal_is_small(literal: &FlowLiteral) -> bool
    ensures { result ≡ is_small_literal (literal_tree literal.now) }
{
    match literal {
        FlowLiteral::Decided(_) => true,
        FlowLiteral::Holds(comparison) => comparison_is_small(comparison),
        FlowLiteral::Fails(comparison) => comparison_is_small(comparison),
    }
}

fn literal_if_small(literal: FlowLiteral) -> Option<FlowLiteral>
    ensures { option_map literal_tree result ≡ literal_unless_large (literal_tree literal) }
{
    if literal_is_small(&literal) {
        return Some(literal);
    }
    None
}

fn literal_of_forms(
    alloc: Global,
    sorts: &[Sort],
    forms: &[FlowForm],
    comparison: &FlowComparison,
) -> Result<Option<FlowLiteral>, NoMemory>
    ensures { MakesLiteral result (literal_if_it_fits sorts.now forms.now comparison.now) }
{
    match comparison_after(alloc, sorts, forms, comparison) {
        Ok(literal) => Ok(literal_if_small(literal)),
        Err(FormFault::TooLarge) => Ok(None),
        Err(FormFault::NoMemory) => Err(NoMemory),
    }
}

/// As `literal_after`, where `forms` are the forms of the variables after the assignment (`forms_after`).
pub(crate) fn literal_with(
    alloc: Global,
    sorts: &[Sort],
    sets: &[Option<FlowForm>],
    forms: &[FlowForm],
    comparison: &FlowComparison,
) -> Result<Option<FlowLiteral>, NoMemory>
    ensures { MakesLiteral result (literal_where sorts.now sets.now forms.now comparison.now) }
{
    if !sets_cell_of(sets, comparison) {
        let kept = comparison.copy(alloc)?;
        return Ok(Some(FlowLiteral::Holds(kept)));
    }
    literal_of_forms(alloc, sorts, forms, comparison)
}

/// Returns the condition before a parallel assignment that holds exactly where a comparison holds after it, or `None` if
/// one of its forms would be too large. Fails only when out of memory.
#[tactic(auto, using(crate::proofs::AssignedForms::literal_is))]
pub(crate) fn literal_after(
    alloc: Global,
    sorts: &[Sort],
    sets: &[Option<FlowForm>],
    comparison: &FlowComparison,
) -> Result<Option<FlowLiteral>, NoMemory>
    ensures { MakesLiteral result (literal_of_sets sorts.now sets.now comparison.now) }
{
    let forms = forms_after(alloc, sorts, sets)?;
    literal_with(alloc, sorts, sets, &forms, comparison)
}
