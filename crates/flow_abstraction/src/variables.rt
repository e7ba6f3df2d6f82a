//! The variables of forms and comparisons.
ghost use Rattle.std.specs.Prelude.{◌≡◌, ◌+◌, ◌<◌, ◌^◌, ◌∷◌, length, map};
ghost use Rattle.flow_forms.specs.Forms.{form_tree};
ghost use Rattle.flow_forms.specs.Comparisons.{comparison_tree};
ghost use Rattle.flow_ways.specs.ActionTrees.{set_tree};
ghost use Rattle.flow_problem.specs.Substitutions.{has_variable as form_has_variable, comparison_has as comparison_has_variable, sets_cell_of as sets_cell};
ghost use Rattle.flow_abstraction.specs.Working.Substituted.{some_set_in};

use flow_forms::{FlowComparison, FlowForm};

// Whether a variable is a cell of a form, or of a part of one.
fn has_variable(form: &FlowForm, variable: usize) -> bool
    ensures { result ≡ form_has_variable variable (form_tree form.now) }
{
    match form {
        FlowForm::Constant(_) | FlowForm::One | FlowForm::NoArguments => false,
        FlowForm::Term(_, part, rest) => {
            has_variable(part, variable) || has_variable(rest, variable)
        }
        FlowForm::Factor(part, rest) => has_variable(part, variable)
            || has_variable(rest, variable),
        FlowForm::Argument(_, part, rest) => {
            has_variable(part, variable) || has_variable(rest, variable)
        }
        FlowForm::Variable(k) => *k == variable,
        FlowForm::Applied(_, _, arguments) => has_variable(arguments, variable),
        FlowForm::Converted(_, _, _, inner) => has_variable(inner, variable),
    }
}

fn comparison_has(comparison: &FlowComparison, variable: usize) -> bool
    ensures { result ≡ comparison_has_variable variable (comparison_tree comparison.now) }
{
    match comparison {
        FlowComparison::Zero(_, f) => has_variable(f, variable),
        FlowComparison::Less(_, f, g) => has_variable(f, variable) || has_variable(g, variable),
        FlowComparison::Same(f, g) => has_variable(f, variable) || has_variable(g, variable),
    }
}

// Whether a comparison has some of the variables from `number` on that are set.
#[cycle(some_set)]
fn some_set(comparison: &FlowComparison, number: usize, sets: &[Option<FlowForm>]) -> bool
    requires { number + length sets.now < 2 ^ 64 }
    ensures { result ≡ some_set_in comparison.now number sets.now }
{
    match sets {
        [] => false,
        [set, rest @ ..] => some_set_from(comparison, number, set, rest),
    }
}

#[cycle(some_set)]
#[tactic(auto, using(crate::proofs::AssignedForms::unset_next, crate::proofs::AssignedForms::set_next))]
fn some_set_from(
    comparison: &FlowComparison,
    number: usize,
    set: &Option<FlowForm>,
    rest: &[Option<FlowForm>],
) -> bool
    requires { number + length rest.now + 1 < 2 ^ 64 }
    ensures { result ≡ some_set_in comparison.now number (set.now ∷ rest.now) }
{
    match set {
        None => some_set(comparison, number + 1, rest),
        Some(_) => comparison_has(comparison, number) || some_set(comparison, number + 1, rest),
    }
}

/// Whether an assignment sets a variable that a comparison has.
pub(crate) fn sets_cell_of(sets: &[Option<FlowForm>], comparison: &FlowComparison) -> bool
    ensures { result ≡ sets_cell (map set_tree sets.now) (comparison_tree comparison.now) }
{
    let _known = sets.len();
    some_set(comparison, 0, sets)
}
