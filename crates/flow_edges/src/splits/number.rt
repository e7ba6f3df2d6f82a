//! A number in the place of a cell: a new variable stands for the cell, and the number is put in its place.
ghost use Rattle.std.specs.Prelude.{◌≡◌, IfOk};
ghost use Rattle.flow_forms.specs.Forms.{form_tree};
ghost use Rattle.flow_edges.specs.CellTests.{cell_test_tree};
ghost use Rattle.flow_edges.specs.Numbers.{HasNumber};
ghost use Rattle.flow_edges.specs.Working.Splitting.{IsNumbered, form_by, form_fits, OkOnlyIf, LargeOnlyIfNot};

use crate::splits::cell::named;
use crate::splits::cell_test::CellTest;
use flow_forms::{FlowForm, FormFault, place_of, substitute};
use flow_model::Sort;
use flow_ways::{initial_forms, push_form};
use kat_model::NoMemory;
use std::alloc::Global;

/// The variables with a new one, which has the number of a test: their sorts and forms.
pub(crate) struct WithNumber {
    pub(crate) sorts: Vec<Sort>,
    pub(crate) forms: Vec<FlowForm>,
}

// Explicit, so that it is proved once and not at each end of each function that owns one.
impl Drop for WithNumber {
    fn drop(self) {
        let WithNumber {
            sorts: _sorts,
            forms: _forms,
        } = self;
    }
}

/// What ways are split by: the sorts of the variables, a test, and the variables with its number.
#[derive(Drop)]
pub(crate) struct Split<'a> {
    pub(crate) sorts: &'a [Sort],
    pub(crate) test: &'a CellTest,
    pub(crate) variables: WithNumber,
}

/// Returns the variables with a new one for the cell of a test. Fails only when out of memory.
pub(crate) fn variables_with(
    alloc: Global,
    sorts: &[Sort],
    test: &CellTest,
) -> Result<WithNumber, NoMemory>
    ensures { IfOk result (HasNumber sorts.now (cell_test_tree test.now)) }
{
    let mut forms = initial_forms(alloc, sorts)?;
    push_form(&mut forms, FlowForm::Constant(test.number))?;
    let mut more = Vec::new(alloc);
    more.extend_from_slice(sorts)?;
    more.push(Sort::Number(test.width))?;
    Ok(WithNumber { sorts: more, forms })
}

/// Returns a form of a sort with the number of the test in the place of its cell. Fails with `TooLarge` exactly if a form
/// becomes too large.
#[tactic(auto, using(crate::proofs::Numbered::number_is, crate::proofs::Numbered::fits_is))]
pub(crate) fn with_number(
    alloc: Global,
    split: &Split,
    sort: Sort,
    form: &FlowForm,
) -> Result<FlowForm, FormFault>
    requires { IsNumbered split.now }
    ensures made { IfOk result (λ f. form_tree f ≡ form_by split.now sort form.now) }
    ensures fits { OkOnlyIf result (form_fits split.now sort form.now) }
    ensures refused { LargeOnlyIfNot result (form_fits split.now sort form.now) }
{
    let form = named(alloc, &split.test.cell, split.sorts.len(), form)?;
    let variables = &split.variables;
    substitute(
        alloc,
        &variables.sorts,
        &variables.forms,
        place_of(sort),
        &form,
    )
}
