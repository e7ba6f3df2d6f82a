//! Tests that a cell is a number.
ghost use Rattle.std.specs.Prelude.{◌≡◌};
ghost use Rattle.kat_model.specs.Stores.{bits as bits_of};
ghost use Rattle.flow_forms.specs.Forms.{form_tree};
ghost use Rattle.flow_forms.specs.Conversions.{is_same_width as has_same_bits, is_one as has_no_cells};
ghost use Rattle.flow_forms.specs.Comparisons.{comparison_tree};
ghost use Rattle.flow_problem.specs.Splits.{is_number_of as is_of_width, is_cell_of as is_cell_of_width, sum_test as test_of_sum, cell_test as test_of, cell_tests as tests_of};
ghost use Rattle.flow_edges.specs.CellTests.{cell_test_tree, test_if_any};
ghost use Rattle.flow_edges.specs.Working.Views.{comparison_trees, Appends, MakesList};
ghost use Rattle.flow_edges.specs.Working.Splitting.{MakesTest, test_where, signed_test_of, product_test_of, tested_sum_of};

use flow_forms::{FlowComparison, FlowForm};
use flow_model::Sort;
use kat_model::{NoMemory, Width, append};
use std::alloc::Global;

/// A test that a cell of a width is a number.
pub(crate) struct CellTest {
    pub(crate) comparison: FlowComparison,
    pub(crate) width: Width,
    pub(crate) cell: FlowForm,
    pub(crate) number: u64,
}

// Explicit, so that it is proved once and not at each end of each function that owns one.
impl Drop for CellTest {
    fn drop(self) {
        let CellTest {
            comparison: _comparison,
            width: _,
            cell: _cell,
            number: _,
        } = self;
    }
}

fn bits(width: Width) -> u32
    ensures { result ≡ bits_of width }
{
    match width {
        Width::W8 => 8,
        Width::W16 => 16,
        Width::W32 => 32,
        Width::W64 => 64,
    }
}

fn is_same_width(left: Width, right: Width) -> bool
    ensures { result ≡ has_same_bits left right }
{
    bits(left) == bits(right)
}

fn is_number_of(width: Width, sort: Option<Sort>) -> bool
    ensures { result ≡ is_of_width width sort }
{
    match sort {
        Some(Sort::Number(own)) => is_same_width(own, width),
        Some(Sort::Opaque(_)) => false,
        None => false,
    }
}

// Returns whether a form is a cell that is a number of the width.
fn is_cell_of(sorts: &[Sort], width: Width, form: &FlowForm) -> bool
    ensures { result ≡ is_cell_of_width sorts.now width (form_tree form.now) }
{
    match form {
        FlowForm::Variable(k) => is_number_of(width, sorts.get(*k).copied()),
        FlowForm::Applied(_, sort, _) => is_number_of(width, Some(*sort)),
        FlowForm::Converted(_, _, to, _) => is_same_width(*to, width),
        _ => false,
    }
}

fn is_one(product: &FlowForm) -> bool
    ensures { result ≡ has_no_cells (form_tree product.now) }
{
    match product {
        FlowForm::One => true,
        _ => false,
    }
}

fn cell_test_if(
    alloc: Global,
    is_test: bool,
    width: Width,
    form: &FlowForm,
    cell: &FlowForm,
    number: u64,
) -> Result<Option<CellTest>, NoMemory>
    ensures { MakesTest result (test_where is_test width form.now cell.now number) }
{
    if !is_test {
        return Ok(None);
    }
    let comparison = FlowComparison::Zero(width, form.copy(alloc)?);
    let cell = cell.copy(alloc)?;
    Ok(Some(CellTest {
        comparison,
        width,
        cell,
        number,
    }))
}

// Returns the test that a multiple of a cell plus a number is 0, if it says that the cell is a number.
fn signed_cell_test(
    alloc: Global,
    sorts: &[Sort],
    width: Width,
    form: &FlowForm,
    times: u64,
    cell: &FlowForm,
    number: u64,
) -> Result<Option<CellTest>, NoMemory>
    ensures { MakesTest result (signed_test_of sorts.now width form.now times cell.now number) }
{
    let is_cell = is_cell_of(sorts, width, cell);
    if times == 1 {
        return cell_test_if(alloc, is_cell, width, form, cell, width.sub(0, number));
    }
    let is_test = times == width.greatest() && is_cell;
    cell_test_if(alloc, is_test, width, form, cell, width.residue(number))
}

fn product_test(
    alloc: Global,
    sorts: &[Sort],
    width: Width,
    form: &FlowForm,
    times: u64,
    product: &FlowForm,
    number: u64,
) -> Result<Option<CellTest>, NoMemory>
    ensures { MakesTest result (product_test_of sorts.now width form.now times product.now number) }
{
    match product {
        FlowForm::Factor(cell, rest) => {
            if is_one(rest) {
                return signed_cell_test(alloc, sorts, width, form, times, cell, number);
            }
            Ok(None)
        }
        _ => Ok(None),
    }
}

// Returns the test that a form is 0, where the form is a multiple of a product plus `rest`.
fn sum_test_of(
    alloc: Global,
    sorts: &[Sort],
    width: Width,
    form: &FlowForm,
    times: u64,
    product: &FlowForm,
    rest: &FlowForm,
) -> Result<Option<CellTest>, NoMemory>
    ensures { MakesTest result (tested_sum_of sorts.now width form.now times product.now rest.now) }
{
    match rest {
        FlowForm::Constant(number) => {
            product_test(alloc, sorts, width, form, times, product, *number)
        }
        _ => Ok(None),
    }
}

#[tactic(auto, using(crate::proofs::CellForms::sum_tested))]
fn sum_test(
    alloc: Global,
    sorts: &[Sort],
    width: Width,
    form: &FlowForm,
) -> Result<Option<CellTest>, NoMemory>
    ensures { MakesTest result (test_of_sum sorts.now width (form_tree form.now)) }
{
    match form {
        FlowForm::Term(times, product, rest) => {
            sum_test_of(alloc, sorts, width, form, *times, product, rest)
        }
        _ => Ok(None),
    }
}

// Returns the test if it says that a cell is a number.
fn cell_test(
    alloc: Global,
    sorts: &[Sort],
    comparison: &FlowComparison,
) -> Result<Option<CellTest>, NoMemory>
    ensures { MakesTest result (test_of sorts.now (comparison_tree comparison.now)) }
{
    match comparison {
        FlowComparison::Zero(width, form) => sum_test(alloc, sorts, *width, form),
        FlowComparison::Less(_, _, _) => Ok(None),
        FlowComparison::Same(_, _) => Ok(None),
    }
}

#[tactic(auto, using(flow_ways::proofs::CourseLists::none_then, flow_ways::proofs::CourseLists::map_pushed))]
fn push_if_any(list: &mut Vec<CellTest>, test: Option<CellTest>) -> Result<(), NoMemory>
    ensures { Appends cell_test_tree result list.old list.new (test_if_any test) }
{
    match test {
        None => Ok(()),
        Some(test) => append(list, test),
    }
}

/// Returns those of the tests that say that a cell is a number. Fails only when out of memory.
pub(crate) fn cell_tests(
    alloc: Global,
    sorts: &[Sort],
    tests: &[FlowComparison],
) -> Result<Vec<CellTest>, NoMemory>
    ensures { MakesList cell_test_tree result (tests_of sorts.now (comparison_trees tests.now)) }
{
    let mut list = Vec::new(alloc);
    for comparison in tests {
        push_if_any(&mut list, cell_test(alloc, sorts, comparison)?)?;
    }
    Ok(list)
}
