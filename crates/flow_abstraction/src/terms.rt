//! Terms of tests that exclude one another.
ghost use Rattle.std.specs.Prelude.{◌≡◌, IfOk};
ghost use Rattle.kat_model.specs.Trees.{test, product, test_tree, kat_tree};
ghost use Rattle.flow_problem.specs.Substitutions.{complement_of};
ghost use Rattle.flow_problem.specs.FlowFacts.{never_both as never_both_of, literal_test as literal_test_of};
ghost use Rattle.flow_abstraction.specs.Working.Adding.{none_of_tests};
ghost use Rattle.flow_edges.specs.Working.Views.{Makes};

use kat_model::{Kat, NoMemory, Test};
use std::alloc::Global;

/// Returns the opposite of a test.
pub(crate) fn opposite_of(alloc: Global, number: usize) -> Result<Test, NoMemory>
    ensures { IfOk result (λ b. test_tree b ≡ complement_of number) }
{
    Test::new_not(alloc, Test::Prim(number))
}

/// Returns a test, or its opposite.
pub(crate) fn literal_test(alloc: Global, number: usize, holds: bool) -> Result<Test, NoMemory>
    ensures { IfOk result (λ b. test_tree b ≡ literal_test_of number holds) }
{
    if holds {
        return Ok(Test::Prim(number));
    }
    opposite_of(alloc, number)
}

/// Returns the product of two tests.
pub(crate) fn both(alloc: Global, first: Test, second: Test) -> Result<Kat, NoMemory>
    ensures { Makes kat_tree result (product (test (test_tree first)) (test (test_tree second))) }
{
    Kat::new_seq(alloc, Kat::Test(first), Kat::Test(second))
}

/// Returns the product of two tests by their numbers.
pub(crate) fn never_both(alloc: Global, first: usize, second: usize) -> Result<Kat, NoMemory>
    ensures { IfOk result (λ e. kat_tree e ≡ never_both_of first second) }
{
    both(alloc, Test::Prim(first), Test::Prim(second))
}

/// Returns the product of three tests.
pub(crate) fn none_of_three(
    alloc: Global,
    first: Test,
    second: Test,
    third: Test,
) -> Result<Kat, NoMemory>
    ensures { Makes kat_tree result (none_of_tests first second third) }
{
    let end = both(alloc, second, third)?;
    Kat::new_seq(alloc, Kat::Test(first), end)
}
