//! Converts terms to tests.
ghost use Rattle.std.specs.Prelude.{◌≡◌, IfOk};
ghost use Rattle.kat_model.specs.Trees.{complement, test, test_tree, kat_tree};
ghost use Rattle.text_parser.specs.Sizes.{as_test};

use kat_model::{Kat, NoMemory, Test};
use std::alloc::Global;
use std::mem;

// Converts a term to a test, and takes the tests out of it. An action or a star becomes false.
fn as_test(alloc: Global, term: &mut Kat) -> Result<Test, NoMemory>
    ensures { IfOk result (λ t. test_tree t ≡ as_test (kat_tree term.old)) }
{
    match term {
        Kat::Zero | Kat::Act(_) | Kat::Star(_) => Ok(Test::False),
        Kat::One => Ok(Test::True),
        Kat::Test(b) => Ok(mem::replace(b, Test::False)),
        Kat::Sum(e, f) => {
            let left = as_test(alloc, e)?;
            let right = as_test(alloc, f)?;
            Test::new_or(alloc, left, right)
        }
        Kat::Seq(e, f) => {
            let left = as_test(alloc, e)?;
            let right = as_test(alloc, f)?;
            Test::new_and(alloc, left, right)
        }
    }
}

// Returns the complement of the term as a test.
pub(crate) fn negated(alloc: Global, mut term: Kat) -> Result<Kat, NoMemory>
    ensures { IfOk result (λ e. kat_tree e ≡ test (complement (as_test (kat_tree term)))) }
{
    let operand = as_test(alloc, &mut term)?;
    Ok(Kat::Test(Test::new_not(alloc, operand)?))
}
