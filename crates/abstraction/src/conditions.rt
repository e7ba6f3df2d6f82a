//! Conditions as tests over the rows of tables.
ghost use Rattle.std.specs.Prelude.{◌≡◌, option_map, unwrap_or, IfOk};
ghost use Rattle.kat_model.specs.Expressions.{expr_tree, cond_tree};
ghost use Rattle.kat_model.specs.Stores.{modulus};
ghost use Rattle.kat_model.specs.Trees.{bottom, test_tree};
ghost use Rattle.linear_forms.specs.Comparisons.{comparison_form};
ghost use Rattle.abstraction.specs.Tests.{form_test, cond_test};

use crate::tables::Numbering;
use kat_model::{Cond, Expr, NoMemory, Rel, Test};
use linear_forms::{CondForm, normal_cond};
use std::alloc::Global;

/// Builds the test of a condition form, if it is constant or its comparison is a row; otherwise returns `None`. Fails only
/// when out of memory.
pub(crate) fn form_test<T: Numbering>(
    alloc: Global,
    tables: &T,
    cond: &CondForm,
) -> Result<Option<Test>, NoMemory>
    ensures { IfOk result (λ o. option_map test_tree o ≡ form_test (T.tables tables.now) cond.now) }
{
    match cond {
        CondForm::True => Ok(Some(Test::True)),
        CondForm::False => Ok(Some(Test::False)),
        CondForm::Pos(atomic) => match tables.test_number(atomic) {
            Some(k) => Ok(Some(Test::Prim(k))),
            None => Ok(None),
        },
        CondForm::Neg(atomic) => match tables.test_number(atomic) {
            Some(k) => Ok(Some(Test::new_not(alloc, Test::Prim(k))?)),
            None => Ok(None),
        },
    }
}

// Builds the test of a condition form; a comparison that is not a row counts as false.
fn form_test_or_false<T: Numbering>(
    alloc: Global,
    tables: &T,
    form: &CondForm,
) -> Result<Test, NoMemory>
    ensures { IfOk result (λ t. test_tree t ≡ unwrap_or (form_test (T.tables tables.now) form.now) bottom) }
{
    match form_test(alloc, tables, form)? {
        Some(test) => Ok(test),
        None => Ok(Test::False),
    }
}

// Builds the test of a comparison of two expressions.
fn comparison_test<T: Numbering>(
    alloc: Global,
    tables: &T,
    rel: Rel,
    left: &Expr,
    right: &Expr,
) -> Result<Test, NoMemory>
    ensures { IfOk result (λ t. test_tree t ≡ unwrap_or (form_test (T.tables tables.now) (comparison_form (modulus (T.tables tables.now).width) rel (expr_tree left.now) (expr_tree right.now))) bottom) }
{
    let form = normal_cond(alloc, tables.width(), rel, left, right)?;
    form_test_or_false(alloc, tables, &form)
}

/// Builds the test of a condition; a comparison that is not a row counts as false. Fails only when out of memory.
pub(crate) fn cond_test<T: Numbering>(
    alloc: Global,
    tables: &T,
    cond: &Cond,
) -> Result<Test, NoMemory>
    ensures { IfOk result (λ t. test_tree t ≡ cond_test (T.tables tables.now) (cond_tree cond.now)) }
{
    match cond {
        Cond::True => Ok(Test::True),
        Cond::False => Ok(Test::False),
        Cond::Test(k) => Ok(Test::Prim(*k)),
        Cond::Compare(rel, e, f) => comparison_test(alloc, tables, *rel, e, f),
        Cond::Not(b) => Test::new_not(alloc, cond_test(alloc, tables, b)?),
        Cond::And(b, c) => {
            let left = cond_test(alloc, tables, b)?;
            let right = cond_test(alloc, tables, c)?;
            Test::new_and(alloc, left, right)
        }
        Cond::Or(b, c) => {
            let left = cond_test(alloc, tables, b)?;
            let right = cond_test(alloc, tables, c)?;
            Test::new_or(alloc, left, right)
        }
    }
}
