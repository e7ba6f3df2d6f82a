//! Whether a term depends only on some of the tests.
ghost use Rattle.std.specs.Prelude.{◌≡◌};
ghost use Rattle.kat_model.specs.Trees.{test_tree, kat_tree};
ghost use Rattle.goal_forms.specs.Queried.{names_only, tests_only_from};

use kat_model::{Kat, Test};

// Whether the test names only known primitive tests.
fn names_only(test: &Test, known: &[usize]) -> bool
    ensures { result ≡ names_only known.now (test_tree test.now) }
{
    match test {
        Test::False | Test::True => true,
        Test::Prim(k) => known.contains(k),
        Test::Not(b) => names_only(b, known),
        Test::And(b, c) | Test::Or(b, c) => names_only(b, known) && names_only(c, known),
    }
}

/// Returns whether the tests of the term that follow an action name only known primitive tests. If `late` is true, all
/// its tests must.
pub fn tests_only_from(term: &Kat, known: &[usize], late: bool) -> bool
    ensures { result ≡ tests_only_from known.now late (kat_tree term.now) }
{
    match term {
        Kat::Zero | Kat::One | Kat::Act(_) => true,
        Kat::Test(b) => !late || names_only(b, known),
        Kat::Sum(e, f) => tests_only_from(e, known, late) && tests_only_from(f, known, late),
        Kat::Seq(e, f) => tests_only_from(e, known, late)
            && tests_only_from(f, known, late || e.acts() > 0),
        Kat::Star(e) => tests_only_from(e, known, late),
    }
}
