//! Simple hypotheses, each a test or one action between tests.
ghost use Rattle.std.specs.Prelude.{◌≡◌, not, position, IfSome, IfNone};
ghost use Rattle.kat_model.specs.Trees.{kat_tree};
ghost use Rattle.goal_forms.specs.TestTerms.{AreSimple, IsNotSimple};
ghost use Rattle.goal_forms.specs.HypothesisForms.{is_step, is_simple};

use kat_model::{Kat, Problem};

// Whether the factors of a term are tests and exactly one action.
fn is_step(term: &Kat) -> bool
    ensures { result ≡ is_step (kat_tree term.now) }
{
    match term {
        Kat::Act(_) => true,
        Kat::Seq(e, f) => (e.is_test() && is_step(f)) || (is_step(e) && f.is_test()),
        Kat::Zero | Kat::One | Kat::Test(_) | Kat::Sum(_, _) | Kat::Star(_) => false,
    }
}

// Tries the whole term as a test first, then its factors. So a sum of tests is simple, and `1*`, which has a star, is
// not.
fn is_simple(term: &Kat) -> bool
    ensures { result ≡ is_simple (kat_tree term.now) }
{
    term.is_test() || is_step(term)
}

/// Returns the index of the first hypothesis of the problem that is not simple, `None` if all are simple. A simple
/// hypothesis is a test, which has no actions and no stars, or a product of tests and exactly one action. Allocates
/// nothing.
pub fn not_simple(problem: &Problem) -> Option<usize>
    ensures least { IfSome result (IsNotSimple problem.now.hyps) }
    ensures none { IfNone result (AreSimple problem.now.hyps) }
{
    first_not_simple(problem.hyps())
}

fn first_not_simple(hyps: &[Kat]) -> Option<usize>
    ensures { result ≡ position (λ h. not (is_simple (kat_tree h))) hyps.now }
{
    hyps.iter().position(|hyp| !is_simple(hyp))
}
