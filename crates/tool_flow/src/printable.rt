//! Whether a problem and its text are within the limits of a problem file.
ghost use Rattle.std.specs.Prelude.{◌≡◌, nat_le};
ghost use Rattle.std.specs.List.{list_all};
ghost use Rattle.kat_model.specs.Trees.{test_tree, kat_tree};
ghost use Rattle.text_print.specs.Printing.{cond_of, is_star as is_star', cond_nesting, test_nesting, term_nesting};
ghost use Rattle.tool_flow.specs.Working.Nesting.{is_shallow, are_shallow};

use kat_model::{Kat, MAX_OPEN, Problem, Test};

// Returns whether at most `room` constructs are open at one place in the condition.
#[tactic(auto, using(crate::proofs::Nestings::nests, crate::proofs::Nestings::both_nest))]
fn cond_fits(test: &Test, room: usize) -> bool
    ensures { result ≡ nat_le (cond_nesting (cond_of (test_tree test.now))) room }
{
    match test {
        Test::False | Test::True | Test::Prim(_) => true,
        Test::Not(b) => room > 0 && cond_fits(b, room - 1),
        Test::And(b, c) | Test::Or(b, c) => {
            room > 0 && (cond_fits(b, room - 1) && cond_fits(c, room - 1))
        }
    }
}

#[tactic(auto, using(crate::proofs::Nestings::nests))]
fn test_fits(test: &Test, room: usize) -> bool
    ensures { result ≡ nat_le (test_nesting (test_tree test.now)) room }
{
    match test {
        Test::Prim(_) => true,
        _ => room > 0 && cond_fits(test, room - 1),
    }
}

fn is_star(term: &Kat) -> bool
    ensures { result ≡ is_star' (kat_tree term.now) }
{
    matches!(term, Kat::Star(_))
}

#[tactic(auto, using(crate::proofs::Nestings::nests, crate::proofs::Nestings::both_nest))]
fn term_fits(term: &Kat, room: usize) -> bool
    ensures { result ≡ nat_le (term_nesting (kat_tree term.now)) room }
{
    match term {
        Kat::Zero | Kat::One | Kat::Act(_) => true,
        Kat::Test(b) => test_fits(b, room),
        Kat::Sum(e, f) | Kat::Seq(e, f) => {
            room > 0 && (term_fits(e, room - 1) && term_fits(f, room - 1))
        }
        Kat::Star(e) => {
            if is_star(e) {
                room > 0 && term_fits(e, room - 1)
            } else {
                term_fits(e, room)
            }
        }
    }
}

fn is_shallow(term: &Kat) -> bool
    ensures { result ≡ is_shallow (kat_tree term.now) }
{
    term_fits(term, MAX_OPEN)
}

// Returns whether each of the terms is within the limit.
fn are_all_shallow(terms: &[Kat]) -> bool
    ensures { result ≡ list_all (λ term. is_shallow (kat_tree term)) terms.now }
{
    terms.iter().all(|term| is_shallow(term))
}

/// Returns whether no term of the problem has more than `MAX_OPEN` constructs open at one place of its text.
pub(crate) fn are_shallow(problem: &Problem) -> bool
    ensures { result ≡ are_shallow problem.now }
{
    is_shallow(problem.left()) && (is_shallow(problem.right()) && are_all_shallow(problem.hyps()))
}
