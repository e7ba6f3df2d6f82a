//! The check whether a term is guarded.
ghost use Rattle.std.specs.Prelude.{◌≡◌, ◌↔◌, IsTrue};
ghost use Rattle.kat_model.specs.Trees.{test_tree, kat_tree, sum, product, star};
ghost use Rattle.kat_model.specs.Pairs.{same_test};
ghost use Rattle.kat_model.specs.Guarded.{IsGuarded};
ghost use Rattle.gkat_front.specs.Working.Guards.{are_opposite, is_guarded};

use kat_model::{Kat, Test};

fn same_test(left: &Test, right: &Test) -> bool
    ensures { result ≡ same_test (test_tree left.now) (test_tree right.now) }
{
    match (left, right) {
        (Test::False, Test::False) | (Test::True, Test::True) => true,
        (Test::Prim(j), Test::Prim(k)) => j == k,
        (Test::Not(b), Test::Not(c)) => same_test(b, c),
        (Test::And(a, b), Test::And(c, d)) => same_test(a, c) && same_test(b, d),
        (Test::Or(a, b), Test::Or(c, d)) => same_test(a, c) && same_test(b, d),
        _ => false,
    }
}

// Whether the terms are a test and its complement.
fn are_opposite(left: &Kat, right: &Kat) -> bool
    ensures { result ≡ are_opposite (kat_tree left.now) (kat_tree right.now) }
{
    match (left, right) {
        (Kat::Test(b), Kat::Test(Test::Not(c))) => same_test(b, c),
        _ => false,
    }
}

// Whether the sum of the two terms is guarded: a test decides between them.
#[cycle(guards)]
fn is_choice(left: &Kat, right: &Kat) -> bool
    ensures { result ≡ is_guarded (sum (kat_tree left.now) (kat_tree right.now)) }
{
    match (left, right) {
        (Kat::Seq(b, e), Kat::Seq(c, f)) => are_opposite(b, c) && is_guarded(e) && is_guarded(f),
        _ => false,
    }
}

// Whether the star of `turn` followed by `end` is a guarded loop: a test decides whether there is another turn.
#[cycle(guards)]
fn is_loop(turn: &Kat, end: &Kat) -> bool
    ensures { result ≡ is_guarded (product (star (kat_tree turn.now)) (kat_tree end.now)) }
{
    match turn {
        Kat::Seq(b, e) => are_opposite(b, end) && is_guarded(e),
        _ => false,
    }
}

#[cycle(guards)]
fn is_guarded(term: &Kat) -> bool
    ensures { result ≡ is_guarded (kat_tree term.now) }
{
    match term {
        Kat::Zero | Kat::One | Kat::Test(_) | Kat::Act(_) => true,
        Kat::Sum(e, f) => is_choice(e, f),
        Kat::Seq(e, f) => is_product(e, f),
        Kat::Star(_) => false,
    }
}

#[cycle(guards)]
fn is_product(first: &Kat, second: &Kat) -> bool
    ensures { result ≡ is_guarded (product (kat_tree first.now) (kat_tree second.now)) }
{
    match first {
        Kat::Star(turn) => is_loop(turn, second),
        _ => is_guarded(first) && is_guarded(second),
    }
}

/// Whether the term is guarded, as the terms of GKAT expressions are (Smolka et al. 2020). Allocates no memory.
pub fn guarded(term: &Kat) -> bool
    ensures { IsTrue result ↔ IsGuarded (kat_tree term.now) }
{
    is_guarded(term)
}
