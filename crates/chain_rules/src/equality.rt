//! Equality of the trees of tests and terms, and comparison of terms with trees that are not built.
ghost use Rattle.std.specs.Prelude.{◌≡◌, ◌↔◌, IsTrue};
ghost use Rattle.kat_model.specs.Trees.{test_tree, kat_tree, zero, one, sum, product};

use kat_model::{Kat, Test};

fn same_test(left: &Test, right: &Test) -> bool
    ensures { IsTrue result ↔ (test_tree left.now ≡ test_tree right.now) }
{
    match (left, right) {
        (Test::False, Test::False) | (Test::True, Test::True) => true,
        (Test::Prim(j), Test::Prim(k)) => j == k,
        (Test::Not(b), Test::Not(c)) => same_test(b, c),
        (Test::And(a, b), Test::And(c, d)) => same_test(a, c) && same_test(b, d),
        (Test::Or(a, b), Test::Or(c, d)) => same_test(a, c) && same_test(b, d),
        _ => false,
    }
}

/// Whether the two terms are the same tree.
pub(crate) fn same_term(left: &Kat, right: &Kat) -> bool
    ensures { IsTrue result ↔ (kat_tree left.now ≡ kat_tree right.now) }
{
    match (left, right) {
        (Kat::Zero, Kat::Zero) | (Kat::One, Kat::One) => true,
        (Kat::Test(b), Kat::Test(c)) => same_test(b, c),
        (Kat::Act(a), Kat::Act(b)) => a == b,
        (Kat::Sum(a, b), Kat::Sum(c, d)) => same_term(a, c) && same_term(b, d),
        (Kat::Seq(a, b), Kat::Seq(c, d)) => same_term(a, c) && same_term(b, d),
        (Kat::Star(a), Kat::Star(b)) => same_term(a, b),
        _ => false,
    }
}

pub(crate) fn is_zero(term: &Kat) -> bool
    ensures { IsTrue result ↔ (kat_tree term.now ≡ zero) }
{
    match term {
        Kat::Zero => true,
        _ => false,
    }
}

pub(crate) fn is_one(term: &Kat) -> bool
    ensures { IsTrue result ↔ (kat_tree term.now ≡ one) }
{
    match term {
        Kat::One => true,
        _ => false,
    }
}

/// Whether the term is the sum of the other two.
pub(crate) fn is_sum_of(term: &Kat, left: &Kat, right: &Kat) -> bool
    ensures { IsTrue result ↔ (kat_tree term.now ≡ sum (kat_tree left.now) (kat_tree right.now)) }
{
    match term {
        Kat::Sum(a, b) => same_term(a, left) && same_term(b, right),
        _ => false,
    }
}

/// Whether the term is the product of the other two.
pub(crate) fn is_product_of(term: &Kat, first: &Kat, second: &Kat) -> bool
    ensures { IsTrue result ↔ (kat_tree term.now ≡ product (kat_tree first.now) (kat_tree second.now)) }
{
    match term {
        Kat::Seq(a, b) => same_term(a, first) && same_term(b, second),
        _ => false,
    }
}

/// Whether the term is `(x + y) + z`.
pub(crate) fn is_left_sum(term: &Kat, x: &Kat, y: &Kat, z: &Kat) -> bool
    ensures { IsTrue result ↔ (kat_tree term.now ≡ sum (sum (kat_tree x.now) (kat_tree y.now)) (kat_tree z.now)) }
{
    match term {
        Kat::Sum(a, b) => is_sum_of(a, x, y) && same_term(b, z),
        _ => false,
    }
}

/// Whether the term is `(x.y).z`.
pub(crate) fn is_left_product(term: &Kat, x: &Kat, y: &Kat, z: &Kat) -> bool
    ensures { IsTrue result ↔ (kat_tree term.now ≡ product (product (kat_tree x.now) (kat_tree y.now)) (kat_tree z.now)) }
{
    match term {
        Kat::Seq(a, b) => is_product_of(a, x, y) && same_term(b, z),
        _ => false,
    }
}

/// Whether the term is `w.x + y.z`.
pub(crate) fn is_sum_of_products(term: &Kat, w: &Kat, x: &Kat, y: &Kat, z: &Kat) -> bool
    ensures { IsTrue result ↔ (kat_tree term.now ≡ sum (product (kat_tree w.now) (kat_tree x.now)) (product (kat_tree y.now) (kat_tree z.now))) }
{
    match term {
        Kat::Sum(a, b) => is_product_of(a, w, x) && is_product_of(b, y, z),
        _ => false,
    }
}

/// Whether the term is `1 + x.y`.
pub(crate) fn is_one_or_product(term: &Kat, x: &Kat, y: &Kat) -> bool
    ensures { IsTrue result ↔ (kat_tree term.now ≡ sum one (product (kat_tree x.now) (kat_tree y.now))) }
{
    match term {
        Kat::Sum(a, b) => is_one(a) && is_product_of(b, x, y),
        _ => false,
    }
}

// Whether the term is `x + y.z`.
fn is_sum_with_product(term: &Kat, x: &Kat, y: &Kat, z: &Kat) -> bool
    ensures { IsTrue result ↔ (kat_tree term.now ≡ sum (kat_tree x.now) (product (kat_tree y.now) (kat_tree z.now))) }
{
    match term {
        Kat::Sum(a, b) => same_term(a, x) && is_product_of(b, y, z),
        _ => false,
    }
}

/// Whether the term is `(w + x.y) + z`.
pub(crate) fn is_fixed_point_sum(term: &Kat, w: &Kat, x: &Kat, y: &Kat, z: &Kat) -> bool
    ensures { IsTrue result ↔ (kat_tree term.now ≡ sum (sum (kat_tree w.now) (product (kat_tree x.now) (kat_tree y.now))) (kat_tree z.now)) }
{
    match term {
        Kat::Sum(a, b) => is_sum_with_product(a, w, x, y) && same_term(b, z),
        _ => false,
    }
}
