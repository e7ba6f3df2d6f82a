//! Equality of the trees of expressions and conditions.
ghost use Rattle.std.specs.Prelude.{◌≡◌, ◌↔◌, IsTrue};
ghost use Rattle.kat_model.specs.Expressions.{expr_tree, cond_tree};

use kat_model::{Cond, Expr};

pub(crate) fn same_expr(left: &Expr, right: &Expr) -> bool
    ensures { IsTrue result ↔ (expr_tree left.now ≡ expr_tree right.now) }
{
    match (left, right) {
        (Expr::Num(m), Expr::Num(n)) => m == n,
        (Expr::Var(j), Expr::Var(k)) => j == k,
        (Expr::Add(a, b), Expr::Add(e, f))
        | (Expr::Sub(a, b), Expr::Sub(e, f))
        | (Expr::Mul(a, b), Expr::Mul(e, f)) => same_expr(a, e) && same_expr(b, f),
        _ => false,
    }
}

pub(crate) fn same_cond(left: &Cond, right: &Cond) -> bool
    ensures { IsTrue result ↔ (cond_tree left.now ≡ cond_tree right.now) }
{
    match (left, right) {
        (Cond::True, Cond::True) | (Cond::False, Cond::False) => true,
        (Cond::Test(j), Cond::Test(k)) => j == k,
        (Cond::Compare(rel, a, b), Cond::Compare(other, e, f)) => {
            rel == other && same_expr(a, e) && same_expr(b, f)
        }
        (Cond::Not(b), Cond::Not(c)) => same_cond(b, c),
        (Cond::And(a, b), Cond::And(c, d)) | (Cond::Or(a, b), Cond::Or(c, d)) => {
            same_cond(a, c) && same_cond(b, d)
        }
        _ => false,
    }
}
