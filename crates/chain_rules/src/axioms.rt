//! Instances of the axioms without a premise.
ghost use Rattle.std.specs.Prelude.{◌≡◌, ◌↔◌, IsTrue};
ghost use Rattle.kat_model.specs.Trees.{kat_tree, zero, one, sum, product};
ghost use Rattle.chain_rules.specs.Working.Fits.{FitsAssoc, FitsComm, FitsSeqAssoc, FitsZeroLeft, FitsZeroRight, FitsDistLeft, FitsDistRight, FitsUnfoldLeft, FitsUnfoldRight, Fits};

use crate::chain::Axiom;
use crate::equality::{
    is_left_product, is_left_sum, is_one, is_one_or_product, is_product_of, is_sum_of,
    is_sum_of_products, is_zero, same_term,
};
use kat_model::Kat;

fn fits_assoc_at(x: &Kat, rest: &Kat, right: &Kat) -> bool
    ensures { IsTrue result ↔ FitsAssoc (sum (kat_tree x.now) (kat_tree rest.now)) (kat_tree right.now) }
{
    match rest {
        Kat::Sum(y, z) => is_left_sum(right, x, y, z),
        _ => false,
    }
}

fn fits_assoc(left: &Kat, right: &Kat) -> bool
    ensures { IsTrue result ↔ FitsAssoc (kat_tree left.now) (kat_tree right.now) }
{
    match left {
        Kat::Sum(x, rest) => fits_assoc_at(x, rest, right),
        _ => false,
    }
}

fn fits_comm(left: &Kat, right: &Kat) -> bool
    ensures { IsTrue result ↔ FitsComm (kat_tree left.now) (kat_tree right.now) }
{
    match left {
        Kat::Sum(x, y) => is_sum_of(right, y, x),
        _ => false,
    }
}

fn fits_zero(left: &Kat, right: &Kat) -> bool
    ensures { IsTrue result ↔ (kat_tree left.now ≡ sum (kat_tree right.now) zero) }
{
    match left {
        Kat::Sum(x, y) => same_term(x, right) && is_zero(y),
        _ => false,
    }
}

fn fits_seq_assoc_at(x: &Kat, rest: &Kat, right: &Kat) -> bool
    ensures { IsTrue result ↔ FitsSeqAssoc (product (kat_tree x.now) (kat_tree rest.now)) (kat_tree right.now) }
{
    match rest {
        Kat::Seq(y, z) => is_left_product(right, x, y, z),
        _ => false,
    }
}

fn fits_seq_assoc(left: &Kat, right: &Kat) -> bool
    ensures { IsTrue result ↔ FitsSeqAssoc (kat_tree left.now) (kat_tree right.now) }
{
    match left {
        Kat::Seq(x, rest) => fits_seq_assoc_at(x, rest, right),
        _ => false,
    }
}

fn fits_one_left(left: &Kat, right: &Kat) -> bool
    ensures { IsTrue result ↔ (kat_tree left.now ≡ product one (kat_tree right.now)) }
{
    match left {
        Kat::Seq(x, y) => is_one(x) && same_term(y, right),
        _ => false,
    }
}

fn fits_one_right(left: &Kat, right: &Kat) -> bool
    ensures { IsTrue result ↔ (kat_tree left.now ≡ product (kat_tree right.now) one) }
{
    match left {
        Kat::Seq(x, y) => same_term(x, right) && is_one(y),
        _ => false,
    }
}

fn fits_zero_left(left: &Kat, right: &Kat) -> bool
    ensures { IsTrue result ↔ FitsZeroLeft (kat_tree left.now) (kat_tree right.now) }
{
    match left {
        Kat::Seq(x, _) => is_zero(x) && is_zero(right),
        _ => false,
    }
}

fn fits_zero_right(left: &Kat, right: &Kat) -> bool
    ensures { IsTrue result ↔ FitsZeroRight (kat_tree left.now) (kat_tree right.now) }
{
    match left {
        Kat::Seq(_, y) => is_zero(y) && is_zero(right),
        _ => false,
    }
}

fn fits_dist_left_at(x: &Kat, rest: &Kat, right: &Kat) -> bool
    ensures { IsTrue result ↔ FitsDistLeft (product (kat_tree x.now) (kat_tree rest.now)) (kat_tree right.now) }
{
    match rest {
        Kat::Sum(y, z) => is_sum_of_products(right, x, y, x, z),
        _ => false,
    }
}

fn fits_dist_left(left: &Kat, right: &Kat) -> bool
    ensures { IsTrue result ↔ FitsDistLeft (kat_tree left.now) (kat_tree right.now) }
{
    match left {
        Kat::Seq(x, rest) => fits_dist_left_at(x, rest, right),
        _ => false,
    }
}

fn fits_dist_right_at(rest: &Kat, z: &Kat, right: &Kat) -> bool
    ensures { IsTrue result ↔ FitsDistRight (product (kat_tree rest.now) (kat_tree z.now)) (kat_tree right.now) }
{
    match rest {
        Kat::Sum(x, y) => is_sum_of_products(right, x, z, y, z),
        _ => false,
    }
}

fn fits_dist_right(left: &Kat, right: &Kat) -> bool
    ensures { IsTrue result ↔ FitsDistRight (kat_tree left.now) (kat_tree right.now) }
{
    match left {
        Kat::Seq(rest, z) => fits_dist_right_at(rest, z, right),
        _ => false,
    }
}

fn fits_unfold_left(left: &Kat, right: &Kat) -> bool
    ensures { IsTrue result ↔ FitsUnfoldLeft (kat_tree left.now) (kat_tree right.now) }
{
    match left {
        Kat::Star(x) => is_one_or_product(right, x, left),
        _ => false,
    }
}

fn fits_unfold_right(left: &Kat, right: &Kat) -> bool
    ensures { IsTrue result ↔ FitsUnfoldRight (kat_tree left.now) (kat_tree right.now) }
{
    match left {
        Kat::Star(x) => is_one_or_product(right, left, x),
        _ => false,
    }
}

/// Whether the terms, from left to right, are an instance of the axiom, for axioms without a premise. False for `Bool`
/// and `Hyp`. Matches the form of the left side (`Fits`). The definition has an instance as three terms and the
/// equation over them; lemmas connect both.
pub(crate) fn fits(rule: Axiom, left: &Kat, right: &Kat) -> bool
    ensures { IsTrue result ↔ Fits rule (kat_tree left.now) (kat_tree right.now) }
{
    match rule {
        Axiom::Assoc => fits_assoc(left, right),
        Axiom::Comm => fits_comm(left, right),
        Axiom::Idem => is_sum_of(left, right, right),
        Axiom::Zero => fits_zero(left, right),
        Axiom::SeqAssoc => fits_seq_assoc(left, right),
        Axiom::OneLeft => fits_one_left(left, right),
        Axiom::OneRight => fits_one_right(left, right),
        Axiom::ZeroLeft => fits_zero_left(left, right),
        Axiom::ZeroRight => fits_zero_right(left, right),
        Axiom::DistLeft => fits_dist_left(left, right),
        Axiom::DistRight => fits_dist_right(left, right),
        Axiom::UnfoldLeft => fits_unfold_left(left, right),
        Axiom::UnfoldRight => fits_unfold_right(left, right),
        Axiom::Bool | Axiom::Hyp(_) | Axiom::Lfp | Axiom::Rfp => false,
    }
}
