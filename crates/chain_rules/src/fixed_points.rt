//! Instances of the two fixed-point axioms, which need a premise.
ghost use Rattle.std.specs.Prelude.{◌≡◌, ◌↔◌, IsTrue, Some};
ghost use Rattle.std.specs.Option.{option_map};
ghost use Rattle.kat_model.specs.Trees.{kat_tree, sum, product, star};
ghost use Rattle.chain_rules.specs.Chains.{equation};
ghost use Rattle.chain_rules.specs.Working.Fits.{FitsLfp, FitsRfp};
ghost use Rattle.chain_rules.specs.Working.LineViews.{equation_of};

use crate::equality::{is_fixed_point_sum, same_term};
use kat_model::Kat;

/// The first and the last term of a chain.
#[derive(Clone, Copy)]
pub(crate) struct ChainEnds<'a> {
    pub(crate) first: &'a Kat,
    pub(crate) last: &'a Kat,
}

// Whether the premise is `(w + x.y) + z = z`.
fn is_premise(premise: Option<ChainEnds>, w: &Kat, x: &Kat, y: &Kat, z: &Kat) -> bool
    ensures { IsTrue result ↔ (option_map equation_of premise.entry ≡ Some (equation (sum (sum (kat_tree w.now) (product (kat_tree x.now) (kat_tree y.now))) (kat_tree z.now)) (kat_tree z.now))) }
{
    match premise {
        Some(ends) => is_fixed_point_sum(ends.first, w, x, y, z) && same_term(ends.last, z),
        None => false,
    }
}

// Checks an instance of `lfp` with the left side `before + r`, where `before` must be `p*.q`.
fn fits_star_product(premise: Option<ChainEnds>, before: &Kat, r: &Kat, right: &Kat) -> bool
    ensures { IsTrue result ↔ FitsLfp (option_map equation_of premise.entry) (sum (kat_tree before.now) (kat_tree r.now)) (kat_tree right.now) }
{
    match before {
        Kat::Seq(s, q) => fits_star_then(premise, s, q, r, right),
        _ => false,
    }
}

fn fits_star_then(premise: Option<ChainEnds>, s: &Kat, q: &Kat, r: &Kat, right: &Kat) -> bool
    ensures { IsTrue result ↔ FitsLfp (option_map equation_of premise.entry) (sum (product (kat_tree s.now) (kat_tree q.now)) (kat_tree r.now)) (kat_tree right.now) }
{
    match s {
        Kat::Star(p) => same_term(right, r) && is_premise(premise, q, p, r, r),
        _ => false,
    }
}

/// Whether the terms, from left to right, are an instance of `lfp` with this premise.
pub(crate) fn fits_lfp(premise: Option<ChainEnds>, left: &Kat, right: &Kat) -> bool
    ensures { IsTrue result ↔ FitsLfp (option_map equation_of premise.entry) (kat_tree left.now) (kat_tree right.now) }
{
    match left {
        Kat::Sum(before, r) => fits_star_product(premise, before, r, right),
        _ => false,
    }
}

// Checks an instance of `rfp` with the left side `before + r`, where `before` must be `q.p*`.
fn fits_product_star(premise: Option<ChainEnds>, before: &Kat, r: &Kat, right: &Kat) -> bool
    ensures { IsTrue result ↔ FitsRfp (option_map equation_of premise.entry) (sum (kat_tree before.now) (kat_tree r.now)) (kat_tree right.now) }
{
    match before {
        Kat::Seq(q, s) => fits_then_star(premise, q, s, r, right),
        _ => false,
    }
}

fn fits_then_star(premise: Option<ChainEnds>, q: &Kat, s: &Kat, r: &Kat, right: &Kat) -> bool
    ensures { IsTrue result ↔ FitsRfp (option_map equation_of premise.entry) (sum (product (kat_tree q.now) (kat_tree s.now)) (kat_tree r.now)) (kat_tree right.now) }
{
    match s {
        Kat::Star(p) => same_term(right, r) && is_premise(premise, q, r, p, r),
        _ => false,
    }
}

/// Whether the terms, from left to right, are an instance of `rfp` with this premise.
pub(crate) fn fits_rfp(premise: Option<ChainEnds>, left: &Kat, right: &Kat) -> bool
    ensures { IsTrue result ↔ FitsRfp (option_map equation_of premise.entry) (kat_tree left.now) (kat_tree right.now) }
{
    match left {
        Kat::Sum(before, r) => fits_product_star(premise, before, r, right),
        _ => false,
    }
}
