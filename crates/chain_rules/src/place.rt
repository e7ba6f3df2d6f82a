//! Places in terms.
ghost use Rattle.std.specs.Prelude.{◌≡◌, ◌↔◌, IsTrue};
ghost use Rattle.std.specs.Option.{option_map};
ghost use Rattle.kat_model.specs.Trees.{kat_tree};
ghost use Rattle.chain_rules.specs.Places.{subterm, AreEqualOutside};

use crate::equality::same_term;
use kat_model::Kat;

/// Returns the subterm at the place of the path, or `None` if the path leaves the tree.
pub(crate) fn subterm<'a>(term: &'a Kat, path: &[u64]) -> Option<&'a Kat>
    ensures { option_map (λ x. kat_tree x.now) result ≡ subterm path.now (kat_tree term.now) }
{
    let Some((part, rest)) = path.split_first() else {
        return Some(term);
    };
    match term {
        Kat::Sum(e, f) | Kat::Seq(e, f) => match *part {
            0 => subterm(e, rest),
            1 => subterm(f, rest),
            _ => None,
        },
        Kat::Star(e) => match *part {
            0 => subterm(e, rest),
            _ => None,
        },
        Kat::Zero | Kat::One | Kat::Test(_) | Kat::Act(_) => None,
    }
}

/// Whether the path is a place of both terms, and they are equal outside it. Recursion along the path through both
/// terms: no term is built.
pub(crate) fn are_equal_outside(left: &Kat, right: &Kat, path: &[u64]) -> bool
    ensures { IsTrue result ↔ AreEqualOutside path.now (kat_tree left.now) (kat_tree right.now) }
{
    let Some((part, rest)) = path.split_first() else {
        return true;
    };
    match (left, right) {
        (Kat::Sum(a, b), Kat::Sum(c, d)) | (Kat::Seq(a, b), Kat::Seq(c, d)) => match *part {
            0 => are_equal_outside(a, c, rest) && same_term(b, d),
            1 => same_term(a, c) && are_equal_outside(b, d, rest),
            _ => false,
        },
        (Kat::Star(a), Kat::Star(c)) => match *part {
            0 => are_equal_outside(a, c, rest),
            _ => false,
        },
        _ => false,
    }
}
