//! Defined terms.
ghost use Rattle.std.specs.Prelude.{◌≡◌};
ghost use Rattle.kat_model.specs.Trees.{kat_tree, term_size, test_size, is_test};
ghost use Rattle.kat_model.specs.Problems.{counted};
ghost use Rattle.text_parser.specs.Sizes.{as_test};
ghost use Rattle.text_parser.specs.Measuring.{limited};

use crate::extent::{Extent, cut_extent};
use kat_model::Kat;

// A defined term with the size and nesting of its phrase, and whether it is a test.
#[derive(Drop)]
pub(crate) struct Definition {
    pub(crate) tree: Kat,
    pub(crate) nesting: usize,
    pub(crate) extent: Extent,
    pub(crate) testable: bool,
    pub(crate) ghost measured: { extent ≡ limited (term_size (kat_tree tree)) (test_size (as_test (kat_tree tree))) nesting },
    pub(crate) ghost given: { testable ≡ is_test (kat_tree tree) },
}

// Returns the number of nodes of the term as a test, at most `u64::MAX`.
fn test_size(term: &Kat) -> u64
    ensures { result ≡ counted (test_size (as_test (kat_tree term.now))) }
{
    match term {
        Kat::Zero | Kat::One | Kat::Act(_) | Kat::Star(_) => 1,
        Kat::Test(b) => b.size(),
        Kat::Sum(e, f) | Kat::Seq(e, f) => test_size(e)
            .saturating_add(test_size(f))
            .saturating_add(1),
    }
}

impl Definition {
    ghost use Rattle.text_parser.specs.Definitions.{definition_of};

    // Makes the definition of a term and computes its measures.
    pub(crate) fn new(tree: Kat, nesting: usize) -> Definition
        ensures { definition_of result ≡ record { tree = kat_tree tree; nesting = nesting } }
    {
        let extent = cut_extent(tree.size(), test_size(&tree), nesting);
        let testable = tree.is_test();
        Definition {
            tree,
            nesting,
            extent,
            testable,
        }
    }
}
