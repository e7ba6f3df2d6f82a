//! The size and the nesting of a phrase.
ghost use Rattle.std.specs.Prelude.{◌≡◌};
ghost use Rattle.text_parser.specs.Measuring.{limited, deeper, linked, topped, negated, tested, compared_nodes, compare};

use kat_model::{MAX_EXPR_NODES, MAX_OPEN, MAX_TERM_NODES};

/// The size and the nesting of a phrase. Each number is capped at its limit plus one.
#[derive(Clone, Copy)]
pub struct Extent {
    /// The number of nodes of its tree, at most `MAX_TERM_NODES + 1`, and that if an expression in it has more than
    /// `MAX_EXPR_NODES` nodes.
    pub nodes: u64,
    /// The number of nodes of its tree as a test, at most 100,001. Meaningful only if the phrase is a test.
    pub test_nodes: u64,
    /// The maximum number of constructs open at one place, with defined names expanded; at most `MAX_OPEN + 1`.
    pub nesting: usize,
}

pub(crate) fn cut_extent(nodes: u64, test_nodes: u64, nesting: usize) -> Extent
    ensures { result ≡ limited nodes test_nodes nesting }
{
    Extent {
        nodes: nodes.min(MAX_TERM_NODES + 1),
        test_nodes: test_nodes.min(MAX_TERM_NODES + 1),
        nesting: nesting.min(MAX_OPEN + 1),
    }
}

impl Extent {
    pub(crate) fn deepen(self) -> Extent
        ensures { result ≡ deeper self }
    {
        cut_extent(self.nodes, self.test_nodes, self.nesting.saturating_add(1))
    }

    pub(crate) fn link(self, other: Extent) -> Extent
        ensures { result ≡ linked self other }
    {
        cut_extent(
            self.nodes.saturating_add(other.nodes).saturating_add(1),
            self.test_nodes
                .saturating_add(other.test_nodes)
                .saturating_add(1),
            self.nesting.max(other.nesting),
        )
    }

    pub(crate) fn add_node(self) -> Extent
        ensures { result ≡ topped self }
    {
        cut_extent(
            self.nodes.saturating_add(1),
            self.test_nodes.saturating_add(1),
            self.nesting,
        )
    }

    pub(crate) fn negated(self) -> Extent
        ensures { result ≡ negated self }
    {
        cut_extent(
            self.test_nodes.saturating_add(2),
            self.test_nodes.saturating_add(1),
            self.nesting.saturating_add(1),
        )
    }

    pub(crate) fn tested(self) -> Extent
        ensures { result ≡ tested self }
    {
        cut_extent(
            self.nodes.saturating_add(1),
            self.nodes,
            self.nesting.saturating_add(1),
        )
    }

    pub(crate) fn compare(self, other: Extent) -> Extent
        ensures { result ≡ compare self other }
    {
        cut_extent(
            compared_nodes(self.nodes)
                .saturating_add(compared_nodes(other.nodes))
                .saturating_add(1),
            0,
            self.nesting.max(other.nesting),
        )
    }
}

fn compared_nodes(nodes: u64) -> u64
    ensures { result ≡ compared_nodes nodes }
{
    if nodes > MAX_EXPR_NODES {
        return MAX_TERM_NODES + 1;
    }
    nodes
}
