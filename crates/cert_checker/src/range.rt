//! Nodes whose numbers are out of range.
ghost use Rattle.std.specs.Prelude.{ℕ, ◌<◌, MatchOption};
ghost use Rattle.kat_model.specs.Members.{Has};
ghost use Rattle.term_nodes.specs.declared.TestNode.TheVariants.{Prim};
ghost use Rattle.term_nodes.specs.declared.TermNode.TheVariants.{Act};
ghost use Rattle.cert_checker.specs.Ranges.{IsFirstOut};

use certificate::{TermNode, TestNode};

/// Returns the least test node whose primitive test is not below the number of tests.
pub(crate) fn test_out(nodes: &[TestNode], tests: usize) -> Option<usize>
    ensures { MatchOption result ((i : ℕ) → Has nodes.now (Prim i) → i < tests) (λ k. IsFirstOut Prim tests nodes.now k) }
{
    nodes.iter().position(|node| matches!(node, TestNode::Prim(test) if *test >= tests))
}

/// Returns the least term node whose action is not below the number of actions.
pub(crate) fn action_out(nodes: &[TermNode], actions: usize) -> Option<usize>
    ensures { MatchOption result ((i : ℕ) → Has nodes.now (Act i) → i < actions) (λ k. IsFirstOut Act actions nodes.now k) }
{
    nodes.iter().position(|node| matches!(node, TermNode::Act(action) if *action >= actions))
}
