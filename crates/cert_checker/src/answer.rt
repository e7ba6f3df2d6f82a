//! Answers of the checker.
use kat_model::Items;

/// Why evidence is rejected. Pairs, nodes, hypotheses, positions and actions are numbered from 0. An atom has a truth
/// value for each test, test 0 first.
///
/// The reason of a rejected certificate is the first in this order: `TestNode`, `TermNode`, `FirstPair`, and then the
/// reasons of the least failing pair. For this pair, the least atom at which it fails comes first (atoms are compared
/// from test 0, false before true). At this atom `Output` precedes `Missing` and `MissingTo`, which name the least
/// action and, for it, the least atom after the action.
pub enum Reason {
    /// There is no pair, or the first pair is not the two closed sides, each as a set of one term, or its test is false
    /// at an allowed atom.
    FirstPair,
    /// One set of this pair accepts this atom and the other does not. In the style of tests the atom is allowed and
    /// satisfies the pair's test.
    Output(usize, Items<bool>),
    /// At this pair and atom, the listed pairs do not match the sets that this action leads to.
    Missing(usize, Items<bool>, usize),
    /// At this pair and atom, the sets that this action leads to are not matched by the listed pairs whose tests are
    /// true at the last atom. The first atom satisfies the pair's test, and the move is allowed.
    MissingTo(usize, Items<bool>, usize, Items<bool>),
    /// At this position the atom does not assign every test, or the action into it is out of range.
    Shape(usize),
    /// This hypothesis relates the first position to the second.
    HypBroken(usize, usize, usize),
    /// Both sides relate the ends of the string, or neither does.
    EndsAgree,
    /// The primitive test of this test node is out of range.
    TestNode(usize),
    /// The action of this term node is out of range.
    TermNode(usize),
}

// Explicit, so that it is proved once and not at each end of each function that owns one.
impl Drop for Reason {
    fn drop(self) {
        match self {
            Reason::FirstPair => {}
            Reason::Output(_, _items_1) => {}
            Reason::Missing(_, _items_1, _) => {}
            Reason::MissingTo(_, _items_1, _, _items_3) => {}
            Reason::Shape(_) => {}
            Reason::HypBroken(_, _, _) => {}
            Reason::EndsAgree => {}
            Reason::TestNode(_) => {}
            Reason::TermNode(_) => {}
        }
    }
}

/// The verdict of the checker on evidence.
#[derive(Drop)]
pub enum Answer {
    /// The evidence shows its claim: that the sides are the same, or that they are not.
    Accepted,
    /// The evidence does not show its claim, for this first reason.
    Rejected(Reason),
}
