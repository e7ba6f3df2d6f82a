//! The result of the check of a chain.

/// Why a chain is not a proof: the first reason that applies, in this order.
#[derive(Clone, Copy, PartialEq, Eq)]
pub enum ChainReason {
    /// The first term of the chain is not the left side.
    Start,
    /// The last term of the chain is not the right side.
    End,
    /// The first line that fails, by its number. Lines are numbered from 0 in text order, in which a line precedes
    /// those of its inner chain. The number saturates at `usize::MAX`.
    Step(usize),
}

/// The result of the check of a chain.
#[derive(Clone, Copy, PartialEq, Eq)]
pub enum ChainAnswer {
    /// The chain is a proof.
    Accepted,
    /// The chain is not a proof, for this reason.
    Rejected(ChainReason),
}
