//! Answers of the checker.

/// Why a line of a proof is wrong: the first reason that applies, in this order; among reasons of hints, that of the
/// first hint.
#[derive(Clone, Copy, PartialEq, Eq)]
pub enum Reason {
    /// The id of an added clause is not greater than the ids of all clauses before.
    IdNotIncreasing,
    /// No clause before had the id of this hint.
    UnknownHint(u64),
    /// The clause of this hint was deleted.
    DeletedHint(u64),
    /// At least two literals of the clause of this hint are not false.
    HintNotUnit(u64),
    /// The hints lead to no conflict.
    NoConflict,
    /// The hints lead to no conflict, and hints for resolvents follow: proofs by resolvents (RAT) are not supported.
    Resolvents,
    /// The last clause that the proof adds is not empty, or it adds none.
    NoEmptyClause,
}

/// The verdict of the checker on a proof.
#[derive(Clone, Copy, PartialEq, Eq)]
pub enum Answer {
    /// The proof shows that no assignment satisfies the clauses.
    Accepted,
    /// The first line that is wrong, and why. Lines are numbered from 1. The line of `NoEmptyClause` is the last one; 0
    /// if there is none.
    Rejected(usize, Reason),
}
