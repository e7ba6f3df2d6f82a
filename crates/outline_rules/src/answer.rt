//! Answers of the rule checker.

/// Why notes do not follow: the first reason that applies, in this order.
#[derive(Clone, Copy)]
pub enum NoteReason {
    /// The least node whose test is not a test of the problem.
    Range(usize),
    /// The number of notes differs from the number of places, which is this.
    Count(usize),
    /// The least target of a check that fails: the place of the note that it establishes, or the number of notes for
    /// the check of the post-condition.
    Step(usize),
}

/// Whether notes follow.
#[derive(Clone, Copy)]
pub enum NoteAnswer {
    Accepted,
    Rejected(NoteReason),
}
