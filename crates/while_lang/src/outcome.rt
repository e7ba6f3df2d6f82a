//! Outcomes of runs.

/// How a run ends.
#[derive(Clone, Copy, PartialEq, Eq)]
pub enum Outcome {
    /// The run ended after the last statement.
    Done,
    /// The run reached an `abort`, or an `assert` whose condition fails.
    Stuck,
    /// The run reached a loop body that it must enter, with no turn left.
    More,
}
