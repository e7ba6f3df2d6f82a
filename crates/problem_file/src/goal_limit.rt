//! The limit on the number of goals of a text.
use kat_model::MAX_GOALS;
use text_parser::TextFault;

// The limit on the number of goals of a text. One reader reads texts with one goal and texts with up to `MAX_GOALS`. What
// bytes say, their first fault and the law that they have one answer are stated for each limit.
#[derive(Clone, Copy)]
pub(crate) enum GoalLimit {
    // One goal; a second is `TwoGoals`.
    One,
    // `MAX_GOALS` goals; another one is `TooMany`.
    Batch,
}

impl GoalLimit {
    ghost use Rattle.std.specs.Prelude.{◌≡◌};
    ghost use Rattle.problem_file.specs.Files.{most_goals, goal_fault};

    pub(crate) fn most(self) -> usize
        ensures { result ≡ most_goals self }
    {
        match self {
            GoalLimit::One => 1,
            GoalLimit::Batch => MAX_GOALS,
        }
    }

    // Returns the fault of the first goal past the limit, whose keyword is at `at`.
    pub(crate) fn fault(self, at: usize) -> TextFault
        ensures { result ≡ goal_fault self at }
    {
        match self {
            GoalLimit::One => TextFault::TwoGoals(at),
            GoalLimit::Batch => TextFault::TooMany(at),
        }
    }
}
