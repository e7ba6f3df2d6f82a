//! Laws of the steps. Each function does nothing: its contract is the law.
ghost use Rattle.optimiser_steps.specs.Laws.{FirstStepIsOne, LogsKeepMeaning};

/// A program in a file has at most one first step, and the step gives one program. So the log of a program is unique:
/// it is the chain of first steps.
pub fn first_step_is_one()
    ensures { FirstStepIsOne }
{}

/// The program at the end of a log has its numbers in range. In a file without variables it relates the same states as
/// the program at the start in each table that satisfies the stated hypotheses. In a file without tests, actions, terms
/// and stated hypotheses it ends in the same stores from each store.
pub fn logs_keep_meaning()
    ensures { LogsKeepMeaning }
{}
