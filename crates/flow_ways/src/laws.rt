//! Laws of ways. Each function does nothing: its contract is the law.
ghost use Rattle.std.specs.Prelude.{ℕ, Bool, List};
ghost use Rattle.flow_model.specs.declared.sort.Sort.{Sort};
ghost use Rattle.flow_model.specs.Sorts.{State, IsState};
ghost use Rattle.flow_model.specs.Graphs.{Graph};
ghost use Rattle.flow_model.specs.Interpretations.{Interpretation};
ghost use Rattle.flow_ways.specs.Sorted.{IsSortedGraph};
ghost use Rattle.flow_ways.specs.Laws.{AreRuns, EndAlike, ActionsAreRuns};

/// The ways from a block are the runs from it to the next place or to the end: a way whose tests hold in a state ends
/// where the run from this state ends, and each run that reaches a place or returns has such a way.
pub fn ways_are_runs()
    ensures { (I : Interpretation) (g : Graph) (sorts : List Sort) (is_place : ℕ → Bool) (k : ℕ) (s : State) → IsSortedGraph sorts g → IsState sorts s → AreRuns I g sorts is_place k s }
{}

/// Runs from a block, in states that agree on the variables that are live there, reach one place in states that agree
/// on what is live there, return the same values, or end alike.
pub fn runs_go_by_live_variables()
    ensures { EndAlike }
{}

/// The run from a state in which the tests of a way hold reaches the place where the way ends, and there the live
/// variables have the values that the action of the way gives them.
pub fn actions_are_runs()
    ensures { ActionsAreRuns }
{}
