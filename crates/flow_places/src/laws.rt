//! Laws of places, of live variables and of elimination. Each function does nothing: its contract is the law.
ghost use Rattle.flow_places.specs.Laws.{PlacesCutRuns, ReachedExactly, UnmarkedAreCut, LiveExactly};
ghost use Rattle.flow_places.specs.Rows.{RowsAreEliminated};

/// Where each loop that is reached has a place, a run from a place reaches a place, returns or gets stuck within
/// the number of blocks of the graph.
pub fn places_cut_runs()
    ensures { PlacesCutRuns }
{}

/// The depth-first walk from the entry leaves exactly the blocks to which jumps lead from the entry.
pub fn walks_reach_blocks()
    ensures { ReachedExactly }
{}

/// The targets of back edges cut every loop: where no block that is reached is marked, no loop is left.
pub fn back_edges_cut_loops()
    ensures { UnmarkedAreCut }
{}

/// The test of liveness is true exactly on the least sets of the equations of liveness.
pub fn live_sets_are_least()
    ensures { LiveExactly }
{}

/// The elimination of places in rows, from the last place to the first, gives the term that elimination in their matrix
/// gives.
pub fn rows_are_eliminated()
    ensures { RowsAreEliminated }
{}
