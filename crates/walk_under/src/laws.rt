//! Laws of walks under tests. Each function has an empty body; its contract is the law.
ghost use Rattle.std.specs.Prelude.{List};
ghost use Rattle.kat_model.specs.Trees.{Term};
ghost use Rattle.kat_model.specs.Problems.{ProblemParts};
ghost use Rattle.walk_under.specs.Laws.{TestedWalkGoesOn, TestedWalksAreFew, EndedWalksAreAccepted, MergedPairsAreFew};

/// A walk begins with the pair of the closed sides and processes one pair after another.
pub fn walk_goes_on()
    ensures { (shorts : List Term) (q : ProblemParts) → TestedWalkGoesOn shorts q }
{}

/// A walk never lists a pair of sets twice at the same atom, and so terminates.
pub fn walks_are_few()
    ensures { TestedWalksAreFew }
{}

/// If a walk has processed all pairs, they are a bisimulation under tests once those with the same sets are merged.
pub fn ended_walks_are_accepted()
    ensures { EndedWalksAreAccepted }
{}

/// The number of merged pairs of a walk is at most the number of pairs of sets over both closed sides, with a smaller
/// bound if both closed sides are guarded.
pub fn merged_pairs_are_few()
    ensures { MergedPairsAreFew }
{}
