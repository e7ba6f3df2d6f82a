//! Laws of walks. Each function has an empty body; its contract is the law.
ghost use Rattle.kat_model.specs.Problems.{ProblemParts};
ghost use Rattle.walk_up_to.specs.Laws.{MorePairs, CoveredAreCongruent, CongruentAreCovered, WalkGoesOn, NoRedundantAreFew, WalksAreFew, FinishedAreAccepted, FoundAreShortest, ListedHaveTrails, FinishedAreConcise, MembersAreInRange, ConciseAreFew};

/// Sets that are congruent under some pairs are congruent under more.
pub fn more_pairs()
    ensures { MorePairs }
{}

/// Sets between sure terms and open terms that they cover are congruent. So one check suffices for all atoms with the
/// same decided tests.
pub fn covered_are_congruent()
    ensures { CoveredAreCongruent }
{}

/// If all terms of two congruent sets are sure, the check for a cover succeeds. In this case it loses nothing.
pub fn congruent_are_covered()
    ensures { CongruentAreCovered }
{}

/// A walk begins with the pair of the closed sides, lists the pairs to which steps lead, and processes an additional
/// pair.
pub fn walk_goes_on()
    ensures { (q : ProblemParts) → WalkGoesOn q }
{}

/// Pairs without a redundant one are different and finite in number. The bound is smaller if both sides are guarded and
/// there are no hypotheses.
pub fn no_redundant_are_few()
    ensures { NoRedundantAreFew }
{}

/// The pairs of a walk, at any time, have the same bounds.
pub fn walks_are_few()
    ensures { WalksAreFew }
{}

/// If a walk has processed all its pairs, they are accepted up to congruence, so both sides are the same.
pub fn finished_are_accepted()
    ensures { FinishedAreAccepted }
{}

/// A certificate that lists the pairs of a finished walk is concise.
pub fn finished_are_concise()
    ensures { FinishedAreConcise }
{}

/// The terms of the pairs of a walk have only tests and actions of the problem.
pub fn members_are_in_range()
    ensures { MembersAreInRange }
{}

/// The string that a walk finds refutes the problem, and no string with fewer moves does, because a breadth-first walk
/// visits shorter strings first.
pub fn found_are_shortest()
    ensures { FoundAreShortest }
{}

/// Each listed pair has steps that lead to it from the first.
pub fn listed_have_trails()
    ensures { ListedHaveTrails }
{}

/// A concise certificate has few pairs if both sides are guarded and there are no hypotheses.
pub fn concise_are_few()
    ensures { ConciseAreFew }
{}
