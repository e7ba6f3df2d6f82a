//! Laws of outlines. Each function does nothing: its contract is the law.
ghost use Rattle.outline_rules.specs.Laws.{FollowsIsSame, ReasonsAreAgainst};

/// If the sides of a problem are those of the triple of a task, notes that follow show that both sides denote the same
/// relation in each table that keeps the hypotheses, whatever the origin of the notes (Hoare 1969; Kozen 2000).
pub fn follows_is_same()
    ensures { FollowsIsSame }
{}

/// Notes with a reason against them do not follow.
pub fn reasons_are_against()
    ensures { ReasonsAreAgainst }
{}
