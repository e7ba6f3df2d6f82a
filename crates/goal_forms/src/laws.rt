//! The meaning of the sides of a goal. The function does nothing: its contract is the law.
ghost use Rattle.goal_forms.specs.Laws.{GoalsMean};

/// In each table, the sides of `below` denote one relation exactly when the small term relates only what the large term
/// relates. The sides of `triple` denote one relation exactly when the triple holds: the body leads from states in
/// which the first test is true only to states in which the last one is true.
pub fn goals_mean()
    ensures { GoalsMean }
{}
