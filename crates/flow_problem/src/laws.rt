//! Laws of flow problems. Each function does nothing: its contract is the law.
ghost use Rattle.flow_problem.specs.Laws.{SameAgree, ProblemsAreAbout, MarkedAgree, FlowAgrees};

/// A problem is about two graphs if its hypotheses hold of all states under all interpretations and its sides lead from
/// each state to the ends of the runs of the graphs. If its sides denote one relation in each table that satisfies the
/// hypotheses, both graphs return the same under every interpretation, from every state.
pub fn same_sides_agree()
    ensures { SameAgree }
{}

/// The problem of two graphs is about them: each hypothesis, derived from an assignment or a fact between tests, relates
/// no states under any interpretation, and the terms that elimination gives lead from each state to the ends of the runs.
pub fn problems_are_about_graphs()
    ensures { ProblemsAreAbout }
{}

/// If both sides of the problem of two graphs, by places that cut each loop and by live variables, denote one relation in
/// each table that satisfies the hypotheses, both graphs return the same.
pub fn marked_problems_agree()
    ensures { MarkedAgree }
{}

/// If both sides of the problem of two graphs denote one relation in each table that satisfies the hypotheses, both
/// graphs return the same under every interpretation, from every state.
pub fn flow_agrees()
    ensures { FlowAgrees }
{}
