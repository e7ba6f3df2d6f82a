//! The law of the checker. The function does nothing: its contract is the law.
ghost use Rattle.lrat_checker.specs.Laws.{AcceptedAreUnsatisfiable};

/// If a proof is accepted, no assignment satisfies the clauses: each added clause is true under every assignment that
/// satisfies the clauses before it, and the last is empty.
pub fn accepted_are_unsatisfiable()
    ensures { AcceptedAreUnsatisfiable }
{}
