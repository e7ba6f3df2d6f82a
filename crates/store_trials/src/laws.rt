//! The law of trials. The function does nothing: its contract is the law.
ghost use Rattle.store_trials.specs.Laws.{ShownIsFalse};

/// If runs from a store of a concrete file show that its goal is false, then the goal is false from this store, and so
/// it does not hold for all stores.
pub fn shown_is_false()
    ensures { ShownIsFalse }
{}
