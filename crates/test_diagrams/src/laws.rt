//! A law of ids and functions. The function does nothing: its contract is the law.
ghost use Rattle.test_diagrams.specs.Functions.{DiagramsParts};
ghost use Rattle.test_diagrams.specs.Reduced.{IsReduced};
ghost use Rattle.test_diagrams.specs.Laws.{EqualIdsAreEqualFunctions};

/// Two ids of one collection are equal if and only if their functions are, and different ids have different values at
/// some atom.
pub fn equal_ids_are_equal_functions()
    ensures { (d : DiagramsParts) → IsReduced d → EqualIdsAreEqualFunctions d }
{}
