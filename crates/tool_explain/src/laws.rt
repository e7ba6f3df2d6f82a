//! The laws of places. Each function does nothing: its contract is the law.
ghost use Rattle.tool_explain.specs.Laws.{AcceptedStringsEnd, PlacesAreStatements};

/// A program has ended after all of a string if and only if its term accepts the string.
pub fn accepted_strings_end()
    ensures { AcceptedStringsEnd }
{}

/// The path of a place leads to a statement that can stop a run there, and its position is one of the string.
pub fn places_are_statements()
    ensures { PlacesAreStatements }
{}
