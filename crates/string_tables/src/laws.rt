//! Laws of strings and their tables. Each function does nothing: its contract is the law.
ghost use Rattle.string_tables.specs.Laws.{RelatesByParts, RefutesByClosed, RefutedAreNotSame, HasOneFinding};

/// In the table of a string a term relates one position to another exactly when it accepts the part of the string
/// between them.
pub fn relates_by_parts()
    ensures { RelatesByParts }
{}

/// A string refutes a problem exactly when it fits and exactly one closed side accepts it: elimination of hypotheses,
/// in both directions.
pub fn refutes_by_closed()
    ensures { RefutesByClosed }
{}

/// The sides of a problem that a string refutes are not the same: the string's table shows it.
pub fn refuted_are_not_same()
    ensures { RefutedAreNotSame }
{}

/// A string has only one finding.
pub fn has_one_finding()
    ensures { HasOneFinding }
{}
