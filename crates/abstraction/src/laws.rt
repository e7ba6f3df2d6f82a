//! Laws of abstractions. Each function does nothing: its contract is the law.
ghost use Rattle.std.specs.Prelude.{◌≡◌, Ok};
ghost use Rattle.while_lang.specs.Files.{FileParts};
ghost use Rattle.abstraction.specs.Rounds.{tables_of};
ghost use Rattle.abstraction.specs.Abstracts.{AbstractParts, HasNumbersInRange, abstract_of};
ghost use Rattle.abstraction.specs.ShownTables.{shown_tables};
ghost use Rattle.abstraction.specs.Laws.{DerivedHold, AgreesWhereSame, HoldsByReadings};

/// The rows of the abstraction of a file give the tables with which its goal was read. So a condition or a program of
/// the goal has the same test or flow by these rows as in the problem.
pub fn tables_are_shown()
    ensures { (f : FileParts) (a : AbstractParts) → abstract_of f ≡ Ok a → shown_tables a ≡ tables_of f }
{}

/// No derived hypothesis of an abstraction relates two stores of the file, if tests are the truth of comparisons and
/// actions set variables.
pub fn derived_hypotheses_hold()
    ensures { (f : FileParts) (a : AbstractParts) → HasNumbersInRange f → abstract_of f ≡ Ok a → DerivedHold f a }
{}

/// If both sides of the problem of a concrete file denote one relation in each table that satisfies the hypotheses, the
/// goal holds for all stores of the file: both programs end in the same stores from each store, or the triple holds for
/// every run that ends.
pub fn same_sides_agree()
    ensures { (f : FileParts) (a : AbstractParts) → HasNumbersInRange f → abstract_of f ≡ Ok a → AgreesWhereSame f a }
{}

/// The same holds of every file, also with declared tests and actions, terms and stated hypotheses: if both sides denote
/// one relation in each table that satisfies the hypotheses, the goal holds for all stores of the file, whatever
/// predicates and relations on stores the declared tests and actions are, as long as they keep the stated hypotheses.
pub fn goals_hold_by_readings()
    ensures { (f : FileParts) (a : AbstractParts) → HasNumbersInRange f → abstract_of f ≡ Ok a → HoldsByReadings f a }
{}
