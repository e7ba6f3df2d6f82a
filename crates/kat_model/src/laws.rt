//! Laws of the definitions. Each function does nothing: its contract is the law.
ghost use Rattle.std.specs.Prelude.{ℕ, List};
ghost use Rattle.kat_model.specs.Trees.{Term};
ghost use Rattle.kat_model.specs.Steps.{Atom};
ghost use Rattle.kat_model.specs.Strings.{Move, AreMoves};
ghost use Rattle.kat_model.specs.Relations.{Table};
ghost use Rattle.kat_model.specs.Pairs.{SetPair};
ghost use Rattle.kat_model.specs.TestedPairs.{TestedPair};
ghost use Rattle.kat_model.specs.Problems.{ProblemParts};
ghost use Rattle.kat_model.specs.Guarded.{IsGuarded};
ghost use Rattle.kat_model.specs.Laws.{AcceptsByForm, UniversalAccepts, RelatesBySpelling, ListsRelate, AcceptedAreSame, AcceptedUnderTestsAreSame, UntestedAreAccepted, DegreeBoundsMoves, ShortAreKept, DifferWhereAllowed, ReachIsClosed, StaysGuarded, PairsAreBounded, TestedPairsAreBounded, FaultlessAreProblems};

/// The strings that a term accepts, by its form: the language of a sum is the union of two languages, that of a product
/// their concatenation, and that of a star the concatenations of any number of its strings.
pub fn accepts_by_form()
    ensures { (atom : Atom) (ms : List Move) → AcceptsByForm atom ms }
{}

/// The universal term accepts every string over its actions.
pub fn universal_accepts()
    ensures { (tests actions : ℕ) (atom : Atom) (ms : List Move) → AreMoves tests actions ms → UniversalAccepts tests actions atom ms }
{}

/// A term relates two states of a table exactly when it accepts what some path between them spells.
pub fn relates_by_spelling()
    ensures { RelatesBySpelling }
{}

/// In a table, the balanced product of a list of terms relates two states exactly when its members relate them in turn,
/// over a chain of states in between; the balanced sum, exactly when some member relates them.
pub fn product_relates_in_turn()
    ensures { (t : Table) (es : List Term) (i j : ℕ) → ListsRelate t es i j }
{}

/// Pairs of sets that begin with the closed sides and are a bisimulation, plain or up to congruence, show
/// that both sides denote one relation in each table that keeps the hypotheses.
pub fn accepted_are_same()
    ensures { AcceptedAreSame }
{}

/// The same holds for pairs under tests, which are required only at the atoms of their tests and over allowed moves. So
/// hypotheses of degree at most 1 need not be eliminated, but may be.
pub fn accepted_under_tests_are_same()
    ensures { (q : ProblemParts) (pairs : List TestedPair) → AcceptedUnderTestsAreSame q pairs }
{}

/// Pairs without tests are accepted up to congruence exactly when they are accepted under tests that are true
/// everywhere, with no hypothesis counted as short.
pub fn untested_are_accepted()
    ensures { UntestedAreAccepted }
{}

/// The strings of a term have no more moves than its degree.
pub fn degree_bounds_moves()
    ensures { (e : Term) (atom : Atom) (ms : List Move) → DegreeBoundsMoves e atom ms }
{}

/// A table keeps short hypotheses exactly when its atoms and moves are allowed.
pub fn short_are_kept()
    ensures { ShortAreKept }
{}

/// The closed sides differ on a string exactly when it is allowed and the closed sides with only the long hypotheses
/// differ on it.
pub fn differ_where_allowed()
    ensures { DifferWhereAllowed }
{}

/// The reach of a term has one member for each occurrence of an action, and steps do not leave it.
pub fn reach_is_closed()
    ensures { (e : Term) → ReachIsClosed e }
{}

/// A guarded term has at most one step under each atom, and so do all terms that its steps lead to.
pub fn guarded_has_one_step()
    ensures { (e : Term) → IsGuarded e → StaysGuarded e }
{}

/// The number of different pairs of sets over two terms is bounded.
pub fn pairs_are_bounded()
    ensures { (l : Term) (r : Term) (pairs : List SetPair) → PairsAreBounded l r pairs }
{}

/// The same bounds hold for pairs under tests if no two of them have the same sets.
pub fn tested_pairs_are_bounded()
    ensures { (l : Term) (r : Term) (pairs : List TestedPair) → TestedPairsAreBounded l r pairs }
{}

/// A question has no fault exactly when it is within the limits of a problem.
pub fn faultless_are_problems()
    ensures { FaultlessAreProblems }
{}
