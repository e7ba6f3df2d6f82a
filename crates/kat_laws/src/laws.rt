//! Laws of sameness, of shortest counterexamples and of runs on stores. Each function does nothing: its contract is the
//! law.
ghost use Rattle.kat_laws.specs.Laws.{ModelsAreTables, ShortestAreSmall, SmallStringsDecide, StringsFailOnStores};

/// Both sides denote one relation in every finite table that satisfies the hypotheses exactly when they do in every
/// model that satisfies them whose states are finitely or infinitely many natural numbers and whose tests and actions
/// are decidable relations on them; and exactly when no guarded string refutes the question (Kozen and Smith 1996).
pub fn models_are_tables()
    ensures { ModelsAreTables }
{}

/// A shortest string that refutes a question has fewer moves than there are pairs of sets of terms over the closed
/// sides. Without hypotheses and with guarded sides it has fewer moves than the bound on the pairs of guarded terms.
pub fn shortest_are_small()
    ensures { ShortestAreSmall }
{}

/// Both sides are the same exactly when no string with fewer moves than that refutes the question.
pub fn small_strings_decide()
    ensures { SmallStringsDecide }
{}

/// If a string refutes the question of a triple of a program, and a path of stores spells the string, then the triple
/// fails on these stores: the first store satisfies the precondition, the program ends in the last, and the last does
/// not satisfy the postcondition.
pub fn strings_fail_on_stores()
    ensures { StringsFailOnStores }
{}
