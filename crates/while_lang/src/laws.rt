//! Laws of the definitions. Each function does nothing: its contract is the law.
ghost use Rattle.std.specs.Prelude.{◌≡◌, ℕ, true};
ghost use Rattle.kat_model.specs.Expressions.{CondTree};
ghost use Rattle.kat_model.specs.Stores.{Store};
ghost use Rattle.kat_model.specs.declared.expression.Width.{Width};
ghost use Rattle.kat_model.specs.Guarded.{IsGuarded};
ghost use Rattle.while_lang.specs.Programs.{ProgTree, is_concrete};
ghost use Rattle.while_lang.specs.Runs.{HasOneOutcome};
ghost use Rattle.while_lang.specs.Flows.{FlowTree};
ghost use Rattle.while_lang.specs.Encoding.{encoded};
ghost use Rattle.while_lang.specs.Laws.{LoopsAgain};
ghost use Rattle.while_lang.specs.PrintLaws.{PrintedReadsBack};

/// For each concrete program, store and number of turns, exactly one of these holds, with exactly one store: the
/// program ends, it reaches an `abort` or an `assert` that fails, or it reaches a loop body with no turn left.
pub fn runs_have_one_end()
    ensures { (w : Width) (p : ProgTree) (s : Store) (n : ℕ) → is_concrete p ≡ true → HasOneOutcome w p s n }
{}

/// A loop whose condition holds runs its body and then the loop again; a loop whose condition fails does nothing.
pub fn loops_unfold()
    ensures { (w : Width) (b : CondTree) (p rest : ProgTree) (s : Store) (k : ℕ) (t : Store) → LoopsAgain w b p rest s k t }
{}

/// The term of a flow is guarded, so the bound on pairs of guarded terms applies to programs.
pub fn flows_are_guarded()
    ensures { (f : FlowTree) → IsGuarded (encoded f) }
{}

/// A printed program reads back as the same program with no tokens left, if the text, the sizes of the program and the
/// nesting of the text are within the limits.
pub fn printed_programs_read_back()
    ensures { PrintedReadsBack }
{}
