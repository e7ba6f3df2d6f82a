//! Laws of the definitions. Each function does nothing: its contract is the law.
ghost use Rattle.std.specs.Prelude.{◌≡◌, ◌<◌, ℕ, List, IsTrue, nat_lt};
ghost use Rattle.kat_model.specs.Stores.{modulus};
ghost use Rattle.kat_model.specs.declared.expression.Width.{Width};
ghost use Rattle.flow_model.specs.Sorts.{State};
ghost use Rattle.flow_model.specs.Graphs.{Graph};
ghost use Rattle.flow_model.specs.Interpretations.{Interpretation, biased, is_negative};
ghost use Rattle.flow_model.specs.Runs.{Returns, Sticks};
ghost use Rattle.flow_model.specs.SignedOrder.{signed_less};

/// A run returns at most one list of values, and does not also get stuck.
pub fn runs_are_determined()
    ensures one { (I : Interpretation) (g : Graph) (s : State) (vs ws : List ℕ) → Returns I g s vs → Returns I g s ws → vs ≡ ws }
    ensures never_both { (I : Interpretation) (g : Graph) (s : State) (vs : List ℕ) → Returns I g s vs → Sticks I g s → ⊥ }
{}

/// Moved numbers are ordered as two's complements: a negative number is less than one that is not, and two numbers of
/// one sign are ordered as numbers.
pub fn signed_comparisons()
    ensures { (w : Width) (m n : ℕ) → m < modulus w → n < modulus w → nat_lt (biased w m) (biased w n) ≡ signed_less w m n }
{}
