//! Laws of the definitions. Each function does nothing: its contract is the law.
ghost use Rattle.std.specs.Prelude.{◌≡◌, ◌⊎◌, ℕ, List, [], ◌∷◌};
ghost use Rattle.text_parser.specs.declared.fault.TextFault.{TextFault};
ghost use Rattle.flow_syntax.specs.declared.rule.Mark.{Mark};
ghost use Rattle.flow_syntax.specs.declared.rule.Step.{Step};
ghost use Rattle.flow_syntax.specs.Rules.{RuleParts};
ghost use Rattle.flow_syntax.specs.Derivations.{Derives, IsLeftmost, IsFirstFault};
ghost use Rattle.flow_syntax.specs.declared.rule.Part.TheVariants.{Phrase};
ghost use Rattle.flow_syntax.specs.Weights.{AreLight};

/// The moves of the reader give tokens exactly one derivation from a phrase or exactly one first fault, never both.
pub fn one_derivation()
    ensures steps { (rules : List RuleParts) (n : ℕ) (ms : List Mark) (end : ℕ) (a b : List Step) → Derives rules n ms end a → Derives rules n ms end b → a ≡ b }
    ensures faults { (rules : List RuleParts) (n : ℕ) (ms : List Mark) (end : ℕ) (a b : TextFault) → IsFirstFault rules n ms end a → IsFirstFault rules n ms end b → a ≡ b }
    ensures either { (rules : List RuleParts) (n : ℕ) (ms : List Mark) (end : ℕ) (a : List Step) (b : TextFault) → Derives rules n ms end a → IsFirstFault rules n ms end b → ⊥ }
    ensures some { (weights : List ℕ) (rules : List RuleParts) (n : ℕ) (ms : List Mark) (end : ℕ) → AreLight weights rules → ((a : List Step) × Derives rules n ms end a) ⊎ ((b : TextFault) × IsFirstFault rules n ms end b) }
{}

/// A derivation that the reader finds is one of the context-free grammar, whose rules apply wherever their phrase is.
pub fn derivations_are_leftmost()
    ensures { (rules : List RuleParts) (n : ℕ) (ms : List Mark) (end : ℕ) (steps : List Step) → Derives rules n ms end steps → IsLeftmost rules (Phrase n ∷ []) steps ms }
{}
