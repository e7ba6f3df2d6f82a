//! Laws of forms. Each function does nothing: its contract is the law.
ghost use Rattle.kat_model.specs.declared.expression.Width.{Width};
ghost use Rattle.flow_model.specs.Sorts.{State};
ghost use Rattle.flow_model.specs.Interpretations.{Interpretation};
ghost use Rattle.flow_forms.specs.Laws.{KeepsValues, EqualFormsAreOne, ComparesValues, ExpressionsHaveForms, SubstitutionKeepsValues};

/// Sums, differences, multiples, products and conversions of forms have the sums, differences, multiples, products and
/// conversions of their values, in every state under every interpretation. So two values that have one form are equal.
pub fn forms_keep_values()
    ensures { (I : Interpretation) (s : State) (w : Width) → KeepsValues I s w }
{}

/// Only equal forms compare as equal.
pub fn equal_forms_are_one()
    ensures { EqualFormsAreOne }
{}

/// The normal form of a comparison holds exactly when the comparison does, in every state under every interpretation.
pub fn comparisons_keep_truth()
    ensures { (I : Interpretation) (s : State) → ComparesValues I s }
{}

/// An expression has the value of its form in each state whose variables have the values of their forms.
pub fn expressions_have_forms()
    ensures { ExpressionsHaveForms }
{}

/// A form with forms in place of its variables has the value that it has in the state whose variables have the values of
/// those forms, under every interpretation. A comparison holds after the substitution exactly when it holds in that state.
pub fn substitution_keeps_values()
    ensures { SubstitutionKeepsValues }
{}
