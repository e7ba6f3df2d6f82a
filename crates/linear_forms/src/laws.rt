//! Laws of forms. Each function does nothing: its contract is the law.
ghost use Rattle.std.specs.Prelude.{ℕ, ◌<◌};
ghost use Rattle.kat_model.specs.Stores.{Store};
ghost use Rattle.linear_forms.specs.Forms.{FormTree};
ghost use Rattle.linear_forms.specs.NormalForms.{IsForm};
ghost use Rattle.linear_forms.specs.Laws.{KeepsValues, AreOrdered, GoByCoefficients, HasOneSign, StaySettled};

/// Sums, differences, multiples and products of forms have the sums, differences, multiples and products of their
/// values. A difference is 0 exactly when both values are equal, and if it is a constant, the values differ by this
/// constant. A canonical form is 0 exactly when the form is.
pub fn forms_keep_values()
    ensures { (m : ℕ) (s : Store) → 1 < m → KeepsValues m s }
{}

/// Monomials and forms are totally ordered, and only equal ones compare as equal.
pub fn forms_are_ordered()
    ensures { AreOrdered }
{}

/// Sums and multiples of forms are computed on their coefficients and constants. Two forms with the same coefficients
/// and constant are the same, so the coefficients and the constant determine the form.
pub fn forms_go_by_coefficients()
    ensures { (m : ℕ) → 1 < m → GoByCoefficients m }
{}

/// A form and its negative have the same canonical form, which has the lesser list of coefficients. So a form is
/// compared with 0 by the same comparison as its negative.
pub fn forms_have_one_sign()
    ensures { (m : ℕ) (f : FormTree) → 1 < m → IsForm m f → HasOneSign m f }
{}

/// The normal forms of comparisons are their own normal forms, and substitution for a variable that does not occur in a
/// comparison leaves it unchanged.
pub fn comparisons_stay_settled()
    ensures { (m : ℕ) → 1 < m → StaySettled m }
{}
