//! Interpretations in Kleene algebras with tests, as an argument of laws.
use std::marker::Brand;

/// An interpretation in a Kleene algebra with tests, of which a law speaks. A type of this trait only names it.
///
/// The elements of the algebra are a type of the lowest universe, as contracts require. For algebras of any size, such as
/// that of all relations on a set of states, the law is the theorem `chains_hold` of `proofs/Validity.antt`.
pub trait Interprets {
    ghost use Rattle.kat_axioms.specs.Meanings.{Interpretation};

    ghost interpretation: { Interpretation {0} };
}

/// A proof may pick any interpretation at a call that passes `Brand`. Without a pick it is that of the truth values in
/// which each action and each test is 0.
impl Interprets for Brand {
    ghost use Rattle.kat_axioms.specs.TruthValues.{all_false};

    ghost interpretation = { all_false };
}
