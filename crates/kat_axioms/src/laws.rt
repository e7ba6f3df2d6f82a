//! The laws of chains, of provable equations and of the algebras in which they hold. Each function does nothing: its
//! contract is the law.
ghost use Rattle.kat_axioms.specs.Laws.{SameHaveChains, SameAcceptAlike, ChainsHoldIn};

use crate::algebras::Interprets;

/// The axioms of Kleene algebra with tests are sound and complete, also under hypotheses of the form `e = 0`: both sides
/// of a problem are the same exactly where there is a chain that is a proof (Kozen 1994; Kozen and Smith 1996; hypotheses:
/// Cohen 1994, Kozen 2000).
pub fn same_have_chains()
    ensures { SameHaveChains }
{}

/// Both sides of a question are the same exactly where its closed sides accept the same guarded strings over its tests
/// and actions. Without hypotheses these are the sides themselves.
pub fn same_accept_alike()
    ensures { SameAcceptAlike }
{}

/// What has a chain holds in every Kleene algebra with tests, under each interpretation by which the hypotheses are 0.
pub fn chains_hold_in_algebras<I: Interprets>()
    ensures { ChainsHoldIn I.interpretation }
{}
