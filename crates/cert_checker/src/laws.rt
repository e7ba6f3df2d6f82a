//! Laws of answers. Each function does nothing: its contract is the law.
ghost use Rattle.cert_checker.specs.Laws.{ShownIsSo, HasOneAnswer};

/// The claim of accepted evidence is true: for a certificate, both sides denote one relation in each table that
/// satisfies the hypotheses; for a string, they do not. Nothing is assumed about the origin of the evidence.
pub fn shown_is_so()
    ensures { ShownIsSo }
{}

/// Evidence has exactly one answer: it is accepted, or it has a first reason, and not both.
pub fn has_one_answer()
    ensures { HasOneAnswer }
{}
