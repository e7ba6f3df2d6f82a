//! Laws of tables of derivatives. Each function does nothing: its contract is the law.
ghost use Rattle.partial_derivs.specs.declared.derivatives.Derivatives.{Derivatives};
ghost use Rattle.partial_derivs.specs.Laws.{StaysRight};

/// A table of derivatives stays correct if old ids keep their trees and functions.
pub fn derivatives_stay_right()
    ensures { (table : Derivatives) → StaysRight table }
{}
