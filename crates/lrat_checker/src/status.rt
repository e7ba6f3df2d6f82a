//! The status of a clause.
ghost use Rattle.std.specs.Prelude.{◌≡◌, ◌↔◌, ◌∷◌, ◌++◌, [], List, IsTrue};
ghost use Rattle.lrat_checker.specs.declared.literal.Literal.{Literal as LiteralParts};
ghost use Rattle.lrat_checker.specs.Working.Steps.{IsStatus};

use crate::falses::Falses;
use crate::literal::{Clause, Literal};

/// What a clause is when some literals are false.
#[derive(Clone, Copy)]
pub(crate) enum Status {
    /// All literals are false.
    AllFalse,
    /// All literals are false except this one.
    OneOpen(Literal),
    /// At least two literals are not false.
    TwoOpen,
}

fn is_same(left: Literal, right: Literal) -> bool
    ensures { IsTrue result ↔ (left ≡ right) }
{
    left == right
}

// Returns the status with an additional literal.
fn with_literal(falses: &Falses, status: Status, literal: Literal) -> Status
    ensures { (done : List LiteralParts) → IsStatus falses.now done status → IsStatus falses.now (done ++ literal ∷ []) result }
{
    if falses.has(literal) {
        return status;
    }
    match status {
        Status::AllFalse => Status::OneOpen(literal),
        Status::OneOpen(first) => {
            if is_same(first, literal) {
                return status;
            }
            Status::TwoOpen
        }
        Status::TwoOpen => status,
    }
}

/// Returns the status of a clause.
pub(crate) fn status_of(falses: &Falses, clause: &Clause) -> Status
    ensures { IsStatus falses.now clause.now result }
{
    let mut status = Status::AllFalse;
    for literal in &clause.literals {
        status = with_literal(falses, status, *literal);
    }
    status
}
