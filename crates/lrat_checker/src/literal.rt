//! Literals and clauses.
ghost use Rattle.std.specs.Prelude.{◌≡◌};
ghost use Rattle.lrat_checker.specs.Literals.{opposite};

use std::marker::Model;

/// The greatest number of a variable, 2^31 - 1: the greatest that a DIMACS text has by custom.
pub const MAX_VARIABLE: u32 = 2_147_483_647;

/// A variable, or its negation. Variables are numbered from 1.
#[derive(Clone, Copy, PartialEq, Eq)]
pub struct Literal {
    /// The number of the variable.
    pub variable: u32,
    /// Whether the literal is the variable itself, and not its negation.
    pub positive: bool,
}

impl Literal {
    /// Returns the literal that is true where this one is false.
    pub fn opposite(self) -> Literal
        ensures { result ≡ opposite self }
    {
        Literal {
            variable: self.variable,
            positive: !self.positive,
        }
    }
}

/// A clause: true where at least one of its literals is true. The order and repetitions of literals have no meaning.
#[derive(Drop)]
pub struct Clause {
    pub literals: Vec<Literal>,
}

impl Model for Clause {
    ghost use Rattle.std.specs.Prelude.{List};
    ghost use Rattle.lrat_checker.specs.declared.literal.Literal.{Literal};

    ghost Value = { List Literal };

    ghost view = { λ c. c.literals.items };
}
