//! Methods called on the items of a text while they are read.
ghost use Rattle.std.specs.Prelude.{length, drop};
ghost use Rattle.text_parser.specs.Lexemes.{lexemes};
ghost use Rattle.text_parser.specs.Parsed.{Makes, Reads, Goes};
ghost use Rattle.text_parser.specs.ScopeParts.{IsIdentifier};
ghost use Rattle.problem_file.specs.Working.Walks.{Does};
ghost use Rattle.gkat_front.specs.FileActions.{FileActions};
ghost use Rattle.gkat_front.specs.Working.Declarations.{declare_by};

use text_parser::{TextFault, Token};

// The kinds of declared names.
#[derive(Clone, Copy)]
pub(crate) enum GkatDeclared {
    Test,
    Action,
}

// What to do with the parts of an item while it is read. The methods are called for the parts in text order. A fault of
// a method ends the reading. `at` is the place of the keyword of the item.
//
// Contracts see the effect of the items so far as `state`, and the methods as `actions`. `memory` is what a `NoMemory`
// of a method implies: `⊥` if no method returns it.
pub(crate) trait GkatItemReading {
    // The value of an expression.
    type Expr: Drop;

    ghost S: { Type 0 };

    ghost V: { Type 0 };

    ghost memory: { Type 0 };

    ghost state: { Self → S };

    ghost expr: { Self.Expr → V };

    ghost actions: { FileActions S V };

    // Reads the expression that begins at `from`. Returns its value and the index after it, or its first fault.
    fn read_expr(&self, toks: &[Token], from: usize) -> Result<(Self::Expr, usize), TextFault>
        ensures value { Reads memory expr (lexemes toks.now) result ((actions).expr (state self.now) (drop from (lexemes toks.now))) }
        ensures goes { Goes from (length toks.now) result };

    // Declares a name.
    fn declare(&mut self, what: GkatDeclared, name: &Token) -> Result<(), TextFault>
        requires { IsIdentifier name.now.text.now }
        ensures { Does memory result (state self.new) (declare_by actions what (state self.old) name.now.at name.now.text.now) };

    // Begins an item `equal`.
    fn begin_equal(&self, at: usize) -> Result<(), TextFault>
        ensures { Makes ⊥ (λ u. u) result ((actions).begin_equal (state self.now) at) };

    // Completes an item `equal` with its two sides.
    fn pose(&mut self, at: usize, left: Self::Expr, right: Self::Expr) -> Result<(), TextFault>
        ensures { Does memory result (state self.new) ((actions).pose (state self.old) at (expr left) (expr right)) };
}
