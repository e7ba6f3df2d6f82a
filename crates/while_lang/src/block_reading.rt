//! The semantic actions of the block parser.
ghost use Rattle.std.specs.Prelude.{◌≡◌, length, drop, Ok};
ghost use Rattle.text_parser.specs.Lexemes.{lexemes};
ghost use Rattle.text_parser.specs.Parsed.{Makes, Reads, Goes};
ghost use Rattle.while_lang.specs.BlockActions.{BlockActions};
ghost use Rattle.while_lang.specs.Blocks.{cond_by, expr_by};

use text_parser::{TextFault, Token};

// The semantic actions of the block parser. It calls the methods for the parts of a block in text order; each method on
// statements appends to the statements of the block so far. A part that a method rejects ends the parse with that
// fault. Places are in bytes of the text.
//
// Contracts describe results through `expr`, `cond` and `stmts`, and the methods through `actions`. `memory` is what
// holds when a method returns `NoMemory`: `⊥` if none does.
pub(crate) trait BlockReading {
    // The result for an expression.
    type Expr: Drop;
    // The result for a condition.
    type Cond: Drop;
    // The result for the statements of a block so far.
    type Stmts: Drop;

    ghost E: { Type 0 };

    ghost B: { Type 0 };

    ghost L: { Type 0 };

    ghost T: { Type 0 };

    ghost M: { Type 0 };

    ghost S: { Type 0 };

    ghost memory: { Type 0 };

    ghost expr: { Self.Expr → E };

    ghost cond: { Self.Cond → B };

    ghost stmts: { Self.Stmts → S };

    ghost actions: { Self → BlockActions E B L T M S };

    // Reads the expression that begins at `from`, with `depth` open constructs around it. Returns its result and the
    // index after it.
    fn read_expr(
        &self,
        toks: &[Token],
        from: usize,
        depth: usize,
    ) -> Result<(Self::Expr, usize), TextFault>
        ensures value { Reads memory expr (lexemes toks.now) result (expr_by (actions self.now) depth (drop from (lexemes toks.now))) }
        ensures goes { Goes from (length toks.now) result };

    // Reads the condition that begins at `from`, which may have comparisons.
    fn read_cond(
        &self,
        toks: &[Token],
        from: usize,
        depth: usize,
    ) -> Result<(Self::Cond, usize), TextFault>
        ensures value { Reads memory cond (lexemes toks.now) result (cond_by (actions self.now) depth (drop from (lexemes toks.now))) }
        ensures goes { Goes from (length toks.now) result };

    // Makes an empty list of statements.
    fn none(&self) -> Self::Stmts
        ensures { stmts result ≡ (actions self.now).none };

    // Appends a `skip`.
    fn skip(&self, list: &mut Self::Stmts) -> Result<(), TextFault>
        ensures { Makes memory (λ u. stmts list.new) result (Ok ((actions self.now).skip (stmts list.old))) };

    // Appends an `abort`.
    fn abort(&self, list: &mut Self::Stmts) -> Result<(), TextFault>
        ensures { Makes memory (λ u. stmts list.new) result (Ok ((actions self.now).abort (stmts list.old))) };

    // Appends an `assert`.
    fn assert(&self, list: &mut Self::Stmts, condition: Self::Cond) -> Result<(), TextFault>
        ensures { Makes memory (λ u. stmts list.new) result (Ok ((actions self.now).assert (stmts list.old) (cond condition))) };

    // Appends the statements of a name, with `depth` open constructs around it.
    fn named(
        &self,
        depth: usize,
        at: usize,
        name: &str,
        list: &mut Self::Stmts,
    ) -> Result<(), TextFault>
        ensures { Makes memory (λ u. stmts list.new) result ((actions self.now).named depth at name.now (stmts list.old)) };

    // Checks that a name is allowed before `:=`.
    fn check_target(&self, at: usize, name: &str) -> Result<(), TextFault>
        ensures { Makes memory (λ u. u) result ((actions self.now).target at name.now) };

    // Appends an assignment to the variable of that name.
    fn assign(&self, list: &mut Self::Stmts, name: &str, value: Self::Expr) -> Result<(), TextFault>
        ensures { Makes memory (λ u. stmts list.new) result (Ok ((actions self.now).assign (stmts list.old) name.now (expr value))) };

    // Appends an `if`.
    fn branch(
        &self,
        list: &mut Self::Stmts,
        condition: Self::Cond,
        first: Self::Stmts,
        second: Self::Stmts,
    ) -> Result<(), TextFault>
        ensures { Makes memory (λ u. stmts list.new) result (Ok ((actions self.now).branch (stmts list.old) (cond condition) (stmts first) (stmts second))) };

    // Appends a `while`.
    fn turn(
        &self,
        list: &mut Self::Stmts,
        condition: Self::Cond,
        body: Self::Stmts,
    ) -> Result<(), TextFault>
        ensures { Makes memory (λ u. stmts list.new) result (Ok ((actions self.now).turn (stmts list.old) (cond condition) (stmts body))) };

    // Encloses the statements of a block in braces.
    fn braced(&self, list: Self::Stmts) -> Self::Stmts
        ensures { stmts result ≡ (actions self.now).braced (stmts list) };

    // Makes a second block from the `if` statement after `else`.
    fn chained(&self, list: Self::Stmts) -> Self::Stmts
        ensures { stmts result ≡ (actions self.now).chained (stmts list) };
}
