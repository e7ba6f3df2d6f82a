//! The semantic actions of the parser.
ghost use Rattle.std.specs.Prelude.{◌≡◌, ℕ, Ok, false};
ghost use Rattle.text_parser.specs.Parsed.{Makes};
ghost use Rattle.text_parser.specs.Ended.{with_end};
ghost use Rattle.text_parser.specs.Actions.{Actions, context, enter, enter_not};

use crate::fault::TextFault;
use kat_model::{MAX_OPEN, Rel};

/// An operation on numbers. A list of operations groups to the left.
#[derive(Clone, Copy)]
pub enum Operator {
    /// `+`
    Add,
    /// `-`
    Subtract,
    /// `*`
    Multiply,
}

/// The context of a place in the text.
#[derive(Clone, Copy)]
pub struct Context {
    /// The number of open constructs: each unclosed `(`, `[` or `{`, and each `!` whose operand is being read.
    pub depth: usize,
    /// Whether the place is in the operand of a `!`.
    pub negated: bool,
    /// Whether comparisons are allowed here. The parser ignores this; actions may use it.
    pub compares: bool,
}

impl Context {
    /// Returns the context outside of every `!`, with `depth` open constructs.
    pub fn outermost(depth: usize, compares: bool) -> Context
        ensures { result ≡ context depth false compares }
    {
        Context {
            depth,
            negated: false,
            compares,
        }
    }

    /// Returns the context inside a parenthesis or bracket that opens at place `at`. Fails with `TooDeep` at that place
    /// if and only if [`MAX_OPEN`] or more constructs are open already.
    pub fn enter(self, at: usize) -> Result<Context, TextFault>
        ensures { result ≡ enter self at }
    {
        if self.depth >= MAX_OPEN {
            return Err(TextFault::TooDeep(at));
        }
        Ok(Context {
            depth: self.depth + 1,
            negated: self.negated,
            compares: self.compares,
        })
    }

    /// Returns the context of the operand of a `!` at place `at`. Fails like [`Context::enter`].
    pub fn enter_not(self, at: usize) -> Result<Context, TextFault>
        ensures { result ≡ enter_not self at }
    {
        let inside = self.enter(at)?;
        Ok(Context {
            negated: true,
            ..inside
        })
    }
}

/// Returns what an action made, with the index after its phrase, or the fault of the action.
pub fn with_end<T: Drop>(made: Result<T, TextFault>, end: usize) -> Result<(T, usize), TextFault>
    ensures { result ≡ with_end end made }
{
    Ok((made?, end))
}

/// The semantic actions of the parser. It calls the methods for the parts of a phrase in text order, each with the
/// results for its inner parts. A part that a method rejects ends the parse with that fault; only numbers, names and
/// stars can be rejected. Places are in bytes of the text.
///
/// Contracts describe results through `expr`, `cond`, `conds`, `term` and `terms`, and the methods through `actions`.
/// `memory` is what holds when a method returns `NoMemory`: `⊥` if none does.
pub trait Reading {
    /// The result for an expression.
    type Expr: Drop;
    /// The result for a condition.
    type Cond: Drop;
    /// The result for a list of conditions.
    type Conds: Drop;
    /// The result for a term.
    type Term: Drop;
    /// The result for a list of terms.
    type Terms: Drop;

    ghost E: { Type 0 };

    ghost B: { Type 0 };

    ghost L: { Type 0 };

    ghost T: { Type 0 };

    ghost M: { Type 0 };

    ghost memory: { Type 0 };

    ghost expr: { Self.Expr → E };

    ghost cond: { Self.Cond → B };

    ghost conds: { Self.Conds → L };

    ghost term: { Self.Term → T };

    ghost terms: { Self.Terms → M };

    ghost actions: { Self → Actions E B L T M };

    /// Makes the expression of the number `n`.
    fn number(&self, context: Context, at: usize, n: u64) -> Result<Self::Expr, TextFault>
        ensures { Makes memory expr result ((actions self.now).conds.exprs.number context at n) };

    /// Makes the expression of a name.
    fn variable(&self, context: Context, at: usize, name: &str) -> Result<Self::Expr, TextFault>
        ensures { Makes memory expr result ((actions self.now).conds.exprs.variable context at name.now) };

    /// Joins two expressions by the operator between them.
    fn join(
        &self,
        operator: Operator,
        left: Self::Expr,
        right: Self::Expr,
    ) -> Result<Self::Expr, TextFault>
        ensures { Makes memory expr result (Ok ((actions self.now).conds.exprs.join operator (expr left) (expr right))) };

    /// Encloses an expression in parentheses.
    fn enclosed_expr(&self, inside: Self::Expr) -> Self::Expr
        ensures { expr result ≡ (actions self.now).conds.exprs.enclosed (expr inside) };

    /// Makes the condition `true`.
    fn always(&self) -> Self::Cond
        ensures { cond result ≡ (actions self.now).conds.always };

    /// Makes the condition `false`.
    fn never(&self) -> Self::Cond
        ensures { cond result ≡ (actions self.now).conds.never };

    /// Makes the condition of a name that is a condition by itself.
    fn named_cond(&self, context: Context, at: usize, name: &str) -> Result<Self::Cond, TextFault>
        ensures { Makes memory cond result ((actions self.now).conds.named context at name.now) };

    /// Compares two expressions by the relation between them.
    fn compare(&self, relation: Rel, left: Self::Expr, right: Self::Expr) -> Self::Cond
        ensures { cond result ≡ (actions self.now).conds.compare relation (expr left) (expr right) };

    /// Complements a condition.
    fn negated_cond(&self, operand: Self::Cond) -> Result<Self::Cond, TextFault>
        ensures { Makes memory cond result (Ok ((actions self.now).conds.negated (cond operand))) };

    /// Encloses a condition in parentheses.
    fn enclosed_cond(&self, inside: Self::Cond) -> Self::Cond
        ensures { cond result ≡ (actions self.now).conds.enclosed (cond inside) };

    /// Makes a list of one condition.
    fn one_cond(&self, first: Self::Cond) -> Result<Self::Conds, TextFault>
        ensures { Makes memory conds result (Ok ((actions self.now).conds.one_of (cond first))) };

    /// Appends a condition to a list.
    fn more_conds(&self, list: Self::Conds, next: Self::Cond) -> Result<Self::Conds, TextFault>
        ensures { Makes memory conds result (Ok ((actions self.now).conds.more (conds list) (cond next))) };

    /// Makes the conjunction of a list.
    fn all(&self, list: Self::Conds) -> Result<Self::Cond, TextFault>
        ensures { Makes memory cond result (Ok ((actions self.now).conds.all (conds list))) };

    /// Makes the disjunction of a list.
    fn any(&self, list: Self::Conds) -> Result<Self::Cond, TextFault>
        ensures { Makes memory cond result (Ok ((actions self.now).conds.any (conds list))) };

    /// Makes the term `0`.
    fn zero(&self) -> Self::Term
        ensures { term result ≡ (actions self.now).zero };

    /// Makes the term `1`.
    fn one(&self) -> Self::Term
        ensures { term result ≡ (actions self.now).one };

    /// Makes the term of a name.
    fn named_term(&self, context: Context, at: usize, name: &str) -> Result<Self::Term, TextFault>
        ensures { Makes memory term result ((actions self.now).named context at name.now) };

    /// Complements a term.
    fn negated_term(&self, operand: Self::Term) -> Result<Self::Term, TextFault>
        ensures { Makes memory term result (Ok ((actions self.now).negated (term operand))) };

    /// Makes the term of a condition in brackets.
    fn tested(&self, inside: Self::Cond) -> Result<Self::Term, TextFault>
        ensures { Makes memory term result (Ok ((actions self.now).tested (cond inside))) };

    /// Encloses a term in parentheses.
    fn enclosed_term(&self, inside: Self::Term) -> Self::Term
        ensures { term result ≡ (actions self.now).enclosed (term inside) };

    /// Makes the star of a term. The place is that of the `*`.
    fn starred(
        &self,
        context: Context,
        at: usize,
        operand: Self::Term,
    ) -> Result<Self::Term, TextFault>
        ensures { Makes memory term result ((actions self.now).starred context at (term operand)) };

    /// Makes a list of one term.
    fn one_term(&self, first: Self::Term) -> Result<Self::Terms, TextFault>
        ensures { Makes memory terms result (Ok ((actions self.now).one_of (term first))) };

    /// Appends a term to a list.
    fn more_terms(&self, list: Self::Terms, next: Self::Term) -> Result<Self::Terms, TextFault>
        ensures { Makes memory terms result (Ok ((actions self.now).more (terms list) (term next))) };

    /// Makes the sum of a list.
    fn sum(&self, list: Self::Terms) -> Result<Self::Term, TextFault>
        ensures { Makes memory term result (Ok ((actions self.now).sum (terms list))) };

    /// Makes the product of a list.
    fn product(&self, list: Self::Terms) -> Result<Self::Term, TextFault>
        ensures { Makes memory term result (Ok ((actions self.now).product (terms list))) };
}
