//! Methods called on the parts of an expression while it is read.
ghost use Rattle.std.specs.Prelude.{◌≡◌, length, drop, Ok};
ghost use Rattle.text_parser.specs.Lexemes.{lexemes};
ghost use Rattle.text_parser.specs.Parsed.{Makes, Reads, Goes};
ghost use Rattle.gkat_front.specs.GkatActions.{GkatActions};

use text_parser::{TextFault, Token};

// What to make of the parts of an expression while it is read. The methods are called for the parts in text order. A
// fault of a method ends the reading. Places are byte offsets in the text.
//
// Contracts see the values through `guard`, `factors` and `expr`, and the methods as `actions`. `memory` is what a
// `NoMemory` of a method implies: `⊥` if no method returns it.
pub(crate) trait GkatReading {
    // The value of a condition.
    type Guard: Drop;
    // The value of a product so far.
    type Factors: Drop;
    // The value of an expression.
    type Expr: Drop;

    ghost C: { Type 0 };

    ghost P: { Type 0 };

    ghost V: { Type 0 };

    ghost memory: { Type 0 };

    ghost guard: { Self.Guard → C };

    ghost factors: { Self.Factors → P };

    ghost expr: { Self.Expr → V };

    ghost actions: { Self → GkatActions C P V };

    // Reads the condition that begins at `from`, with `depth` open constructs around it. Returns its value and the
    // index after it.
    fn read_cond(
        &self,
        toks: &[Token],
        from: usize,
        depth: usize,
    ) -> Result<(Self::Guard, usize), TextFault>
        ensures value { Reads memory guard (lexemes toks.now) result ((actions self.now).cond depth (drop from (lexemes toks.now))) }
        ensures goes { Goes from (length toks.now) result };

    // Return the values of `0` and `1`.
    fn never(&self) -> Self::Expr
        ensures { expr result ≡ (actions self.now).never };

    fn always(&self) -> Self::Expr
        ensures { expr result ≡ (actions self.now).always };

    // Returns the value of a name at a place.
    fn named(&self, at: usize, name: &str) -> Result<Self::Expr, TextFault>
        ensures { Makes memory expr result ((actions self.now).name at name.now) };

    // Returns the value of a condition in brackets.
    fn tested(&self, cond: Self::Guard) -> Self::Expr
        ensures { expr result ≡ (actions self.now).test (guard cond) };

    // Returns the product of one factor.
    fn first(&self, only: Self::Expr) -> Result<Self::Factors, TextFault>
        ensures { Makes memory factors result (Ok ((actions self.now).first (expr only))) };

    // Extends a product by a factor.
    fn more(&self, so_far: Self::Factors, next: Self::Expr) -> Result<Self::Factors, TextFault>
        ensures { Makes memory factors result (Ok ((actions self.now).more (factors so_far) (expr next))) };

    // Returns the value of a complete product.
    fn product(&self, all: Self::Factors) -> Result<Self::Expr, TextFault>
        ensures { Makes memory expr result (Ok ((actions self.now).product (factors all))) };

    fn choice(
        &self,
        cond: Self::Guard,
        left: Self::Expr,
        right: Self::Expr,
    ) -> Result<Self::Expr, TextFault>
        ensures { Makes memory expr result (Ok ((actions self.now).choice (guard cond) (expr left) (expr right))) };

    fn repeat(&self, cond: Self::Guard, body: Self::Expr) -> Result<Self::Expr, TextFault>
        ensures { Makes memory expr result (Ok ((actions self.now).loop (guard cond) (expr body))) };
}
