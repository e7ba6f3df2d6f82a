//! Methods called on the parts of a chain while it is read.
ghost use Rattle.std.specs.Prelude.{◌≡◌, length, drop, Ok};
ghost use Rattle.std.specs.Option.{option_map};
ghost use Rattle.text_parser.specs.Lexemes.{lexemes};
ghost use Rattle.text_parser.specs.Parsed.{Makes, Reads, Goes};
ghost use Rattle.chain_proofs.specs.ChainActions.{ChainActions};

use text_parser::{TextFault, Token};

// What to make of the parts of a chain while it is read. The methods are called for the parts in text order. A fault of
// a method ends the reading. Places are byte offsets in the text.
//
// Contracts see the values through `size`, `term`, `rule`, `path` and `chain`, and the methods as `actions`. `memory`
// is what a `NoMemory` of a method implies: `⊥` if no method returns it.
pub(crate) trait ChainReading {
    // The state after all terms so far.
    type Size: Copy;
    // The value of a term.
    type Term: Drop;
    // The value of a rule.
    type Rule: Drop;
    // The value of a path so far.
    type Path: Drop;
    // The value of a chain so far.
    type Chain: Drop;

    ghost Z: { Type 0 };

    ghost T: { Type 0 };

    ghost R: { Type 0 };

    ghost P: { Type 0 };

    ghost V: { Type 0 };

    ghost memory: { Type 0 };

    ghost size: { Self.Size → Z };

    ghost term: { Self.Term → T };

    ghost rule: { Self.Rule → R };

    ghost path: { Self.Path → P };

    ghost chain: { Self.Chain → V };

    ghost actions: { Self → ChainActions Z T R P V };

    // Reads the term that begins at `from`, with `depth` open constructs around it. Returns its value, the state after
    // it, and the index after it.
    fn read_term(
        &self,
        toks: &[Token],
        from: usize,
        depth: usize,
        known: Self::Size,
    ) -> Result<((Self::Term, Self::Size), usize), TextFault>
        ensures value { Reads memory (λ x. (term x.0, size x.1)) (lexemes toks.now) result ((actions self.now).term depth (size known) (drop from (lexemes toks.now))) }
        ensures goes { Goes from (length toks.now) result };

    // Returns the rule with that name and the number after it, or 0 without a number.
    fn read_rule(&self, at: usize, name: &str, number: u64) -> Result<Self::Rule, TextFault>
        ensures { Makes memory rule result ((actions self.now).rule at name.now number) };

    // Returns the path to the whole term.
    fn whole(&self) -> Self::Path
        ensures { path result ≡ (actions self.now).whole };

    // Extends a path by a part.
    fn part(&self, so_far: Self::Path, number: u64) -> Result<Self::Path, TextFault>
        ensures { Makes memory path result (Ok ((actions self.now).part (path so_far) number)) };

    // Returns the chain that consists of its first term.
    fn first(&self, only: Self::Term) -> Self::Chain
        ensures { chain result ≡ (actions self.now).first (term only) };

    // Extends a chain by a line.
    fn line(
        &self,
        so_far: Self::Chain,
        next: Self::Term,
        reason: Self::Rule,
        place: Self::Path,
        inner: Option<Self::Chain>,
    ) -> Result<Self::Chain, TextFault>
        ensures { Makes memory chain result (Ok ((actions self.now).line (chain so_far) (term next) (rule reason) (path place) (option_map chain inner))) };
}
