//! Chains of equations.
use kat_model::Kat;
use std::marker::Model;

/// An axiom of Kleene algebra with tests (Kozen, *A completeness theorem for Kleene algebras and the algebra of regular
/// events*, 1994; *Kleene algebra with tests*, 1997), as an equation of two terms that may be used in both directions.
#[derive(Clone, Copy)]
pub enum Axiom {
    /// `x + (y + z) = (x + y) + z`
    Assoc,
    /// `x + y = y + x`
    Comm,
    /// `x + x = x`
    Idem,
    /// `x + 0 = x`
    Zero,
    /// `x.(y.z) = (x.y).z`
    SeqAssoc,
    /// `1.x = x`
    OneLeft,
    /// `x.1 = x`
    OneRight,
    /// `0.x = 0`
    ZeroLeft,
    /// `x.0 = 0`
    ZeroRight,
    /// `x.(y + z) = x.y + x.z`
    DistLeft,
    /// `(x + y).z = x.z + y.z`
    DistRight,
    /// `x* = 1 + x.x*`
    UnfoldLeft,
    /// `x* = 1 + x*.x`
    UnfoldRight,
    /// `x = y` for terms without actions and stars that are true at the same atoms.
    Bool,
    /// `x = 0` for the hypothesis `x` with this number.
    Hyp(u64),
    /// `p*.q + r = r`, if an inner chain turns `(q + p.r) + r` into `r`.
    Lfp,
    /// `q.p* + r = r`, if an inner chain turns `(q + r.p) + r` into `r`.
    Rfp,
}

/// A chain of equations: its first term, and the lines that transform it.
#[cycle(chain)]
#[derive(Drop)]
pub struct Chain {
    pub first: Kat,
    pub lines: Vec<Line>,
}

/// A line of a chain: its term equals the term before it, by an axiom at a place of both.
#[cycle(chain)]
pub struct Line {
    /// The term of the line.
    pub next: Kat,
    /// The axiom.
    pub rule: Axiom,
    /// The place, as a path down from the whole term: 0 and 1 for the parts of a sum or product, 0 for the body of a
    /// star.
    pub path: Vec<u64>,
    /// The chain that shows the premise of the axiom.
    pub inner: Option<Box<Chain>>,
}

// Explicit, so that this crate proves it once: a derived drop of a recursive type is proved again in each crate that
// owns a value.
impl Drop for Line {
    #[cycle(chain)]
    fn drop(self) {
        let Line {
            next: _next,
            rule: _rule,
            path: _path,
            inner: _inner,
        } = self;
    }
}

impl Model for Chain {
    ghost use Rattle.chain_rules.specs.Chains.{ChainTree, lines_count};
    ghost use Rattle.chain_rules.specs.ChainCodes.{coded_chain};

    ghost Value = { ChainTree };

    ghost coded = { coded_chain };

    ghost use Rattle.kat_model.specs.Trees.{kat_tree};
    ghost use Rattle.chain_rules.specs.ChainViews.{chain_tree};

    ghost view = { λ c. chain_tree (kat_tree c.first) c.lines.items };

    ghost size = { lines_count };

    ghost use Rattle.std.proofs.Common.{arith};
    ghost use Rattle.chain_rules.specs.ChainFalls.{lines_fall};

    ghost size_decreases = { λ a h. Prim.omega (arith, lines_fall (kat_tree a.first) a.lines.items) };
}
