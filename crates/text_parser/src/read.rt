//! Reads terms, conditions and expressions in a scope.
ghost use Rattle.std.specs.Prelude.{◌≡◌, ◌<◌, ◌≤◌, length, drop, IfOk, IfErr, nat_lt, false, true};
ghost use Rattle.kat_model.specs.Trees.{kat_tree};
ghost use Rattle.kat_model.specs.Expressions.{cond_tree, expr_tree};
ghost use Rattle.text_parser.specs.Lexemes.{lexemes};
ghost use Rattle.text_parser.specs.Parsed.{Reads, Goes};
ghost use Rattle.text_parser.specs.Actions.{context};
ghost use Rattle.text_parser.specs.Exprs.{parse_expr, sums};
ghost use Rattle.text_parser.specs.Conds.{parse_cond, disjunction};
ghost use Rattle.text_parser.specs.Terms.{parse_term, choice};
ghost use Rattle.text_parser.specs.Measuring.{extents, cond_extents, expr_extents};
ghost use Rattle.text_parser.specs.Building.{trees, cond_trees, expr_trees};
ghost use Rattle.text_parser.specs.Readings.{Answers, term_at, cond_at, expr_at};

use crate::build::Build;
use crate::extent::Extent;
use crate::fault::TextFault;
use crate::measure::Measure;
use crate::reading::Context;
use crate::scope::Scope;
use crate::terminal::place_at;
use crate::token::Token;
use kat_model::{Cond, Expr, Kat, MAX_EXPR_NODES, MAX_TERM_NODES};
use std::alloc::Global;

/// Returns the size and nesting of the term that begins at `from`, with `depth` open constructs around it, and the
/// index after the term; or the first fault in its syntax or its names in text order. Takes no memory.
pub fn measure_term(
    toks: &[Token],
    from: usize,
    depth: usize,
    scope: &Scope,
) -> Result<(Extent, usize), TextFault>
    ensures value { Reads ⊥ (λ m. m) (lexemes toks.now) result (parse_term (extents scope.now) choice (context depth false false) (drop from (lexemes toks.now))) }
    ensures goes { Goes from (length toks.now) result }
{
    crate::term::parse_term(
        &Measure { scope },
        toks,
        from,
        Context::outermost(depth, false),
    )
}

/// Measures the condition that begins at `from`, like `measure_term` for a term. If `compares` is false, variables and
/// numbers in it are `Sort` faults.
pub fn measure_cond(
    toks: &[Token],
    from: usize,
    depth: usize,
    scope: &Scope,
    compares: bool,
) -> Result<(Extent, usize), TextFault>
    ensures value { Reads ⊥ (λ m. m) (lexemes toks.now) result (parse_cond (cond_extents scope.now) disjunction (context depth false compares) (drop from (lexemes toks.now))) }
    ensures goes { Goes from (length toks.now) result }
{
    crate::cond::parse_cond(
        &Measure { scope },
        toks,
        from,
        Context::outermost(depth, compares),
    )
}

/// Measures the expression that begins at `from`, like `measure_term` for a term.
pub fn measure_expr(
    toks: &[Token],
    from: usize,
    depth: usize,
    scope: &Scope,
) -> Result<(Extent, usize), TextFault>
    ensures value { Reads ⊥ (λ m. m) (lexemes toks.now) result (parse_expr (expr_extents scope.now) sums (context depth false true) (drop from (lexemes toks.now))) }
    ensures goes { Goes from (length toks.now) result }
{
    crate::expr::parse_expr(
        &Measure { scope },
        toks,
        from,
        Context::outermost(depth, true),
    )
}

/// Returns the tree of the term that begins at `from`, with `depth` open constructs around it, and the index after the
/// term. May accept a term that `measure_term` rejects; a term that it accepts has a tree of the measured size.
pub fn build_term(
    alloc: Global,
    toks: &[Token],
    from: usize,
    depth: usize,
    scope: &Scope,
) -> Result<(Kat, usize), TextFault>
    ensures value { Reads (Unit {0}) kat_tree (lexemes toks.now) result (parse_term (trees scope.now) choice (context depth false false) (drop from (lexemes toks.now))) }
    ensures goes { Goes from (length toks.now) result }
{
    crate::term::parse_term(
        &Build { alloc, scope },
        toks,
        from,
        Context::outermost(depth, false),
    )
}

/// Builds the condition that begins at `from`, like `build_term` for a term.
pub fn build_cond(
    alloc: Global,
    toks: &[Token],
    from: usize,
    depth: usize,
    scope: &Scope,
    compares: bool,
) -> Result<(Cond, usize), TextFault>
    ensures value { Reads (Unit {0}) cond_tree (lexemes toks.now) result (parse_cond (cond_trees scope.now) disjunction (context depth false compares) (drop from (lexemes toks.now))) }
    ensures goes { Goes from (length toks.now) result }
{
    crate::cond::parse_cond(
        &Build { alloc, scope },
        toks,
        from,
        Context::outermost(depth, compares),
    )
}

/// Builds the expression that begins at `from`, like `build_term` for a term.
pub fn build_expr(
    alloc: Global,
    toks: &[Token],
    from: usize,
    depth: usize,
    scope: &Scope,
) -> Result<(Expr, usize), TextFault>
    ensures value { Reads (Unit {0}) expr_tree (lexemes toks.now) result (parse_expr (expr_trees scope.now) sums (context depth false true) (drop from (lexemes toks.now))) }
    ensures goes { Goes from (length toks.now) result }
{
    crate::expr::parse_expr(
        &Build { alloc, scope },
        toks,
        from,
        Context::outermost(depth, true),
    )
}

fn within(extent: Extent, limit: u64, at: usize) -> Result<(), TextFault>
    ensures ok { IfOk result (λ _. nat_lt limit extent.nodes ≡ false) }
    ensures err { IfErr result (λ e. (nat_lt limit extent.nodes ≡ true) × (e ≡ TextFault.TooLarge at)) }
{
    if extent.nodes > limit {
        return Err(TextFault::TooLarge(at));
    }
    Ok(())
}

/// Reads the term that begins at `from`, with `depth` open constructs around it. Returns its tree, the index after it,
/// and its nesting, counted from the term itself. Otherwise fails with the first fault in its syntax or its names in
/// text order (`UnknownName`, `Sort`, or `TooDeep` through a defined name, each at its token). If no token has a fault,
/// fails with `TooLarge` at the first token if the term has more than `MAX_TERM_NODES` nodes, or when out of memory.
pub fn read_term(
    alloc: Global,
    toks: &[Token],
    from: usize,
    depth: usize,
    scope: &Scope,
) -> Result<(Kat, usize, usize), TextFault>
    ensures value { Answers kat_tree (lexemes toks.now) result (term_at scope.now depth (drop from (lexemes toks.now))) }
    ensures goes { IfOk result (λ x. (from < x.1) × (x.1 ≤ length toks.now)) }
{
    let (extent, _) = measure_term(toks, from, depth, scope)?;
    within(extent, MAX_TERM_NODES, place_at(toks, from))?;
    let (term, end) = build_term(alloc, toks, from, depth, scope)?;
    Ok((term, end, extent.nesting))
}

/// Reads the condition that begins at `from`, like `read_term` for a term. If `compares` is false, variables and
/// numbers in it are `Sort` faults. An expression of more than `MAX_EXPR_NODES` nodes is `TooLarge` too.
pub fn read_cond(
    alloc: Global,
    toks: &[Token],
    from: usize,
    depth: usize,
    scope: &Scope,
    compares: bool,
) -> Result<(Cond, usize, usize), TextFault>
    ensures value { Answers cond_tree (lexemes toks.now) result (cond_at scope.now depth compares (drop from (lexemes toks.now))) }
    ensures goes { IfOk result (λ x. (from < x.1) × (x.1 ≤ length toks.now)) }
{
    let (extent, _) = measure_cond(toks, from, depth, scope, compares)?;
    within(extent, MAX_TERM_NODES, place_at(toks, from))?;
    let (cond, end) = build_cond(alloc, toks, from, depth, scope, compares)?;
    Ok((cond, end, extent.nesting))
}

/// Reads the expression that begins at `from`, like `read_term` for a term; `TooLarge` if it has more than
/// `MAX_EXPR_NODES` nodes.
pub fn read_expr(
    alloc: Global,
    toks: &[Token],
    from: usize,
    depth: usize,
    scope: &Scope,
) -> Result<(Expr, usize, usize), TextFault>
    ensures value { Answers expr_tree (lexemes toks.now) result (expr_at scope.now depth (drop from (lexemes toks.now))) }
    ensures goes { IfOk result (λ x. (from < x.1) × (x.1 ≤ length toks.now)) }
{
    let (extent, _) = measure_expr(toks, from, depth, scope)?;
    within(extent, MAX_EXPR_NODES, place_at(toks, from))?;
    let (expr, end) = build_expr(alloc, toks, from, depth, scope)?;
    Ok((expr, end, extent.nesting))
}
