//! The syntax check, which takes no memory.
ghost use Rattle.std.specs.Prelude.{◌≡◌, ℕ, ◌+◌, ◌<◌, ◌≤◌, length, drop, IfOk, IfErr, false, true};
ghost use Rattle.text_parser.specs.Lexemes.{lexemes};
ghost use Rattle.text_parser.specs.Parsed.{Expects};
ghost use Rattle.text_parser.specs.Scans.{scanning, scan_term, scan_cond, scan_expr};
ghost use Rattle.text_parser.specs.Faults.{IsSyntaxFault};

use crate::cond::parse_cond;
use crate::expr::parse_expr;
use crate::fault::TextFault;
use crate::reading::{Context, Operator, Reading};
use crate::term::parse_term;
use crate::token::Token;
use kat_model::Rel;

/// The actions that make nothing and accept every part. A parse with them only checks the syntax.
pub struct Scan;

impl Reading for Scan {
    type Expr = ();

    type Cond = ();

    type Conds = ();

    type Term = ();

    type Terms = ();

    ghost E = { Unit {0} };

    ghost B = { Unit {0} };

    ghost L = { Unit {0} };

    ghost T = { Unit {0} };

    ghost M = { Unit {0} };

    ghost memory = { ⊥ };

    ghost expr = { λ e. tt };

    ghost cond = { λ b. tt };

    ghost conds = { λ l. tt };

    ghost term = { λ t. tt };

    ghost terms = { λ m. tt };

    ghost actions = { λ s. scanning };

    fn number(&self, _: Context, _: usize, _: u64) -> Result<(), TextFault> {
        Ok(())
    }

    fn variable(&self, _: Context, _: usize, _: &str) -> Result<(), TextFault> {
        Ok(())
    }

    fn join(&self, _: Operator, _: (), _: ()) -> Result<(), TextFault> {
        Ok(())
    }

    fn enclosed_expr(&self, _: ()) {}

    fn always(&self) {}

    fn never(&self) {}

    fn named_cond(&self, _: Context, _: usize, _: &str) -> Result<(), TextFault> {
        Ok(())
    }

    fn compare(&self, _: Rel, _: (), _: ()) {}

    fn negated_cond(&self, _: ()) -> Result<(), TextFault> {
        Ok(())
    }

    fn enclosed_cond(&self, _: ()) {}

    fn one_cond(&self, _: ()) -> Result<(), TextFault> {
        Ok(())
    }

    fn more_conds(&self, _: (), _: ()) -> Result<(), TextFault> {
        Ok(())
    }

    fn all(&self, _: ()) -> Result<(), TextFault> {
        Ok(())
    }

    fn any(&self, _: ()) -> Result<(), TextFault> {
        Ok(())
    }

    fn zero(&self) {}

    fn one(&self) {}

    fn named_term(&self, _: Context, _: usize, _: &str) -> Result<(), TextFault> {
        Ok(())
    }

    fn negated_term(&self, _: ()) -> Result<(), TextFault> {
        Ok(())
    }

    fn tested(&self, _: ()) -> Result<(), TextFault> {
        Ok(())
    }

    fn enclosed_term(&self, _: ()) {}

    fn starred(&self, _: Context, _: usize, _: ()) -> Result<(), TextFault> {
        Ok(())
    }

    fn one_term(&self, _: ()) -> Result<(), TextFault> {
        Ok(())
    }

    fn more_terms(&self, _: (), _: ()) -> Result<(), TextFault> {
        Ok(())
    }

    fn sum(&self, _: ()) -> Result<(), TextFault> {
        Ok(())
    }

    fn product(&self, _: ()) -> Result<(), TextFault> {
        Ok(())
    }
}

/// Returns the index after the term that begins at `from`, with `depth` open constructs around it. Otherwise returns
/// the first fault, which is `Syntax`, `TooDeep` or `NumberTooWide`, with the place of its token in bytes. A `Syntax`
/// fault after the last token has the place `usize::MAX`. Takes no memory, and time proportional to the number of
/// tokens.
pub fn term_end(toks: &[Token], from: usize, depth: usize) -> Result<usize, TextFault>
    ensures value { Expects (lexemes toks.now) result (scan_term depth (drop from (lexemes toks.now))) }
    ensures goes { IfOk result (λ end. (from < end) × (end ≤ length toks.now)) }
    ensures fault { IfErr result (λ fault. IsSyntaxFault (drop from (lexemes toks.now)) fault) }
{
    let (_, end) = parse_term(&Scan, toks, from, Context::outermost(depth, true))?;
    Ok(end)
}

/// Returns the index after the condition that begins at `from`, like `term_end` for a term.
pub fn cond_end(toks: &[Token], from: usize, depth: usize) -> Result<usize, TextFault>
    ensures value { Expects (lexemes toks.now) result (scan_cond depth (drop from (lexemes toks.now))) }
    ensures goes { IfOk result (λ end. (from < end) × (end ≤ length toks.now)) }
    ensures fault { IfErr result (λ fault. IsSyntaxFault (drop from (lexemes toks.now)) fault) }
{
    let (_, end) = parse_cond(&Scan, toks, from, Context::outermost(depth, true))?;
    Ok(end)
}

/// Returns the index after the expression that begins at `from`, like `term_end` for a term.
pub fn expr_end(toks: &[Token], from: usize, depth: usize) -> Result<usize, TextFault>
    ensures value { Expects (lexemes toks.now) result (scan_expr depth (drop from (lexemes toks.now))) }
    ensures goes { IfOk result (λ end. (from < end) × (end ≤ length toks.now)) }
    ensures fault { IfErr result (λ fault. IsSyntaxFault (drop from (lexemes toks.now)) fault) }
{
    let (_, end) = parse_expr(&Scan, toks, from, Context::outermost(depth, true))?;
    Ok(end)
}
