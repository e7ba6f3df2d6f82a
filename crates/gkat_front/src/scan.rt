//! The syntax test of texts, which allocates nothing.
ghost use Rattle.std.specs.Prelude.{◌≡◌};
ghost use Rattle.text_parser.specs.Lexemes.{lexemes};
ghost use Rattle.problem_file.specs.Tokens.{AreTokens};
ghost use Rattle.gkat_front.specs.GkatScans.{scanning_expr};
ghost use Rattle.gkat_front.specs.Making.{scanning, scan_file};

use crate::gkat_reading::GkatReading;
use crate::item_reading::{GkatDeclared, GkatItemReading};
use crate::items::read_items;
use crate::walk::read_expr;
use text_parser::{Context, Scan, TextFault, Token};

// Makes nothing of an expression and refuses no part.
struct ExprScan;

impl GkatReading for ExprScan {
    type Guard = ();

    type Factors = ();

    type Expr = ();

    ghost C = { Unit {0} };

    ghost P = { Unit {0} };

    ghost V = { Unit {0} };

    ghost memory = { ⊥ };

    ghost guard = { λ c. tt };

    ghost factors = { λ p. tt };

    ghost expr = { λ v. tt };

    ghost actions = { λ s. scanning_expr };

    fn read_cond(
        &self,
        toks: &[Token],
        from: usize,
        depth: usize,
    ) -> Result<((), usize), TextFault> {
        text_parser::parse_cond(&Scan, toks, from, Context::outermost(depth, true))
    }

    fn never(&self) {}

    fn always(&self) {}

    fn named(&self, _: usize, _: &str) -> Result<(), TextFault> {
        Ok(())
    }

    fn tested(&self, _: ()) {}

    fn first(&self, _: ()) -> Result<(), TextFault> {
        Ok(())
    }

    fn more(&self, _: (), _: ()) -> Result<(), TextFault> {
        Ok(())
    }

    fn product(&self, _: ()) -> Result<(), TextFault> {
        Ok(())
    }

    fn choice(&self, _: (), _: (), _: ()) -> Result<(), TextFault> {
        Ok(())
    }

    fn repeat(&self, _: (), _: ()) -> Result<(), TextFault> {
        Ok(())
    }
}

// Makes nothing of a text.
#[derive(Drop)]
struct FileScan;

impl GkatItemReading for FileScan {
    type Expr = ();

    ghost S = { Unit {0} };

    ghost V = { Unit {0} };

    ghost memory = { ⊥ };

    ghost state = { λ s. tt };

    ghost expr = { λ v. tt };

    ghost actions = { scanning };

    fn read_expr(&self, toks: &[Token], from: usize) -> Result<((), usize), TextFault> {
        read_expr(&ExprScan, toks, from, 0)
    }

    fn declare(&mut self, _: GkatDeclared, _: &Token) -> Result<(), TextFault> {
        Ok(())
    }

    fn begin_equal(&self, _: usize) -> Result<(), TextFault> {
        Ok(())
    }

    fn pose(&mut self, _: usize, _: (), _: ()) -> Result<(), TextFault> {
        Ok(())
    }
}

/// Checks that the tokens are items. Otherwise fails with the first of `Syntax`, `TooDeep` and `NumberTooWide` in text
/// order. A `Syntax` after the last token has the place `usize::MAX`.
pub(crate) fn test_syntax(toks: &[Token]) -> Result<(), TextFault>
    requires tokens { AreTokens toks.now }
    ensures { result ≡ scan_file (lexemes toks.now) }
{
    read_items(&mut FileScan, toks)
}
