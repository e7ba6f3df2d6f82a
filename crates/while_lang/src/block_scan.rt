//! The syntax check of blocks, which takes no memory.
ghost use Rattle.std.specs.Prelude.{◌≡◌, ◌<◌, ◌≤◌, length, drop, IfOk, IfErr};
ghost use Rattle.text_parser.specs.Lexemes.{lexemes};
ghost use Rattle.text_parser.specs.Parsed.{Expects};
ghost use Rattle.while_lang.specs.BlockScans.{scanning_blocks, scan_block};
ghost use Rattle.while_lang.specs.BlockFaults.{IsBlockFault};

use crate::block_reading::BlockReading;
use crate::blocks::read_block;
use text_parser::{Context, Scan, TextFault, Token};

// The actions that make nothing and accept every part.
struct BlockScan;

impl BlockReading for BlockScan {
    type Expr = ();

    type Cond = ();

    type Stmts = ();

    ghost E = { Unit {0} };

    ghost B = { Unit {0} };

    ghost L = { Unit {0} };

    ghost T = { Unit {0} };

    ghost M = { Unit {0} };

    ghost S = { Unit {0} };

    ghost memory = { ⊥ };

    ghost expr = { λ e. tt };

    ghost cond = { λ b. tt };

    ghost stmts = { λ s. tt };

    ghost actions = { λ s. scanning_blocks };

    fn read_expr(
        &self,
        toks: &[Token],
        from: usize,
        depth: usize,
    ) -> Result<((), usize), TextFault> {
        text_parser::parse_expr(&Scan, toks, from, Context::outermost(depth, true))
    }

    fn read_cond(
        &self,
        toks: &[Token],
        from: usize,
        depth: usize,
    ) -> Result<((), usize), TextFault> {
        text_parser::parse_cond(&Scan, toks, from, Context::outermost(depth, true))
    }

    fn none(&self) {}

    fn skip(&self, _: &mut ()) -> Result<(), TextFault> {
        Ok(())
    }

    fn abort(&self, _: &mut ()) -> Result<(), TextFault> {
        Ok(())
    }

    fn assert(&self, _: &mut (), _: ()) -> Result<(), TextFault> {
        Ok(())
    }

    fn named(&self, _: usize, _: usize, _: &str, _: &mut ()) -> Result<(), TextFault> {
        Ok(())
    }

    fn check_target(&self, _: usize, _: &str) -> Result<(), TextFault> {
        Ok(())
    }

    fn assign(&self, _: &mut (), _: &str, _: ()) -> Result<(), TextFault> {
        Ok(())
    }

    fn branch(&self, _: &mut (), _: (), _: (), _: ()) -> Result<(), TextFault> {
        Ok(())
    }

    fn turn(&self, _: &mut (), _: (), _: ()) -> Result<(), TextFault> {
        Ok(())
    }

    fn braced(&self, _: ()) {}

    fn chained(&self, _: ()) {}
}

/// Returns the index after the block that begins at `from`, with `depth` open constructs around it. Otherwise returns
/// the first fault, which is `Syntax`, `TooDeep` or `NumberTooWide`, with the place of its token in bytes. A `Syntax`
/// fault after the last token has the place `usize::MAX`. Each `else if` is one construct until its chain ends, and its
/// `if` is the token of a `TooDeep` fault. Takes no memory.
pub fn block_end(toks: &[Token], from: usize, depth: usize) -> Result<usize, TextFault>
    ensures value { Expects (lexemes toks.now) result (scan_block depth (drop from (lexemes toks.now))) }
    ensures goes { IfOk result (λ end. (from < end) × (end ≤ length toks.now)) }
    ensures fault { IfErr result (λ fault. IsBlockFault (drop from (lexemes toks.now)) fault) }
{
    let (_, end) = read_block(&BlockScan, toks, from, depth)?;
    Ok(end)
}
