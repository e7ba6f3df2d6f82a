//! The syntax check of a whole file, which allocates no memory.
ghost use Rattle.std.specs.Prelude.{◌≡◌, length, Ok};
ghost use Rattle.text_parser.specs.Lexemes.{lexemes};
ghost use Rattle.text_parser.specs.Parsed.{Goes};
ghost use Rattle.problem_file.specs.Tokens.{AreTokens};
ghost use Rattle.problem_file.specs.Working.Walks.{Represents};
ghost use Rattle.problem_file.specs.Items.{measure_block};
ghost use Rattle.problem_file.specs.Syntax.{checking, scan_file};

use crate::item_reading::{Comparison, Declared, ItemReading, Setting};
use crate::items::read_items;
use crate::phrase::{Measured, MeasuredSides, MeasuredTriple};
use text_parser::{Context, Scan, TextFault, Token, parse_cond, parse_term};
use while_lang::block_end;

// Checks that a block begins at an index, and returns the index after it.
fn measure_block(toks: &[Token], from: usize) -> Result<((), usize), TextFault>
    ensures value { Represents (λ ts m. m) toks.now from result (measure_block checking tt) }
    ensures goes { Goes from (length toks.now) result }
{
    match block_end(toks, from, 0) {
        Ok(end) => Ok(((), end)),
        Err(fault) => Err(fault),
    }
}

// Makes nothing from items, and refuses none.
#[derive(Drop)]
struct Syntax;

impl ItemReading for Syntax {
    type Measure = ();

    ghost S = { Unit {0} };

    ghost memory = { ⊥ };

    ghost state = { λ s. tt };

    ghost actions = { checking };

    fn measure_term(&self, toks: &[Token], from: usize) -> Result<((), usize), TextFault> {
        parse_term(&Scan, toks, from, Context::outermost(0, false))
    }

    fn measure_cond(
        &self,
        toks: &[Token],
        from: usize,
        compares: bool,
    ) -> Result<((), usize), TextFault> {
        parse_cond(&Scan, toks, from, Context::outermost(1, compares))
    }

    fn measure_block(&self, toks: &[Token], from: usize) -> Result<((), usize), TextFault> {
        measure_block(toks, from)
    }

    fn measure_program(&self, _: &str) -> Option<()> {
        None
    }

    fn declare(&mut self, _: Declared, _: &Token) -> Result<(), TextFault> {
        Ok(())
    }

    fn check_new(&self, _: &Token) -> Result<(), TextFault> {
        Ok(())
    }

    fn define(&mut self, _: &[Token], _: usize, _: &Token, _: Measured<()>) -> Result<(), TextFault>
        ensures { result ≡ Ok tt }
    {
        Ok(())
    }

    fn define_prog(
        &mut self,
        _: &[Token],
        _: usize,
        _: &Token,
        _: Measured<()>,
    ) -> Result<(), TextFault>
        ensures { result ≡ Ok tt }
    {
        Ok(())
    }

    fn begin_hyp(&self, _: usize) -> Result<(), TextFault> {
        Ok(())
    }

    fn state_zero(&mut self, _: &[Token], _: usize, _: Measured<()>) -> Result<(), TextFault>
        ensures { result ≡ Ok tt }
    {
        Ok(())
    }

    fn state_triple(
        &mut self,
        _: &[Token],
        _: usize,
        _: MeasuredTriple<()>,
    ) -> Result<(), TextFault>
        ensures { result ≡ Ok tt }
    {
        Ok(())
    }

    fn begin_setting(&self, _: Setting, _: usize) -> Result<(), TextFault> {
        Ok(())
    }

    fn set(&mut self, _: Setting, _: usize, _: u64) -> Result<(), TextFault> {
        Ok(())
    }

    fn check_numbers(&self, _: &[Token], _: usize, _: usize) -> Result<(), TextFault> {
        Ok(())
    }

    fn begin_goal(&self, _: usize) -> Result<(), TextFault> {
        Ok(())
    }

    fn pose_sides(
        &mut self,
        _: &[Token],
        _: usize,
        _: Comparison,
        _: MeasuredSides<()>,
    ) -> Result<(), TextFault>
        ensures { result ≡ Ok tt }
    {
        Ok(())
    }

    fn pose_triple(&mut self, _: &[Token], _: usize, _: MeasuredTriple<()>) -> Result<(), TextFault>
        ensures { result ≡ Ok tt }
    {
        Ok(())
    }
}

// Checks that the tokens are items; otherwise fails with the first of `Syntax`, `TooDeep` and `NumberTooWide` in text
// order. A `Syntax` after the last token has the place `usize::MAX`.
pub(crate) fn test_syntax(toks: &[Token]) -> Result<(), TextFault>
    requires tokens { AreTokens toks.now }
    ensures { result ≡ scan_file (lexemes toks.now) }
{
    read_items(&mut Syntax, toks)
}
