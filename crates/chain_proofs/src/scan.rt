//! The syntax test of chains, which allocates nothing.
ghost use Rattle.std.specs.Prelude.{◌≡◌, Ok};
ghost use Rattle.text_parser.specs.Lexemes.{lexemes};
ghost use Rattle.text_parser.specs.Parsed.{Makes};
ghost use Rattle.chain_proofs.specs.ChainScans.{scanning_chain, scan_chain};

use crate::chain_reading::ChainReading;
use crate::walk::read_chain;
use text_parser::{Context, Scan, TextFault, Token, terminal_at};

// Makes nothing of a chain and refuses no part.
struct ChainScan;

impl ChainReading for ChainScan {
    type Size = ();

    type Term = ();

    type Rule = ();

    type Path = ();

    type Chain = ();

    ghost Z = { Unit {0} };

    ghost T = { Unit {0} };

    ghost R = { Unit {0} };

    ghost P = { Unit {0} };

    ghost V = { Unit {0} };

    ghost memory = { ⊥ };

    ghost size = { λ z. tt };

    ghost term = { λ t. tt };

    ghost rule = { λ r. tt };

    ghost path = { λ p. tt };

    ghost chain = { λ v. tt };

    ghost actions = { λ s. scanning_chain };

    fn read_term(
        &self,
        toks: &[Token],
        from: usize,
        depth: usize,
        _: (),
    ) -> Result<(((), ()), usize), TextFault> {
        let (_, end) = text_parser::parse_term(
            &Scan,
            toks,
            from,
            Context::outermost(depth, false),
        )?;
        Ok((((), ()), end))
    }

    fn read_rule(&self, _: usize, _: &str, _: u64) -> Result<(), TextFault> {
        Ok(())
    }

    fn whole(&self) {}

    fn part(&self, _: (), _: u64) -> Result<(), TextFault> {
        Ok(())
    }

    fn first(&self, _: ()) {}

    fn line(&self, _: (), _: (), _: (), _: (), _: Option<()>) -> Result<(), TextFault>
        ensures { Makes ⊥ (λ v. tt {0}) result (Ok (tt {0})) }
    {
        Ok(())
    }
}

/// Checks that the tokens are exactly one chain. Otherwise fails with the first of `Syntax`, `TooDeep` and
/// `NumberTooWide` in text order. A `Syntax` after the last token has the place `usize::MAX`.
pub(crate) fn test_syntax(toks: &[Token]) -> Result<(), TextFault>
    ensures { result ≡ scan_chain (lexemes toks.now) }
{
    let (_, end) = read_chain(&ChainScan, toks, 0, 0, ())?;
    match terminal_at(toks, end) {
        None => Ok(()),
        Some((_, at)) => Err(TextFault::Syntax(at)),
    }
}
