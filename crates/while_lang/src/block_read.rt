//! Reads blocks in a scope.
ghost use Rattle.std.specs.Prelude.{◌≡◌, ◌<◌, ◌≤◌, length, drop, IfOk};
ghost use Rattle.text_parser.specs.Lexemes.{lexemes};
ghost use Rattle.text_parser.specs.Readings.{Answers};
ghost use Rattle.while_lang.specs.NamedProgs.{parts_of_progs};
ghost use Rattle.while_lang.specs.BlockReadings.{block_at};

use crate::block_build::build_block;
use crate::block_measure::measure_block;
use crate::named::NamedProg;
use crate::prog::Prog;
use kat_model::MAX_TERM_NODES;
use std::alloc::Global;
use text_parser::{Scope, TextFault, Token, place_at};

/// Reads the block that begins at `from`, with no open construct around it. Returns its program, with the programs that
/// it names spliced in, the index after it, and its nesting. Otherwise fails with the first fault in its syntax or its
/// names in text order (`UnknownName`, `Sort`, or `TooDeep` through the name of a program, each at its token). If no
/// token has a fault, fails with `TooLarge` at the first token if there are more than `MAX_TERM_NODES` nodes or an
/// expression has more than `MAX_EXPR_NODES`, or when out of memory. Program i of the scope is `progs[i]`.
pub fn read_block(
    alloc: Global,
    toks: &[Token],
    from: usize,
    scope: &Scope,
    progs: &[NamedProg],
) -> Result<(Prog, usize, usize), TextFault>
    ensures value { Answers (λ p. p) (lexemes toks.now) result (block_at scope.now (parts_of_progs progs.now) 0 (drop from (lexemes toks.now))) }
    ensures goes { IfOk result (λ x. (from < x.1) × (x.1 ≤ length toks.now)) }
{
    let (extent, _) = measure_block(toks, from, 0, scope, progs)?;
    if extent.nodes > MAX_TERM_NODES {
        return Err(TextFault::TooLarge(place_at(toks, from)));
    }
    let (prog, end) = build_block(alloc, toks, from, 0, scope, progs)?;
    Ok((prog, end, extent.nesting))
}
