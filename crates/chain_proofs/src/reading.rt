//! Reads the text of a proof.
ghost use Rattle.std.specs.Prelude.{◌≡◌, ◌≤◌, length, IfOk, IfErr};
ghost use Rattle.text_parser.specs.declared.fault.TextFault.TheVariants.{NoMemory as NoRoom};
ghost use Rattle.text_parser.specs.declared.lexer.TheConstants.{MAX_LEN as MOST};
ghost use Rattle.text_parser.specs.Lexemes.{lexemes};
ghost use Rattle.text_parser.specs.Parsed.{Makes};
ghost use Rattle.chain_rules.specs.Chains.{ChainTree};
ghost use Rattle.chain_rules.specs.Chained.{HasTermsInRange};
ghost use Rattle.problem_file.specs.NumberedScopes.{numbered_scope};
ghost use Rattle.chain_proofs.specs.Reads.{Reads, tested, Answers};

use crate::making::make_chain;
use crate::scan::test_syntax;
use chain_rules::Chain;
use problem_file::{fault_in_text, numbered_scope, text_of};
use std::alloc::Global;
use text_parser::{Scope, TextFault, Token, tokens};

// Returns the chain, or the first fault of the tokens.
fn test(alloc: Global, scope: &Scope, toks: &[Token]) -> Result<Chain, TextFault>
    ensures { Makes (Unit {0}) (λ c. c) result (tested scope.now (lexemes toks.now)) }
{
    test_syntax(toks)?;
    make_chain(alloc, scope, toks)
}

fn read_text(alloc: Global, text: &str, tests: usize, actions: usize) -> Result<Chain, TextFault>
    requires within { length text.now ≤ MOST }
    ensures { Answers tests actions text.now result }
{
    let toks = tokens(alloc, text)?;
    let scope = numbered_scope(alloc, tests, actions)?;
    match test(alloc, &scope, &toks) {
        Ok(chain) => Ok(chain),
        Err(fault) => Err(fault_in_text(fault, text.len())),
    }
}

/// Returns the chain that the text of a proof spells. Its terms name `tests` tests `t0`, `t1`, .. and `actions` actions
/// `a0`, `a1`, .., as the abstract problem shows them. Otherwise fails with the first fault, in this order: `TooLong`
/// for more than `MAX_LEN` bytes; `NotUtf8`; `BadToken`; the first in text order of `Syntax`, of `TooDeep` if more than
/// `MAX_OPEN` constructs are open, including the braces of inner chains, and of `NumberTooWide` for 2^64 or more; the
/// first in text order of `UnknownName` at an undefined name or rule, of `Sort`, and of `TooLarge` at the first byte of
/// a term if it has more than `MAX_TERM_NODES` nodes or all terms so far have more than `MAX_TEXT_NODES`.
pub fn read_chain(
    alloc: Global,
    bytes: &[u8],
    tests: usize,
    actions: usize,
) -> Result<Chain, TextFault>
    // The chain is the one that the bytes spell; a failure is `NoMemory` or the first fault of the bytes.
    ensures answers { Answers tests actions bytes.now result }

    // The terms of the chain are in range.
    ensures in_range { IfOk result (HasTermsInRange tests actions) }

    // Bytes that spell a chain fail only when out of memory.
    ensures only { (c : ChainTree) → Reads tests actions bytes.now c → IfErr result (λ e. e ≡ NoRoom) }
{
    let text = text_of(bytes)?;
    read_text(alloc, text, tests, actions)
}
