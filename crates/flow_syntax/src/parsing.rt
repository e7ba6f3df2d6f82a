//! Reads the items of a text.
ghost use Rattle.std.specs.Prelude.{◌≡◌, length, IfOk, IfErr};
ghost use Rattle.text_parser.specs.TokenParts.{parts_of_tokens};
ghost use Rattle.flow_syntax.specs.Derivations.{IsReaderFault};
ghost use Rattle.flow_syntax.specs.declared.phrase.TheConstants.{FILE};
ghost use Rattle.flow_syntax.specs.Marks.{marks_of};
ghost use Rattle.flow_syntax.specs.Values.{count_taken, values};
ghost use Rattle.flow_syntax.specs.Actions.{first, items_in};
ghost use Rattle.flow_syntax.specs.Productions.{rules, actions};
ghost use Rattle.flow_syntax.specs.SyntaxViews.{items_syntax};
ghost use Rattle.flow_syntax.specs.Spelling.{AreSpelled};

use crate::building::build;
use crate::making::Parts;
use crate::marks::derivation;
use crate::rule::Step;
use crate::stack::take_items;
use crate::written::Item;
use kat_model::NoMemory;
use std::alloc::Global;
use text_parser::{TextFault, Token};

// Makes the items of a derivation.
#[tactic(auto, using(crate::proofs::Stacked::pushes))]
fn items_of<'a>(
    alloc: Global,
    toks: &[Token<'a>],
    steps: &[Step],
) -> Result<Vec<Item<'a>>, NoMemory>
    requires { count_taken steps.now ≡ length toks.now }
    ensures { IfOk result (λ list. items_syntax list.items ≡ items_in (first (values actions steps.now (parts_of_tokens toks.now)))) }
{
    let mut parts = Parts {
        alloc,
        values: Vec::new(alloc),
    };
    build(&mut parts, steps, toks)?;
    Ok(take_items(alloc, &mut parts.values))
}

/// Returns the items that the tokens of a text of `end` bytes spell, from the last to the first, or the first fault of
/// their syntax.
#[tactic(auto, using(crate::proofs::TokensTaken::all_taken, crate::proofs::TokensTaken::are_spelled))]
pub fn items<'a>(alloc: Global, toks: &[Token<'a>], end: usize) -> Result<Vec<Item<'a>>, TextFault>
    ensures read { IfOk result (λ list. AreSpelled (parts_of_tokens toks.now) end (items_syntax list.items)) }
    ensures refused { IfErr result (λ fault. IsReaderFault rules FILE (marks_of (parts_of_tokens toks.now)) end fault) }
{
    let steps = derivation(alloc, toks, end)?;
    Ok(items_of(alloc, toks, &steps)?)
}
