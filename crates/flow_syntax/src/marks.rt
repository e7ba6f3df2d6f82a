//! From a text to its derivation.
ghost use Rattle.std.specs.Prelude.{◌≡◌, IfOk, IfErr};
ghost use Rattle.text_parser.specs.TokenParts.{parts_of_token, parts_of_tokens};
ghost use Rattle.flow_syntax.specs.Derivations.{Derives, IsReaderFault};
ghost use Rattle.flow_syntax.specs.declared.phrase.TheConstants.{FILE};
ghost use Rattle.flow_syntax.specs.Marks.{is_word_next, terminal_at, inside, context_after, mark_at, marks_of};
ghost use Rattle.flow_syntax.specs.Productions.{rules};

use crate::grammar::grammar;
use crate::phrase::FILE;
use crate::reading::read;
use crate::rule::{Mark, Step};
use crate::terminal::{CURLY_CLOSE, MATCH, SEMICOLON, is_match, terminal_in_match, terminal_of};
use kat_model::{NoMemory, append};
use std::alloc::Global;
use text_parser::{Kind, TextFault, Token};

/// Where a token is: `match` and the words of its parts are keywords by their place.
#[derive(Clone, Copy)]
pub(crate) enum Context {
    /// Where an item or a statement may begin: at the start of the text and after `;` and `}`.
    Beginning,
    /// After the keyword `match`, to its `;`.
    InMatch,
    Elsewhere,
}

fn is_word_next(toks: &[Token]) -> bool
    ensures { result ≡ is_word_next (parts_of_tokens toks.now) }
{
    match toks.first() {
        None => false,
        Some(token) => match token.kind {
            Kind::Name => true,
            Kind::Number => false,
            Kind::Symbol => false,
        },
    }
}

// Returns the terminal of a token before others.
fn terminal_at(context: Context, token: &Token, later: &[Token]) -> usize
    ensures { result ≡ terminal_at context (parts_of_token token.now) (parts_of_tokens later.now) }
{
    match context {
        Context::Beginning => {
            if is_match(token) && is_word_next(later) {
                return MATCH;
            }
            terminal_of(token)
        }
        Context::InMatch => terminal_in_match(token),
        Context::Elsewhere => terminal_of(token),
    }
}

fn inside(context: Context) -> Context
    ensures { result ≡ inside context }
{
    match context {
        Context::Beginning => Context::Elsewhere,
        Context::InMatch => Context::InMatch,
        Context::Elsewhere => Context::Elsewhere,
    }
}

// Returns the context after a token of this terminal.
fn context_after(context: Context, terminal: usize) -> Context
    ensures { result ≡ context_after context terminal }
{
    if terminal == SEMICOLON || terminal == CURLY_CLOSE {
        return Context::Beginning;
    }
    if terminal == MATCH {
        return Context::InMatch;
    }
    inside(context)
}

fn mark_at(context: Context, token: &Token, later: &[Token]) -> Mark
    ensures { result ≡ mark_at context (parts_of_token token.now) (parts_of_tokens later.now) }
{
    Mark {
        terminal: terminal_at(context, token, later),
        at: token.at,
    }
}

fn marks(alloc: Global, toks: &[Token]) -> Result<Vec<Mark>, NoMemory>
    ensures { IfOk result (λ ms. ms.items ≡ marks_of (parts_of_tokens toks.now)) }
{
    let mut marks = Vec::new(alloc);
    let mut context = Context::Beginning;
    let mut rest = toks;
    'tokens: while let Some((token, later)) = rest.split_first() {
        let mark = mark_at(context, token, later);
        append(&mut marks, mark)?;
        context = context_after(context, mark.terminal);
        rest = &rest[1..];
    }
    Ok(marks)
}

/// Returns the leftmost derivation of the tokens of a text of `end` bytes from the phrase of a file, or its first fault.
#[tactic(auto, using(crate::proofs::GrammarExamples::rules_light))]
pub(crate) fn derivation(alloc: Global, toks: &[Token], end: usize) -> Result<Vec<Step>, TextFault>
    ensures read { IfOk result (λ steps. Derives rules FILE (marks_of (parts_of_tokens toks.now)) end steps.items) }
    ensures refused { IfErr result (λ fault. IsReaderFault rules FILE (marks_of (parts_of_tokens toks.now)) end fault) }
{
    let grammar = grammar(alloc)?;
    let marks = marks(alloc, toks)?;
    read(alloc, &grammar, &marks, FILE, end)
}
