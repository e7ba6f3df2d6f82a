//! The term parser.
ghost use Rattle.std.specs.Prelude.{◌≡◌, ℕ, ◌+◌, ◌<◌, ◌≤◌, length, drop, IfOk};
ghost use Rattle.text_parser.specs.Lexemes.{lexemes};
ghost use Rattle.text_parser.specs.Parsed.{Reads, Goes};
ghost use Rattle.text_parser.specs.Terms.{parenthesis, bracket, negation, star_or_not, parse_term, choice, sequence, unit};

use crate::cond::parse_cond;
use crate::fault::TextFault;
use crate::reading::{Context, Reading, with_end};
use crate::terminal::{
    Terminal, expect, is_at, syntax_fault_at, terminal_at, text_at, then_expect,
};
use crate::token::Token;

/// Reads the term that begins at `from`. Returns the result of the actions and the index after the term, or the first
/// fault in the text: `Syntax` at a token that is not allowed there (with the place `usize::MAX` after the last token),
/// `TooDeep` at a token that takes the number of open constructs beyond `MAX_OPEN`, `NumberTooWide` at a number of 2^64
/// or more, or the fault with which an action rejects a part. Only an action fails with `NoMemory`.
#[cycle(terms)]
pub fn parse_term<R: Reading>(
    reading: &R,
    toks: &[Token],
    from: usize,
    context: Context,
) -> Result<(R::Term, usize), TextFault>
    ensures value { Reads R.memory R.term (lexemes toks.now) result (parse_term (R.actions reading.now) choice context (drop from (lexemes toks.now))) }
    ensures goes { Goes from (length toks.now) result }
{
    let (first, next) = sequence(reading, toks, from, context)?;
    let mut list = reading.one_term(first)?;
    let mut at = next;
    'parts: while is_at(toks, at, Terminal::Plus) {
        let (more, next) = sequence(reading, toks, at + 1, context)?;
        list = reading.more_terms(list, more)?;
        at = next;
    }
    with_end(reading.sum(list), at)
}

#[cycle(terms)]
fn sequence<R: Reading>(
    reading: &R,
    toks: &[Token],
    from: usize,
    context: Context,
) -> Result<(R::Term, usize), TextFault>
    ensures value { Reads R.memory R.term (lexemes toks.now) result (parse_term (R.actions reading.now) sequence context (drop from (lexemes toks.now))) }
    ensures goes { Goes from (length toks.now) result }
{
    let (first, next) = unit(reading, toks, from, context)?;
    let (first, next) = star_or_not(reading, toks, next, context, first)?;
    let mut list = reading.one_term(first)?;
    let mut at = next;
    'parts: while is_at(toks, at, Terminal::Dot) {
        let (more, next) = unit(reading, toks, at + 1, context)?;
        let (more, next) = star_or_not(reading, toks, next, context, more)?;
        list = reading.more_terms(list, more)?;
        at = next;
    }
    with_end(reading.product(list), at)
}

fn star_or_not<R: Reading>(
    reading: &R,
    toks: &[Token],
    i: usize,
    context: Context,
    operand: R::Term,
) -> Result<(R::Term, usize), TextFault>
    ensures value { Reads R.memory R.term (lexemes toks.now) result (star_or_not (R.actions reading.now) context (R.term operand) (drop i (lexemes toks.now))) }
    ensures goes { IfOk result (λ x. i ≤ x.1) }
    ensures within { i ≤ length toks.now → IfOk result (λ x. x.1 ≤ length toks.now) }
{
    match terminal_at(toks, i) {
        Some((Terminal::Star, at)) => with_end(reading.starred(context, at, operand), i + 1),
        _ => Ok((operand, i)),
    }
}

#[cycle(terms)]
fn unit<R: Reading>(
    reading: &R,
    toks: &[Token],
    from: usize,
    context: Context,
) -> Result<(R::Term, usize), TextFault>
    ensures value { Reads R.memory R.term (lexemes toks.now) result (parse_term (R.actions reading.now) unit context (drop from (lexemes toks.now))) }
    ensures goes { Goes from (length toks.now) result }
{
    let Some((terminal, at)) = terminal_at(toks, from) else {
        return Err(syntax_fault_at(toks, from));
    };
    let next = from + 1;
    match terminal {
        Terminal::Zero => Ok((reading.zero(), next)),
        Terminal::One => Ok((reading.one(), next)),
        Terminal::Name => with_end(reading.named_term(context, at, text_at(toks, from)), next),
        Terminal::Bang => negation(reading, toks, next, context, at),
        Terminal::SquareOpen => bracket(reading, toks, next, context, at),
        Terminal::RoundOpen => parenthesis(reading, toks, next, context, at),
        _ => Err(TextFault::Syntax(at)),
    }
}

#[cycle(terms)]
fn negation<R: Reading>(
    reading: &R,
    toks: &[Token],
    from: usize,
    context: Context,
    at: usize,
) -> Result<(R::Term, usize), TextFault>
    ensures value { Reads R.memory R.term (lexemes toks.now) result (negation (R.actions reading.now) (parse_term (R.actions reading.now)) context at (drop from (lexemes toks.now))) }
    ensures goes { Goes from (length toks.now) result }
{
    let inside = context.enter_not(at)?;
    let (operand, end) = unit(reading, toks, from, inside)?;
    with_end(reading.negated_term(operand), end)
}

fn bracket<R: Reading>(
    reading: &R,
    toks: &[Token],
    from: usize,
    context: Context,
    at: usize,
) -> Result<(R::Term, usize), TextFault>
    ensures value { Reads R.memory R.term (lexemes toks.now) result (bracket (R.actions reading.now) context at (drop from (lexemes toks.now))) }
    ensures goes { Goes from (length toks.now) result }
{
    let inside = context.enter(at)?;
    let (cond, end) = parse_cond(reading, toks, from, inside)?;
    let end = expect(toks, end, Terminal::SquareClose)?;
    with_end(reading.tested(cond), end)
}

#[cycle(terms)]
fn parenthesis<R: Reading>(
    reading: &R,
    toks: &[Token],
    from: usize,
    context: Context,
    at: usize,
) -> Result<(R::Term, usize), TextFault>
    ensures value { Reads R.memory R.term (lexemes toks.now) result (parenthesis (R.actions reading.now) (parse_term (R.actions reading.now)) context at (drop from (lexemes toks.now))) }
    ensures goes { Goes from (length toks.now) result }
{
    let inside = context.enter(at)?;
    let (term, end) = parse_term(reading, toks, from, inside)?;
    then_expect(toks, reading.enclosed_term(term), end, Terminal::RoundClose)
}
