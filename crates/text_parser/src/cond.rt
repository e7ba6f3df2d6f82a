//! The condition parser.
//!
//! A `(` begins an expression or a condition; the token after the matching parenthesis decides. A forward search counts
//! parentheses to find it, and takes no memory. The search begins only at a `(` that may begin a condition, never
//! within an expression. So it passes a token at most once for each `(` that is open there, which is at most `MAX_OPEN
//! + 1` times by the depth limit.
ghost use Rattle.std.specs.Prelude.{◌≡◌, ℕ, ◌+◌, ◌<◌, ◌≤◌, length, drop, IfOk};
ghost use Rattle.text_parser.specs.Lexemes.{lexemes};
ghost use Rattle.text_parser.specs.Parsed.{Reads, Goes};
ghost use Rattle.text_parser.specs.Conds.{index_after_matching, begins_expr, relation, comparison, parenthesis, negation, parse_cond, disjunction, conjunction, literal};

use crate::expr::parse_expr;
use crate::fault::TextFault;
use crate::reading::{Context, Reading, with_end};
use crate::terminal::{
    Terminal, is_at, is_round_close_at, is_round_open_at, syntax_fault_at, terminal_at, text_at,
    then_expect,
};
use crate::token::Token;
use kat_model::Rel;

// Returns the index after the parenthesis that matches one just before `from`, or the number of tokens if there is
// none. Compares the text of a token with one symbol: `terminal_at`, which distinguishes all terminals, took four to
// ten times as long.
#[tactic(auto, using(crate::proofs::Parentheses::match_closed, crate::proofs::TokenPlaces::next_drop))]
fn index_after_matching(toks: &[Token], from: usize) -> usize
    ensures { drop result (lexemes toks.now) ≡ index_after_matching 0 (drop from (lexemes toks.now)) }
{
    let mut open: usize = 0;
    for i in from..toks.len() {
        if is_round_open_at(toks, i) {
            open += 1;
        } else if is_round_close_at(toks, i) {
            if open == 0 {
                return i + 1;
            }
            open -= 1;
        }
    }
    toks.len()
}

fn begins_expr(toks: &[Token], i: usize) -> bool
    ensures { result ≡ begins_expr (drop i (lexemes toks.now)) }
{
    matches!(
        terminal_at(toks, i),
        Some((
            Terminal::Plus | Terminal::Minus | Terminal::Star | Terminal::Compares(_),
            _
        ))
    )
}

fn relation(toks: &[Token], i: usize) -> Result<(Rel, usize), TextFault>
    ensures value { Reads ⊥ (λ r. r) (lexemes toks.now) result (relation (drop i (lexemes toks.now))) }
    ensures goes { Goes i (length toks.now) result }
{
    match terminal_at(toks, i) {
        Some((Terminal::Compares(relation), _)) => Ok((relation, i + 1)),
        _ => Err(syntax_fault_at(toks, i)),
    }
}

fn comparison<R: Reading>(
    reading: &R,
    toks: &[Token],
    from: usize,
    context: Context,
) -> Result<(R::Cond, usize), TextFault>
    ensures value { Reads R.memory R.cond (lexemes toks.now) result (comparison (R.actions reading.now).conds context (drop from (lexemes toks.now))) }
    ensures goes { Goes from (length toks.now) result }
{
    let (left, next) = parse_expr(reading, toks, from, context)?;
    let (relation, next) = relation(toks, next)?;
    let (right, end) = parse_expr(reading, toks, next, context)?;
    Ok((reading.compare(relation, left, right), end))
}

/// Reads the condition that begins at `from`, in the way that [`crate::parse_term`] reads a term.
#[cycle(conds)]
pub fn parse_cond<R: Reading>(
    reading: &R,
    toks: &[Token],
    from: usize,
    context: Context,
) -> Result<(R::Cond, usize), TextFault>
    ensures value { Reads R.memory R.cond (lexemes toks.now) result (parse_cond (R.actions reading.now).conds disjunction context (drop from (lexemes toks.now))) }
    ensures goes { Goes from (length toks.now) result }
{
    let (first, next) = conjunction(reading, toks, from, context)?;
    let mut list = reading.one_cond(first)?;
    let mut at = next;
    'parts: while is_at(toks, at, Terminal::Or) {
        let (more, next) = conjunction(reading, toks, at + 1, context)?;
        list = reading.more_conds(list, more)?;
        at = next;
    }
    with_end(reading.any(list), at)
}

#[cycle(conds)]
fn conjunction<R: Reading>(
    reading: &R,
    toks: &[Token],
    from: usize,
    context: Context,
) -> Result<(R::Cond, usize), TextFault>
    ensures value { Reads R.memory R.cond (lexemes toks.now) result (parse_cond (R.actions reading.now).conds conjunction context (drop from (lexemes toks.now))) }
    ensures goes { Goes from (length toks.now) result }
{
    let (first, next) = literal(reading, toks, from, context)?;
    let mut list = reading.one_cond(first)?;
    let mut at = next;
    'parts: while is_at(toks, at, Terminal::And) {
        let (more, next) = literal(reading, toks, at + 1, context)?;
        list = reading.more_conds(list, more)?;
        at = next;
    }
    with_end(reading.all(list), at)
}

#[cycle(conds)]
fn literal<R: Reading>(
    reading: &R,
    toks: &[Token],
    from: usize,
    context: Context,
) -> Result<(R::Cond, usize), TextFault>
    ensures value { Reads R.memory R.cond (lexemes toks.now) result (parse_cond (R.actions reading.now).conds literal context (drop from (lexemes toks.now))) }
    ensures goes { Goes from (length toks.now) result }
{
    let Some((terminal, at)) = terminal_at(toks, from) else {
        return Err(syntax_fault_at(toks, from));
    };
    let next = from + 1;
    match terminal {
        Terminal::True => Ok((reading.always(), next)),
        Terminal::False => Ok((reading.never(), next)),
        Terminal::Bang => negation(reading, toks, next, context, at),
        Terminal::Name => {
            if begins_expr(toks, next) {
                return comparison(reading, toks, from, context);
            }
            with_end(reading.named_cond(context, at, text_at(toks, from)), next)
        }
        Terminal::RoundOpen => {
            if begins_expr(toks, index_after_matching(toks, next)) {
                return comparison(reading, toks, from, context);
            }
            parenthesis(reading, toks, next, context, at)
        }
        Terminal::Zero | Terminal::One | Terminal::Number(_) | Terminal::WideNumber => {
            comparison(reading, toks, from, context)
        }
        _ => Err(TextFault::Syntax(at)),
    }
}

#[cycle(conds)]
fn negation<R: Reading>(
    reading: &R,
    toks: &[Token],
    from: usize,
    context: Context,
    at: usize,
) -> Result<(R::Cond, usize), TextFault>
    ensures value { Reads R.memory R.cond (lexemes toks.now) result (negation (R.actions reading.now).conds (parse_cond (R.actions reading.now).conds) context at (drop from (lexemes toks.now))) }
    ensures goes { Goes from (length toks.now) result }
{
    let inside = context.enter_not(at)?;
    let (operand, end) = literal(reading, toks, from, inside)?;
    with_end(reading.negated_cond(operand), end)
}

#[cycle(conds)]
fn parenthesis<R: Reading>(
    reading: &R,
    toks: &[Token],
    from: usize,
    context: Context,
    at: usize,
) -> Result<(R::Cond, usize), TextFault>
    ensures value { Reads R.memory R.cond (lexemes toks.now) result (parenthesis (R.actions reading.now).conds (parse_cond (R.actions reading.now).conds) context at (drop from (lexemes toks.now))) }
    ensures goes { Goes from (length toks.now) result }
{
    let inside = context.enter(at)?;
    let (cond, end) = parse_cond(reading, toks, from, inside)?;
    then_expect(toks, reading.enclosed_cond(cond), end, Terminal::RoundClose)
}
