//! The expression parser.
ghost use Rattle.std.specs.Prelude.{◌≡◌, ℕ, ◌+◌, ◌<◌, ◌≤◌, length, drop, IfOk};
ghost use Rattle.text_parser.specs.Lexemes.{lexemes};
ghost use Rattle.text_parser.specs.Parsed.{Reads, Goes};
ghost use Rattle.text_parser.specs.Exprs.{parse_expr, sums, products, factor, operator_at, parenthesis};

use crate::fault::TextFault;
use crate::reading::{Context, Operator, Reading, with_end};
use crate::terminal::{
    Terminal, is_at, is_sum_at, syntax_fault_at, terminal_at, text_at, then_expect,
};
use crate::token::Token;

fn operator_at(toks: &[Token], i: usize) -> Operator
    ensures { result ≡ operator_at (drop i (lexemes toks.now)) }
{
    match terminal_at(toks, i) {
        Some((Terminal::Minus, _)) => Operator::Subtract,
        _ => Operator::Add,
    }
}

/// Reads the expression that begins at `from`, in the way that [`crate::parse_term`] reads a term.
#[cycle(exprs)]
pub fn parse_expr<R: Reading>(
    reading: &R,
    toks: &[Token],
    from: usize,
    context: Context,
) -> Result<(R::Expr, usize), TextFault>
    ensures value { Reads R.memory R.expr (lexemes toks.now) result (parse_expr (R.actions reading.now).conds.exprs sums context (drop from (lexemes toks.now))) }
    ensures goes { Goes from (length toks.now) result }
{
    let (first, next) = product(reading, toks, from, context)?;
    let mut all = first;
    let mut at = next;
    'parts: while is_sum_at(toks, at) {
        let operator = operator_at(toks, at);
        let (more, next) = product(reading, toks, at + 1, context)?;
        all = reading.join(operator, all, more)?;
        at = next;
    }
    Ok((all, at))
}

#[cycle(exprs)]
fn product<R: Reading>(
    reading: &R,
    toks: &[Token],
    from: usize,
    context: Context,
) -> Result<(R::Expr, usize), TextFault>
    ensures value { Reads R.memory R.expr (lexemes toks.now) result (parse_expr (R.actions reading.now).conds.exprs products context (drop from (lexemes toks.now))) }
    ensures goes { Goes from (length toks.now) result }
{
    let (first, next) = factor(reading, toks, from, context)?;
    let mut all = first;
    let mut at = next;
    'parts: while is_at(toks, at, Terminal::Star) {
        let (more, next) = factor(reading, toks, at + 1, context)?;
        all = reading.join(Operator::Multiply, all, more)?;
        at = next;
    }
    Ok((all, at))
}

#[cycle(exprs)]
fn factor<R: Reading>(
    reading: &R,
    toks: &[Token],
    from: usize,
    context: Context,
) -> Result<(R::Expr, usize), TextFault>
    ensures value { Reads R.memory R.expr (lexemes toks.now) result (parse_expr (R.actions reading.now).conds.exprs factor context (drop from (lexemes toks.now))) }
    ensures goes { Goes from (length toks.now) result }
{
    let Some((terminal, at)) = terminal_at(toks, from) else {
        return Err(syntax_fault_at(toks, from));
    };
    let next = from + 1;
    match terminal {
        Terminal::Zero => with_end(reading.number(context, at, 0), next),
        Terminal::One => with_end(reading.number(context, at, 1), next),
        Terminal::Number(n) => with_end(reading.number(context, at, n), next),
        Terminal::WideNumber => Err(TextFault::NumberTooWide(at)),
        Terminal::Name => with_end(reading.variable(context, at, text_at(toks, from)), next),
        Terminal::RoundOpen => parenthesis(reading, toks, next, context, at),
        _ => Err(TextFault::Syntax(at)),
    }
}

#[cycle(exprs)]
fn parenthesis<R: Reading>(
    reading: &R,
    toks: &[Token],
    from: usize,
    context: Context,
    at: usize,
) -> Result<(R::Expr, usize), TextFault>
    ensures value { Reads R.memory R.expr (lexemes toks.now) result (parenthesis (R.actions reading.now).conds.exprs (parse_expr (R.actions reading.now).conds.exprs) context at (drop from (lexemes toks.now))) }
    ensures goes { Goes from (length toks.now) result }
{
    let inside = context.enter(at)?;
    let (expr, end) = parse_expr(reading, toks, from, inside)?;
    then_expect(toks, reading.enclosed_expr(expr), end, Terminal::RoundClose)
}
