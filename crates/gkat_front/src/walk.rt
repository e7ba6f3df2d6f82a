//! One traversal of expressions for all readings.
ghost use Rattle.std.specs.Prelude.{◌≡◌, length, drop};
ghost use Rattle.text_parser.specs.Lexemes.{lexemes};
ghost use Rattle.text_parser.specs.Parsed.{Reads, Goes};
ghost use Rattle.gkat_front.specs.GkatWalks.{guard_by, tested_by, round_by, unit_by, factor_by, product_by, whole, parse_gkat};

use crate::gkat_reading::GkatReading;
use text_parser::{
    Separator, Terminal, TextFault, Token, expect, is_at, place_at, syntax_fault_at, terminal_at,
    text_at, with_end,
};
use while_lang::enter;

// Reads a condition in brackets.
fn guard<R: GkatReading>(
    reading: &R,
    toks: &[Token],
    from: usize,
    depth: usize,
) -> Result<(R::Guard, usize), TextFault>
    ensures value { Reads R.memory R.guard (lexemes toks.now) result (guard_by (R.actions reading.now) depth (drop from (lexemes toks.now))) }
    ensures goes { Goes from (length toks.now) result }
{
    let next = expect(toks, from, Terminal::SquareOpen)?;
    let inside = enter(depth, place_at(toks, from))?;
    let (cond, end) = reading.read_cond(toks, next, inside)?;
    let end = expect(toks, end, Terminal::SquareClose)?;
    Ok((cond, end))
}

// Reads a condition in brackets as an expression.
fn tested<R: GkatReading>(
    reading: &R,
    toks: &[Token],
    from: usize,
    depth: usize,
) -> Result<(R::Expr, usize), TextFault>
    ensures value { Reads R.memory R.expr (lexemes toks.now) result (tested_by (R.actions reading.now) depth (drop from (lexemes toks.now))) }
    ensures goes { Goes from (length toks.now) result }
{
    let (cond, end) = guard(reading, toks, from, depth)?;
    Ok((reading.tested(cond), end))
}

// Reads an expression in parentheses.
#[cycle(exprs)]
#[tactic(auto, using(text_parser::proofs::TokenPlaces::next_drop))]
fn round<R: GkatReading>(
    reading: &R,
    toks: &[Token],
    from: usize,
    depth: usize,
) -> Result<(R::Expr, usize), TextFault>
    ensures value { Reads R.memory R.expr (lexemes toks.now) result (round_by (parse_gkat (R.actions reading.now)) depth (drop from (lexemes toks.now))) }
    ensures goes { Goes from (length toks.now) result }
{
    let next = expect(toks, from, Terminal::RoundOpen)?;
    let inside = enter(depth, place_at(toks, from))?;
    let (expr, end) = read_expr(reading, toks, next, inside)?;
    let end = expect(toks, end, Terminal::RoundClose)?;
    Ok((expr, end))
}

#[cycle(exprs)]
#[tactic(auto, using(text_parser::proofs::TokenPlaces::next_drop))]
fn unit<R: GkatReading>(
    reading: &R,
    toks: &[Token],
    from: usize,
    depth: usize,
) -> Result<(R::Expr, usize), TextFault>
    ensures value { Reads R.memory R.expr (lexemes toks.now) result (unit_by (R.actions reading.now) (parse_gkat (R.actions reading.now)) depth (drop from (lexemes toks.now))) }
    ensures goes { Goes from (length toks.now) result }
{
    let Some((terminal, at)) = terminal_at(toks, from) else {
        return Err(syntax_fault_at(toks, from));
    };
    match terminal {
        Terminal::Zero => Ok((reading.never(), from + 1)),
        Terminal::One => Ok((reading.always(), from + 1)),
        Terminal::Name => with_end(reading.named(at, text_at(toks, from)), from + 1),
        Terminal::SquareOpen => tested(reading, toks, from, depth),
        Terminal::RoundOpen => round(reading, toks, from, depth),
        _ => Err(TextFault::Syntax(at)),
    }
}

// Reads a unit, or a loop over a unit.
#[cycle(exprs)]
#[tactic(auto, using(text_parser::proofs::TokenPlaces::next_drop))]
fn factor<R: GkatReading>(
    reading: &R,
    toks: &[Token],
    from: usize,
    depth: usize,
) -> Result<(R::Expr, usize), TextFault>
    ensures value { Reads R.memory R.expr (lexemes toks.now) result (factor_by (R.actions reading.now) (parse_gkat (R.actions reading.now)) depth (drop from (lexemes toks.now))) }
    ensures goes { Goes from (length toks.now) result }
{
    let (body, end) = unit(reading, toks, from, depth)?;
    if !is_at(toks, end, Terminal::Separator(Separator::Caret)) {
        return Ok((body, end));
    }
    let (cond, end) = guard(reading, toks, end + 1, depth)?;
    with_end(reading.repeat(cond, body), end)
}

// Reads factors separated by dots.
#[cycle(exprs)]
#[tactic(auto, using(crate::proofs::GkatSteps::gkat_step, text_parser::proofs::TokenPlaces::next_drop))]
fn product<R: GkatReading>(
    reading: &R,
    toks: &[Token],
    from: usize,
    depth: usize,
) -> Result<(R::Expr, usize), TextFault>
    ensures value { Reads R.memory R.expr (lexemes toks.now) result (product_by (R.actions reading.now) (parse_gkat (R.actions reading.now)) depth (drop from (lexemes toks.now))) }
    ensures goes { Goes from (length toks.now) result }
{
    let (only, next) = factor(reading, toks, from, depth)?;
    let mut list = reading.first(only)?;
    let mut at = next;
    'factors: while is_at(toks, at, Terminal::Dot) {
        let (more, next) = factor(reading, toks, at + 1, depth)?;
        list = reading.more(list, more)?;
        at = next;
    }
    with_end(reading.product(list), at)
}

// Reads the expression that begins at `from`, with `depth` open constructs around it. Returns its value and the index
// after it. Otherwise returns the first fault in the text: `Syntax` at the token that cannot occur there (the place
// `usize::MAX` after the last token), `TooDeep` at the token that exceeds `MAX_OPEN` open constructs, or the fault with
// which the reading refuses a part.
#[cycle(exprs)]
#[tactic(auto, using(crate::proofs::GkatSteps::gkat_step, text_parser::proofs::TokenPlaces::next_drop))]
pub(crate) fn read_expr<R: GkatReading>(
    reading: &R,
    toks: &[Token],
    from: usize,
    depth: usize,
) -> Result<(R::Expr, usize), TextFault>
    ensures value { Reads R.memory R.expr (lexemes toks.now) result (parse_gkat (R.actions reading.now) whole depth (drop from (lexemes toks.now))) }
    ensures goes { Goes from (length toks.now) result }
{
    let (left, end) = product(reading, toks, from, depth)?;
    if !is_at(toks, end, Terminal::Plus) {
        return Ok((left, end));
    }
    let (cond, end) = guard(reading, toks, end + 1, depth)?;
    let (right, end) = product(reading, toks, end, depth)?;
    with_end(reading.choice(cond, left, right), end)
}
