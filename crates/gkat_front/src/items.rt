//! One traversal of the items of a text for all readings.
ghost use Rattle.std.specs.Prelude.{◌≡◌, ◌+◌, ◌<◌, ◌≤◌, length, drop, IfOk};
ghost use Rattle.text_parser.specs.Lexemes.{lexemes};
ghost use Rattle.text_parser.specs.Parsed.{Reads, Goes};
ghost use Rattle.problem_file.specs.Items.{at_name, over_names, declaration_by};
ghost use Rattle.problem_file.specs.Tokens.{AreTokens};
ghost use Rattle.problem_file.specs.Working.Walks.{Steps, Does};
ghost use Rattle.gkat_front.specs.Items.{sides_by, equal_by, item_by, items_by};
ghost use Rattle.gkat_front.specs.Working.Declarations.{declare_by};

use crate::item_reading::{GkatDeclared, GkatItemReading};
use problem_file::name_at;
use text_parser::{
    Keyword, Separator, Terminal, TextFault, Token, expect, is_at, syntax_fault_at, terminal_at,
};

// Declares the name at an index, and returns the index after it.
#[tactic(auto, using(text_parser::proofs::TokenPlaces::next_drop))]
fn read_name<R: GkatItemReading>(
    reading: &mut R,
    toks: &[Token],
    from: usize,
    what: GkatDeclared,
) -> Result<usize, TextFault>
    requires tokens { AreTokens toks.now }
    ensures value { Steps R.memory toks.now from result (R.state reading.new) (at_name (declare_by R.actions what (R.state reading.old))) }
    ensures goes { IfOk result (λ end. (end ≡ from + 1) × (from < length toks.now)) }
{
    let name = name_at(toks, from)?;
    reading.declare(what, name).and(Ok(from + 1))
}

// Declares names separated by commas.
#[tactic(auto, using(text_parser::proofs::TokenPlaces::next_drop))]
fn read_names<R: GkatItemReading>(
    reading: &mut R,
    toks: &[Token],
    from: usize,
    what: GkatDeclared,
) -> Result<usize, TextFault>
    requires tokens { AreTokens toks.now }
    ensures value { Steps R.memory toks.now from result (R.state reading.new) (over_names (declare_by R.actions what) (R.state reading.old)) }
    ensures goes { IfOk result (λ end. (from < end) × (end ≤ length toks.now)) }
{
    let mut at = from;
    'names: loop {
        at = read_name(reading, toks, at, what)?;
        if !is_at(toks, at, Terminal::Separator(Separator::Comma)) {
            return Ok(at);
        }
        at += 1;
    }
}

fn read_declaration<R: GkatItemReading>(
    reading: &mut R,
    toks: &[Token],
    from: usize,
    what: GkatDeclared,
) -> Result<usize, TextFault>
    requires tokens { AreTokens toks.now }
    ensures value { Steps R.memory toks.now from result (R.state reading.new) (declaration_by (declare_by R.actions what) (R.state reading.old)) }
    ensures goes { IfOk result (λ end. (from < end) × (end ≤ length toks.now)) }
{
    let end = read_names(reading, toks, from, what)?;
    expect(toks, end, Terminal::Separator(Separator::Semicolon))
}

// Reads two expressions separated by a comma.
fn read_sides<R: GkatItemReading>(
    reading: &R,
    toks: &[Token],
    from: usize,
) -> Result<((R::Expr, R::Expr), usize), TextFault>
    ensures value { Reads R.memory (λ x. (R.expr x.0, R.expr x.1)) (lexemes toks.now) result (sides_by R.actions (R.state reading.now) (drop from (lexemes toks.now))) }
    ensures goes { Goes from (length toks.now) result }
{
    let (left, end) = reading.read_expr(toks, from)?;
    let end = expect(toks, end, Terminal::Separator(Separator::Comma))?;
    let (right, end) = reading.read_expr(toks, end)?;
    Ok(((left, right), end))
}

fn read_equal<R: GkatItemReading>(
    reading: &mut R,
    toks: &[Token],
    from: usize,
    at: usize,
) -> Result<usize, TextFault>
    ensures value { Steps R.memory toks.now from result (R.state reading.new) (λ ts. equal_by R.actions (R.state reading.old) at ts) }
    ensures goes { IfOk result (λ end. (from < end) × (end ≤ length toks.now)) }
{
    reading.begin_equal(at)?;
    let ((left, right), end) = read_sides(reading, toks, from)?;
    let end = expect(toks, end, Terminal::Separator(Separator::Semicolon))?;
    reading.pose(at, left, right).and(Ok(end))
}

#[tactic(auto, using(text_parser::proofs::TokenPlaces::next_drop))]
fn read_item<R: GkatItemReading>(
    reading: &mut R,
    toks: &[Token],
    from: usize,
) -> Result<usize, TextFault>
    requires tokens { AreTokens toks.now }
    ensures value { Steps R.memory toks.now from result (R.state reading.new) (item_by R.actions (R.state reading.old)) }
    ensures goes { IfOk result (λ end. (from < end) × (end ≤ length toks.now)) }
{
    let Some((terminal, at)) = terminal_at(toks, from) else {
        return Err(syntax_fault_at(toks, from));
    };
    match terminal {
        Terminal::Keyword(Keyword::Test) => {
            read_declaration(reading, toks, from + 1, GkatDeclared::Test)
        }
        Terminal::Keyword(Keyword::Action) => {
            read_declaration(reading, toks, from + 1, GkatDeclared::Action)
        }
        Terminal::Keyword(Keyword::Equal) => read_equal(reading, toks, from + 1, at),
        _ => Err(TextFault::Syntax(at)),
    }
}

// Reads all items, up to the first fault. A `Syntax` after the last token has the place `usize::MAX`.
pub(crate) fn read_items<R: GkatItemReading>(
    reading: &mut R,
    toks: &[Token],
) -> Result<(), TextFault>
    requires tokens { AreTokens toks.now }
    ensures { Does R.memory result (R.state reading.new) (items_by R.actions (R.state reading.old) (lexemes toks.now)) }
{
    let mut at = 0;
    'items: while at < toks.len() {
        at = read_item(reading, toks, at)?;
    }
    Ok(())
}
