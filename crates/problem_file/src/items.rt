//! The items of a problem file, read once by any reading.
ghost use Rattle.std.specs.Prelude.{◌≡◌, ◌+◌, ◌<◌, ◌≤◌, ℕ, length, drop, IfOk, IfSome};
ghost use Rattle.text_parser.specs.Lexemes.{lexemes, is_terminal};
ghost use Rattle.problem_file.specs.Tokens.{AreTokens};
ghost use Rattle.problem_file.specs.Items.{at_name, over_names, at_number, term_by, block_by, program_by, side_by};
ghost use Rattle.problem_file.specs.Items.{braced_by, middle_by, triple_by, sides_by, declaration_by, meaning_by};
ghost use Rattle.problem_file.specs.Items.{definition_by, prog_by, zero_by, hyp_by, setting_by, comparison_by};
ghost use Rattle.problem_file.specs.Items.{triple_goal_by, goal_by};
ghost use Rattle.problem_file.specs.Items.{item_by, items_by};
ghost use Rattle.problem_file.specs.Working.Walks.{measured_of, sides_of, triple_of, Represents, Steps, Does};
ghost use Rattle.problem_file.specs.Working.Followed.{Follows};

use crate::item_reading::{Comparison, Declared, ItemReading, Setting};
use crate::names::{lone_name, name_at, number_at};
use crate::phrase::{Measured, MeasuredSides, MeasuredTriple};
use text_parser::{
    Keyword, Separator, Terminal, TextFault, Token, expect, is_at, place_at, syntax_fault_at,
    terminal_at,
};

// Declares the name at an index, and returns the index after it.
fn read_name<R: ItemReading>(
    reading: &mut R,
    toks: &[Token],
    from: usize,
    what: Declared,
) -> Result<usize, TextFault>
    requires tokens { AreTokens toks.now }
    ensures value { Steps R.memory toks.now from result (R.state reading.new) (
        at_name ((R.actions).declare what (R.state reading.old))
        ) }
    ensures goes { IfOk result (λ end. (end ≡ from + 1) × (from < length toks.now)) }
{
    let name = name_at(toks, from)?;
    reading.declare(what, name).and(Ok(from + 1))
}

// Declares names separated by commas, and returns the index after them.
#[tactic(auto, using(text_parser::proofs::TokenPlaces::next_drop))]
fn read_names<R: ItemReading>(
    reading: &mut R,
    toks: &[Token],
    from: usize,
    what: Declared,
) -> Result<usize, TextFault>
    requires tokens { AreTokens toks.now }
    ensures value { Steps R.memory toks.now from result (R.state reading.new) (
        over_names ((R.actions).declare what) (R.state reading.old)
        ) }
    ensures goes { IfOk result (λ end. (from < end) × (end ≤ length toks.now)) }
{
    let mut at = from;
    'names: loop {
        at = read_name(reading, toks, at, what)?;
        if !is_at(toks, at, Terminal::Separator(Separator::Comma)) {
            return Ok(at);
        }
        at += 1;
    }
}

fn read_declaration<R: ItemReading>(
    reading: &mut R,
    toks: &[Token],
    from: usize,
    what: Declared,
) -> Result<usize, TextFault>
    requires tokens { AreTokens toks.now }
    ensures value { Steps R.memory toks.now from result (R.state reading.new) (
        declaration_by ((R.actions).declare what) (R.state reading.old)
        ) }
    ensures goes { IfOk result (λ end. (from < end) × (end ≤ length toks.now)) }
{
    let end = read_names(reading, toks, from, what)?;
    expect(toks, end, Terminal::Separator(Separator::Semicolon))
}

// Reads the token after a part, which must be this terminal. Returns the part and the index after the token, or the
// first fault.
fn expect_after<T: Copy>(
    part: Result<(T, usize), TextFault>,
    toks: &[Token],
    terminal: Terminal,
) -> Result<(T, usize), TextFault>
    ensures value { Follows (lexemes toks.now) (is_terminal terminal) part result }
    ensures goes { (from : ℕ) → IfOk part (λ x. (from < x.1) × (x.1 ≤ length toks.now)) → IfOk result (λ x. (from < x.1) × (x.1 ≤ length toks.now)) }
{
    let (value, end) = part?;
    let end = expect(toks, end, terminal)?;
    Ok((value, end))
}

fn term_at<R: ItemReading>(
    reading: &R,
    toks: &[Token],
    from: usize,
) -> Result<(Measured<R::Measure>, usize), TextFault>
    ensures value { Represents measured_of toks.now from result (term_by R.actions (R.state reading.now)) }
    ensures goes { IfOk result (λ x. (from < x.1) × (x.1 ≤ length toks.now)) }
{
    let (measure, end) = reading.measure_term(toks, from)?;
    Ok((Measured { measure, from }, end))
}

// Measures a condition in braces, and returns the index after the closing brace.
fn braced_at<R: ItemReading>(
    reading: &R,
    toks: &[Token],
    from: usize,
    compares: bool,
) -> Result<(Measured<R::Measure>, usize), TextFault>
    ensures value { Represents measured_of toks.now from result (braced_by R.actions (R.state reading.now) compares) }
    ensures goes { IfOk result (λ x. (from < x.1) × (x.1 ≤ length toks.now)) }
{
    let from = expect(toks, from, Terminal::Separator(Separator::CurlyOpen))?;
    let (measure, end) = reading.measure_cond(toks, from, compares)?;
    let end = expect(toks, end, Terminal::Separator(Separator::CurlyClose))?;
    Ok((Measured { measure, from }, end))
}

// Returns the measure of the program that a side names, if the side is only a program's name.
fn program_at<R: ItemReading>(reading: &R, toks: &[Token], from: usize) -> Option<R::Measure>
    ensures value { result ≡ program_by R.actions (R.state reading.now) (drop from (lexemes toks.now)) }
    ensures within { IfSome result (λ m. from < length toks.now) }
{
    match lone_name(toks, from) {
        Some(name) => reading.measure_program(name),
        None => None,
    }
}

// Measures a side of a goal: the name of a program, or a term.
#[tactic(auto, using(text_parser::proofs::TokenPlaces::next_drop))]
fn side_at<R: ItemReading>(
    reading: &R,
    toks: &[Token],
    from: usize,
) -> Result<(Measured<R::Measure>, usize), TextFault>
    ensures value { Represents measured_of toks.now from result (side_by R.actions (R.state reading.now)) }
    ensures goes { IfOk result (λ x. (from < x.1) × (x.1 ≤ length toks.now)) }
{
    match program_at(reading, toks, from) {
        Some(measure) => Ok((Measured { measure, from }, from + 1)),
        None => term_at(reading, toks, from),
    }
}

// Measures the middle part of a triple: a side of a goal, or the term of a hypothesis.
fn middle_at<R: ItemReading>(
    reading: &R,
    toks: &[Token],
    from: usize,
    in_goal: bool,
) -> Result<(Measured<R::Measure>, usize), TextFault>
    ensures value { Represents measured_of toks.now from result (middle_by R.actions (R.state reading.now) in_goal) }
    ensures goes { IfOk result (λ x. (from < x.1) × (x.1 ≤ length toks.now)) }
{
    if in_goal {
        side_at(reading, toks, from)
    } else {
        term_at(reading, toks, from)
    }
}

fn triple_at<R: ItemReading>(
    reading: &R,
    toks: &[Token],
    from: usize,
    in_goal: bool,
) -> Result<(MeasuredTriple<R::Measure>, usize), TextFault>
    ensures value { Represents triple_of toks.now from result (triple_by R.actions (R.state reading.now) in_goal) }
    ensures goes { IfOk result (λ x. (from < x.1) × (x.1 ≤ length toks.now)) }
{
    let (pre, end) = braced_at(reading, toks, from, in_goal)?;
    let (body, end) = middle_at(reading, toks, end, in_goal)?;
    let (post, end) = braced_at(reading, toks, end, in_goal)?;
    Ok((MeasuredTriple { pre, body, post }, end))
}

fn sides_at<R: ItemReading>(
    reading: &R,
    toks: &[Token],
    from: usize,
) -> Result<(MeasuredSides<R::Measure>, usize), TextFault>
    ensures value { Represents sides_of toks.now from result (sides_by R.actions (R.state reading.now)) }
    ensures goes { IfOk result (λ x. (from < x.1) × (x.1 ≤ length toks.now)) }
{
    let left = side_at(reading, toks, from);
    let (left, end) = expect_after(left, toks, Terminal::Separator(Separator::Comma))?;
    let (right, end) = side_at(reading, toks, end)?;
    Ok((MeasuredSides { left, right }, end))
}

fn block_at<R: ItemReading>(
    reading: &R,
    toks: &[Token],
    from: usize,
) -> Result<(Measured<R::Measure>, usize), TextFault>
    ensures value { Represents measured_of toks.now from result (block_by R.actions (R.state reading.now)) }
    ensures goes { IfOk result (λ x. (from < x.1) × (x.1 ≤ length toks.now)) }
{
    let (measure, end) = reading.measure_block(toks, from)?;
    Ok((Measured { measure, from }, end))
}

// Measures a term between `=` and a semicolon.
fn meaning_at<R: ItemReading>(
    reading: &R,
    toks: &[Token],
    from: usize,
) -> Result<(Measured<R::Measure>, usize), TextFault>
    ensures value { Represents measured_of toks.now from result (meaning_by R.actions (R.state reading.now)) }
    ensures goes { IfOk result (λ x. (from < x.1) × (x.1 ≤ length toks.now)) }
{
    let from = expect(toks, from, Terminal::Separator(Separator::Equals))?;
    let term = term_at(reading, toks, from);
    expect_after(term, toks, Terminal::Separator(Separator::Semicolon))
}

fn read_definition<R: ItemReading>(
    reading: &mut R,
    toks: &[Token],
    from: usize,
    at: usize,
) -> Result<usize, TextFault>
    requires tokens { AreTokens toks.now }
    ensures value { Steps R.memory toks.now from result (R.state reading.new) (
        definition_by R.actions (R.state reading.old) at
        ) }
    ensures goes { IfOk result (λ end. (from < end) × (end ≤ length toks.now)) }
{
    let name = name_at(toks, from)?;
    reading.check_new(name)?;
    let (term, end) = meaning_at(reading, toks, from + 1)?;
    reading.define(toks, at, name, term).and(Ok(end))
}

fn read_prog<R: ItemReading>(
    reading: &mut R,
    toks: &[Token],
    from: usize,
    at: usize,
) -> Result<usize, TextFault>
    requires tokens { AreTokens toks.now }
    ensures value { Steps R.memory toks.now from result (R.state reading.new) (
        prog_by R.actions (R.state reading.old) at
        ) }
    ensures goes { IfOk result (λ end. (from < end) × (end ≤ length toks.now)) }
{
    let name = name_at(toks, from)?;
    reading.check_new(name)?;
    let (block, end) = block_at(reading, toks, from + 1)?;
    reading.check_numbers(toks, from, end)?;
    reading.define_prog(toks, at, name, block).and(Ok(end))
}

fn read_zero<R: ItemReading>(
    reading: &mut R,
    toks: &[Token],
    from: usize,
    at: usize,
) -> Result<usize, TextFault>
    ensures value { Steps R.memory toks.now from result (R.state reading.new) (
        zero_by R.actions (R.state reading.old) at
        ) }
    ensures goes { IfOk result (λ end. (from < end) × (end ≤ length toks.now)) }
{
    let term = term_at(reading, toks, from);
    let equated = expect_after(term, toks, Terminal::Separator(Separator::Equals));
    let zero = expect_after(equated, toks, Terminal::Zero);
    let (term, end) = expect_after(zero, toks, Terminal::Separator(Separator::Semicolon))?;
    reading.state_zero(toks, at, term).and(Ok(end))
}

fn read_hyp<R: ItemReading>(
    reading: &mut R,
    toks: &[Token],
    from: usize,
    at: usize,
) -> Result<usize, TextFault>
    ensures value { Steps R.memory toks.now from result (R.state reading.new) (
        hyp_by R.actions (R.state reading.old) at
        ) }
    ensures goes { IfOk result (λ end. (from < end) × (end ≤ length toks.now)) }
{
    reading.begin_hyp(at)?;
    if !is_at(toks, from, Terminal::Keyword(Keyword::Triple)) {
        return read_zero(reading, toks, from, at);
    }
    let triple = triple_at(reading, toks, from + 1, false);
    let (triple, end) = expect_after(triple, toks, Terminal::Separator(Separator::Semicolon))?;
    reading.state_triple(toks, at, triple).and(Ok(end))
}

// Sets a setting to the number at an index, and returns the index after it.
fn read_number<R: ItemReading>(
    reading: &mut R,
    toks: &[Token],
    from: usize,
    what: Setting,
) -> Result<usize, TextFault>
    ensures value { Steps R.memory toks.now from result (R.state reading.new) (
        at_number ((R.actions).set what (R.state reading.old))
        ) }
    ensures goes { IfOk result (λ end. (end ≡ from + 1) × (from < length toks.now)) }
{
    let number = number_at(toks, from)?;
    let place = place_at(toks, from);
    reading.set(what, place, number).and(Ok(from + 1))
}

fn read_setting<R: ItemReading>(
    reading: &mut R,
    toks: &[Token],
    from: usize,
    at: usize,
    what: Setting,
) -> Result<usize, TextFault>
    ensures value { Steps R.memory toks.now from result (R.state reading.new) (
        setting_by R.actions what (R.state reading.old) at
        ) }
    ensures goes { IfOk result (λ end. (from < end) × (end ≤ length toks.now)) }
{
    reading.begin_setting(what, at)?;
    let end = read_number(reading, toks, from, what)?;
    expect(toks, end, Terminal::Separator(Separator::Semicolon))
}

fn read_comparison<R: ItemReading>(
    reading: &mut R,
    toks: &[Token],
    from: usize,
    at: usize,
    comparison: Comparison,
) -> Result<usize, TextFault>
    ensures value { Steps R.memory toks.now from result (R.state reading.new) (
        comparison_by R.actions comparison (R.state reading.old) at
        ) }
    ensures goes { IfOk result (λ end. (from < end) × (end ≤ length toks.now)) }
{
    let sides = sides_at(reading, toks, from);
    let (sides, end) = expect_after(sides, toks, Terminal::Separator(Separator::Semicolon))?;
    reading.check_numbers(toks, from, end)?;
    reading.pose_sides(toks, at, comparison, sides).and(Ok(end))
}

fn read_triple_goal<R: ItemReading>(
    reading: &mut R,
    toks: &[Token],
    from: usize,
    at: usize,
) -> Result<usize, TextFault>
    ensures value { Steps R.memory toks.now from result (R.state reading.new) (
        triple_goal_by R.actions (R.state reading.old) at
        ) }
    ensures goes { IfOk result (λ end. (from < end) × (end ≤ length toks.now)) }
{
    let triple = triple_at(reading, toks, from, true);
    let (triple, end) = expect_after(triple, toks, Terminal::Separator(Separator::Semicolon))?;
    reading.check_numbers(toks, from, end)?;
    reading.pose_triple(toks, at, triple).and(Ok(end))
}

fn read_goal<R: ItemReading>(
    reading: &mut R,
    toks: &[Token],
    from: usize,
    at: usize,
) -> Result<usize, TextFault>
    ensures value { Steps R.memory toks.now from result (R.state reading.new) (
        goal_by R.actions (R.state reading.old) at
        ) }
    ensures goes { IfOk result (λ end. (from < end) × (end ≤ length toks.now)) }
{
    reading.begin_goal(at)?;
    match terminal_at(toks, from) {
        Some((Terminal::Keyword(Keyword::Equal), _)) => {
            read_comparison(reading, toks, from + 1, at, Comparison::Equal)
        }
        Some((Terminal::Keyword(Keyword::Below), _)) => {
            read_comparison(reading, toks, from + 1, at, Comparison::Below)
        }
        Some((Terminal::Keyword(Keyword::Triple), _)) => read_triple_goal(
            reading,
            toks,
            from + 1,
            at,
        ),
        _ => Err(syntax_fault_at(toks, from)),
    }
}

fn read_item<R: ItemReading>(
    reading: &mut R,
    toks: &[Token],
    from: usize,
) -> Result<usize, TextFault>
    requires tokens { AreTokens toks.now }
    ensures value { Steps R.memory toks.now from result (R.state reading.new) (
        item_by R.actions (R.state reading.old)
        ) }
    ensures goes { IfOk result (λ end. (from < end) × (end ≤ length toks.now)) }
{
    let Some((terminal, at)) = terminal_at(toks, from) else {
        return Err(syntax_fault_at(toks, from));
    };
    let next = from + 1;
    match terminal {
        Terminal::Keyword(Keyword::Test) => read_declaration(reading, toks, next, Declared::Test),
        Terminal::Keyword(Keyword::Action) => {
            read_declaration(reading, toks, next, Declared::Action)
        }
        Terminal::Keyword(Keyword::Var) => read_declaration(reading, toks, next, Declared::Var),
        Terminal::Keyword(Keyword::Term) => read_definition(reading, toks, next, at),
        Terminal::Keyword(Keyword::Prog) => read_prog(reading, toks, next, at),
        Terminal::Keyword(Keyword::Hyp) => read_hyp(reading, toks, next, at),
        Terminal::Keyword(Keyword::Rounds) => {
            read_setting(reading, toks, next, at, Setting::Rounds)
        }
        Terminal::Keyword(Keyword::Width) => read_setting(reading, toks, next, at, Setting::Width),
        Terminal::Keyword(Keyword::Goal) => read_goal(reading, toks, next, at),
        _ => Err(syntax_fault_at(toks, from)),
    }
}

// Reads all items, or up to the first item with a fault. A `Syntax` after the last token has the place `usize::MAX`.
pub(crate) fn read_items<R: ItemReading>(reading: &mut R, toks: &[Token]) -> Result<(), TextFault>
    requires tokens { AreTokens toks.now }
    ensures { Does R.memory result (R.state reading.new) (
        items_by R.actions (R.state reading.old) (lexemes toks.now)
        ) }
{
    let mut at = 0;
    'items: while at < toks.len() {
        at = read_item(reading, toks, at)?;
    }
    Ok(())
}
