//! One traversal of chains for all readings.
ghost use Rattle.std.specs.Prelude.{◌≡◌, ◌≤◌, ◌<◌, length, drop, IfOk};
ghost use Rattle.std.specs.Option.{option_map};
ghost use Rattle.text_parser.specs.Lexemes.{lexemes};
ghost use Rattle.text_parser.specs.Parsed.{Reads, Goes};
ghost use Rattle.chain_proofs.specs.ChainWalks.{argument, parts_by, path_by, rule_by, whole_chain, lines_after, braces_by, inner_by, line_by, parse_chain};
ghost use Rattle.chain_proofs.specs.Working.Reading.{reason_of};

use crate::chain_reading::ChainReading;
use crate::words::{expect_word, has_inner, has_number, is_word_at, rule_name_at};
use problem_file::number_at;
use text_parser::{Separator, Terminal, TextFault, Token, expect, is_at, place_at};
use while_lang::enter;

// A rule, its path, and whether it requires an inner chain.
#[derive(Drop)]
struct RuleReason<R, P> {
    rule: R,
    path: P,
    inner: bool,
}

// Returns the number after the name of a rule, or 0 without one, and the index after it.
fn argument(toks: &[Token], from: usize, name: &str) -> Result<(u64, usize), TextFault>
    ensures value { Reads ⊥ (λ n. n) (lexemes toks.now) result (argument name.now (drop from (lexemes toks.now))) }
    ensures goes { IfOk result (λ x. from ≤ x.1) }
    ensures within { from ≤ length toks.now → IfOk result (λ x. x.1 ≤ length toks.now) }
{
    if !has_number(name) {
        return Ok((0, from));
    }
    let number = number_at(toks, from)?;
    Ok((number, from + 1))
}

// Reads the parts that continue a path, and returns the path and the index after it.
fn parts<R: ChainReading>(
    reading: &R,
    toks: &[Token],
    from: usize,
    so_far: R::Path,
) -> Result<(R::Path, usize), TextFault>
    ensures value { Reads R.memory R.path (lexemes toks.now) result (parts_by (R.actions reading.now) (R.path so_far) (drop from (lexemes toks.now))) }
    ensures goes { IfOk result (λ x. from ≤ x.1) }
    ensures within { from ≤ length toks.now → IfOk result (λ x. x.1 ≤ length toks.now) }
{
    let mut path = so_far;
    let mut at = from;
    'parts: while is_at(toks, at, Terminal::Dot) {
        let number = number_at(toks, at + 1)?;
        path = reading.part(path, number)?;
        at += 2;
    }
    Ok((path, at))
}

// Reads the path of a line and the index after it. Without a path, the place is the whole term.
fn path<R: ChainReading>(
    reading: &R,
    toks: &[Token],
    from: usize,
) -> Result<(R::Path, usize), TextFault>
    ensures value { Reads R.memory R.path (lexemes toks.now) result (path_by (R.actions reading.now) (drop from (lexemes toks.now))) }
    ensures goes { IfOk result (λ x. from ≤ x.1) }
    ensures within { from ≤ length toks.now → IfOk result (λ x. x.1 ≤ length toks.now) }
{
    if !is_word_at(toks, from, "at") {
        return Ok((reading.whole(), from));
    }
    let first = number_at(toks, from + 1)?;
    let whole = reading.whole();
    let path = reading.part(whole, first)?;
    parts(reading, toks, from + 2, path)
}

// Reads the rule at an index. Returns the rule, its path, whether it requires an inner chain, and the index after it.
fn rule_and_place<R: ChainReading>(
    reading: &R,
    toks: &[Token],
    from: usize,
) -> Result<(RuleReason<R::Rule, R::Path>, usize), TextFault>
    ensures value { Reads R.memory (reason_of R.rule R.path) (lexemes toks.now) result (rule_by (R.actions reading.now) (drop from (lexemes toks.now))) }
    ensures goes { Goes from (length toks.now) result }
{
    let (at, name) = rule_name_at(toks, from)?;
    let (number, end) = argument(toks, from + 1, name)?;
    let rule = reading.read_rule(at, name, number)?;
    let (path, end) = path(reading, toks, end)?;
    let inner = has_inner(name);
    Ok((RuleReason { rule, path, inner }, end))
}

// Reads the chain that begins at `from`, with `depth` open constructs around it and the state `known` after the terms
// before it. Returns the value of the chain, the state after all terms, and the index after it. Otherwise returns the
// first fault in the text: `Syntax` at the token that cannot occur there (the place `usize::MAX` after the last token),
// `TooDeep` at the token that exceeds `MAX_OPEN` open constructs, `NumberTooWide` at a number of 2^64 or more, or the
// fault with which the reading refuses a part.
#[cycle(chains)]
pub(crate) fn read_chain<R: ChainReading>(
    reading: &R,
    toks: &[Token],
    from: usize,
    depth: usize,
    known: R::Size,
) -> Result<((R::Chain, R::Size), usize), TextFault>
    ensures value { Reads R.memory (λ x. (R.chain x.0, R.size x.1)) (lexemes toks.now) result (parse_chain (R.actions reading.now) (whole_chain (R.size known)) depth (drop from (lexemes toks.now))) }
    ensures goes { Goes from (length toks.now) result }
{
    let ((term, size), next) = reading.read_term(toks, from, depth, known)?;
    let mut list = reading.first(term);
    let mut all = size;
    let mut at = next;
    'lines: while is_at(toks, at, Terminal::Separator(Separator::Equals)) {
        let ((more, size), next) = line(reading, toks, at + 1, depth, list, all)?;
        list = more;
        all = size;
        at = next;
    }
    Ok(((list, all), at))
}

// Reads one line that continues a chain, starting after its `=`.
#[cycle(chains)]
fn line<R: ChainReading>(
    reading: &R,
    toks: &[Token],
    from: usize,
    depth: usize,
    list: R::Chain,
    known: R::Size,
) -> Result<((R::Chain, R::Size), usize), TextFault>
    ensures value { Reads R.memory (λ x. (R.chain x.0, R.size x.1)) (lexemes toks.now) result (line_by (R.actions reading.now) (parse_chain (R.actions reading.now)) (R.chain list) (R.size known) depth (drop from (lexemes toks.now))) }
    ensures goes { Goes from (length toks.now) result }
{
    let ((next, size), end) = reading.read_term(toks, from, depth, known)?;
    let end = expect_word(toks, end, "by")?;
    let (RuleReason { rule, path, inner }, end) = rule_and_place(reading, toks, end)?;
    let ((inner, size), end) = inner_chain(reading, toks, end, depth, inner, size)?;
    let end = expect(toks, end, Terminal::Separator(Separator::Semicolon))?;
    Ok(((reading.line(list, next, rule, path, inner)?, size), end))
}

// Reads the inner chain of a line, if the rule requires one.
#[cycle(chains)]
fn inner_chain<R: ChainReading>(
    reading: &R,
    toks: &[Token],
    from: usize,
    depth: usize,
    follows: bool,
    known: R::Size,
) -> Result<((Option<R::Chain>, R::Size), usize), TextFault>
    ensures value { Reads R.memory (λ x. (option_map R.chain x.0, R.size x.1)) (lexemes toks.now) result (inner_by (parse_chain (R.actions reading.now)) follows (R.size known) depth (drop from (lexemes toks.now))) }
    ensures goes { IfOk result (λ x. from ≤ x.1) }
    ensures within { from ≤ length toks.now → IfOk result (λ x. x.1 ≤ length toks.now) }
{
    if !follows {
        return Ok(((None, known), from));
    }
    let ((inner, size), end) = braces(reading, toks, from, depth, known)?;
    Ok(((Some(inner), size), end))
}

// Reads a chain in braces.
#[cycle(chains)]
fn braces<R: ChainReading>(
    reading: &R,
    toks: &[Token],
    from: usize,
    depth: usize,
    known: R::Size,
) -> Result<((R::Chain, R::Size), usize), TextFault>
    ensures value { Reads R.memory (λ x. (R.chain x.0, R.size x.1)) (lexemes toks.now) result (braces_by (parse_chain (R.actions reading.now)) (R.size known) depth (drop from (lexemes toks.now))) }
    ensures goes { Goes from (length toks.now) result }
{
    let next = expect(toks, from, Terminal::Separator(Separator::CurlyOpen))?;
    let inside = enter(depth, place_at(toks, from))?;
    let (inner, end) = read_chain(reading, toks, next, inside, known)?;
    let end = expect(toks, end, Terminal::Separator(Separator::CurlyClose))?;
    Ok((inner, end))
}
