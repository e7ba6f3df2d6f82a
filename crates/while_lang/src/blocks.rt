//! The block parser, for any semantic actions.
ghost use Rattle.std.specs.Prelude.{◌≡◌, ℕ, ◌+◌, ◌<◌, ◌≤◌, length, drop, Ok, IfOk};
ghost use Rattle.text_parser.specs.Lexemes.{lexemes, text_at};
ghost use Rattle.text_parser.specs.Parsed.{Reads, Goes, change};
ghost use Rattle.while_lang.specs.Blocks.{enter, block, stmts_after, stmt_after, branch_after, parse_block};
ghost use Rattle.while_lang.specs.Blocks.{cond_by, then_semicolon, assign_by, named_by, loop_by, else_by};
ghost use Rattle.while_lang.specs.Working.Appending.{Appends, EndsAfter};

use crate::block_reading::BlockReading;
use kat_model::MAX_OPEN;
use text_parser::{
    Keyword, Separator, Terminal, TextFault, Token, expect, is_at, place_at, syntax_fault_at,
    terminal_at, text_at,
};

/// Returns the number of open constructs after one more opens at place `at`. Fails with `TooDeep` at that place if
/// `MAX_OPEN` or more are open already.
pub fn enter(depth: usize, at: usize) -> Result<usize, TextFault>
    ensures { result ≡ enter depth at }
{
    if depth >= MAX_OPEN {
        return Err(TextFault::TooDeep(at));
    }
    Ok(depth + 1)
}

// Reads the block that begins at `from`, with `depth` open constructs around it. Returns the result of the actions and
// the index after the block, or the first fault in the text: `Syntax` at a token that is not allowed there (with the
// place `usize::MAX` after the last token), `TooDeep` at a token that takes the number of open constructs beyond
// `MAX_OPEN`, `NumberTooWide` at a number of 2^64 or more, or the fault with which an action rejects a part.
#[cycle(blocks)]
pub(crate) fn read_block<R: BlockReading>(
    reading: &R,
    toks: &[Token],
    from: usize,
    depth: usize,
) -> Result<(R::Stmts, usize), TextFault>
    ensures value { Reads R.memory R.stmts (lexemes toks.now) result (parse_block (R.actions reading.now) block depth (drop from (lexemes toks.now))) }
    ensures goes { Goes from (length toks.now) result }
{
    let next = expect(toks, from, Terminal::Separator(Separator::CurlyOpen))?;
    let inside = enter(depth, place_at(toks, from))?;
    let (list, end) = stmts(reading, toks, next, inside)?;
    Ok((reading.braced(list), end))
}

// Reads statements up to a closing brace. Also returns the index after the brace.
#[cycle(blocks)]
fn stmts<R: BlockReading>(
    reading: &R,
    toks: &[Token],
    from: usize,
    depth: usize,
) -> Result<(R::Stmts, usize), TextFault>
    ensures value { Reads R.memory R.stmts (lexemes toks.now) result (parse_block (R.actions reading.now) (stmts_after (R.actions reading.now).none) depth (drop from (lexemes toks.now))) }
    ensures goes { Goes from (length toks.now) result }
{
    let mut list = reading.none();
    let mut at = from;
    'stmts: while !is_at(toks, at, Terminal::Separator(Separator::CurlyClose)) {
        at = stmt(reading, toks, at, depth, &mut list)?;
    }
    Ok((list, at + 1))
}

// Reads a statement and appends it to the list. Returns the index after it.
#[cycle(blocks)]
fn stmt<R: BlockReading>(
    reading: &R,
    toks: &[Token],
    from: usize,
    depth: usize,
    list: &mut R::Stmts,
) -> Result<usize, TextFault>
    ensures value { Appends R.memory (R.stmts list.new) (lexemes toks.now) result (parse_block (R.actions reading.now) (stmt_after (R.stmts list.old)) depth (drop from (lexemes toks.now))) }
    ensures goes { IfOk result (λ end. (from < end) × (end ≤ length toks.now)) }
{
    let Some((terminal, at)) = terminal_at(toks, from) else {
        return Err(syntax_fault_at(toks, from));
    };
    let next = from + 1;
    match terminal {
        Terminal::Keyword(Keyword::Skip) => ended(reading.skip(list), toks, next),
        Terminal::Keyword(Keyword::Abort) => ended(reading.abort(list), toks, next),
        Terminal::Keyword(Keyword::Assert) => assertion(reading, toks, next, depth, list),
        Terminal::Keyword(Keyword::If) => branch(reading, toks, next, depth, list),
        Terminal::Keyword(Keyword::While) => turn(reading, toks, next, depth, list),
        Terminal::Name => {
            name_statement(reading, toks, next, depth, list, at, text_at(toks, from))
        }
        _ => Err(TextFault::Syntax(at)),
    }
}

// Reads the semicolon after a statement, which was appended if `made` is `Ok`. Returns the index after it.
fn ended(made: Result<(), TextFault>, toks: &[Token], from: usize) -> Result<usize, TextFault>
    ensures value { EndsAfter (lexemes toks.now) made result (drop from (lexemes toks.now)) }
    ensures goes { IfOk result (λ end. (end ≡ from + 1) × (from < length toks.now)) }
{
    made.and(expect(toks, from, Terminal::Separator(Separator::Semicolon)))
}

// Reads an assertion from the token after its keyword, and appends it to the list.
fn assertion<R: BlockReading>(
    reading: &R,
    toks: &[Token],
    from: usize,
    depth: usize,
    list: &mut R::Stmts,
) -> Result<usize, TextFault>
    ensures value { Appends R.memory (R.stmts list.new) (lexemes toks.now) result (change ((R.actions reading.now).assert (R.stmts list.old)) (then_semicolon (cond_by (R.actions reading.now) depth (drop from (lexemes toks.now))))) }
    ensures goes { IfOk result (λ end. (from < end) × (end ≤ length toks.now)) }
{
    let (cond, end) = reading.read_cond(toks, from, depth)?;
    ended(reading.assert(list, cond), toks, end)
}

// Reads a loop from the token after its keyword, and appends it to the list.
#[cycle(blocks)]
fn turn<R: BlockReading>(
    reading: &R,
    toks: &[Token],
    from: usize,
    depth: usize,
    list: &mut R::Stmts,
) -> Result<usize, TextFault>
    ensures value { Appends R.memory (R.stmts list.new) (lexemes toks.now) result (loop_by (R.actions reading.now) (parse_block (R.actions reading.now)) (R.stmts list.old) depth (drop from (lexemes toks.now))) }
    ensures goes { IfOk result (λ end. (from < end) × (end ≤ length toks.now)) }
{
    let (cond, end) = reading.read_cond(toks, from, depth)?;
    let (body, end) = read_block(reading, toks, end, depth)?;
    reading.turn(list, cond, body).and(Ok(end))
}

// Reads a statement that begins with a name, from the token after the name.
fn name_statement<R: BlockReading>(
    reading: &R,
    toks: &[Token],
    from: usize,
    depth: usize,
    list: &mut R::Stmts,
    at: usize,
    name: &str,
) -> Result<usize, TextFault>
    ensures value { Appends R.memory (R.stmts list.new) (lexemes toks.now) result (named_by (R.actions reading.now) (R.stmts list.old) depth at name.now (drop from (lexemes toks.now))) }
    ensures goes { IfOk result (λ end. (from < end) × (end ≤ length toks.now)) }
{
    if is_at(toks, from, Terminal::Separator(Separator::Becomes)) {
        return assignment(reading, toks, from + 1, depth, list, at, name);
    }
    ended(reading.named(depth, at, name, list), toks, from)
}

// Reads an assignment to the name, from the token after `:=`.
fn assignment<R: BlockReading>(
    reading: &R,
    toks: &[Token],
    from: usize,
    depth: usize,
    list: &mut R::Stmts,
    at: usize,
    name: &str,
) -> Result<usize, TextFault>
    ensures value { Appends R.memory (R.stmts list.new) (lexemes toks.now) result (assign_by (R.actions reading.now) (R.stmts list.old) depth at name.now (drop from (lexemes toks.now))) }
    ensures goes { IfOk result (λ end. (from < end) × (end ≤ length toks.now)) }
{
    reading.check_target(at, name)?;
    let (expr, end) = reading.read_expr(toks, from, depth)?;
    ended(reading.assign(list, name, expr), toks, end)
}

// Reads a statement from the token after its `if`, and appends it to the list.
#[cycle(blocks)]
fn branch<R: BlockReading>(
    reading: &R,
    toks: &[Token],
    from: usize,
    depth: usize,
    list: &mut R::Stmts,
) -> Result<usize, TextFault>
    ensures value { Appends R.memory (R.stmts list.new) (lexemes toks.now) result (parse_block (R.actions reading.now) (branch_after (R.stmts list.old)) depth (drop from (lexemes toks.now))) }
    ensures goes { IfOk result (λ end. (from < end) × (end ≤ length toks.now)) }
{
    let (cond, end) = reading.read_cond(toks, from, depth)?;
    let (first, end) = read_block(reading, toks, end, depth)?;
    let (second, end) = otherwise(reading, toks, end, depth)?;
    reading.branch(list, cond, first, second).and(Ok(end))
}

// Reads the second block of an `if`. Also returns the index after it.
#[cycle(blocks)]
fn otherwise<R: BlockReading>(
    reading: &R,
    toks: &[Token],
    from: usize,
    depth: usize,
) -> Result<(R::Stmts, usize), TextFault>
    ensures value { Reads R.memory R.stmts (lexemes toks.now) result (else_by (R.actions reading.now) (parse_block (R.actions reading.now)) depth (drop from (lexemes toks.now))) }
    ensures goes { IfOk result (λ x. from ≤ x.1) }
    ensures within { from ≤ length toks.now → IfOk result (λ x. x.1 ≤ length toks.now) }
{
    if !is_at(toks, from, Terminal::Keyword(Keyword::Else)) {
        return Ok((reading.none(), from));
    }
    if !is_at(toks, from + 1, Terminal::Keyword(Keyword::If)) {
        return read_block(reading, toks, from + 1, depth);
    }
    let inside = enter(depth, place_at(toks, from + 1))?;
    let mut list = reading.none();
    let end = branch(reading, toks, from + 2, inside, &mut list)?;
    Ok((reading.chained(list), end))
}
