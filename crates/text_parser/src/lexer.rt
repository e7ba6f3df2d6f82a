//! The lexer: cuts a text into its longest tokens.
ghost use Rattle.std.specs.Prelude.{◌≡◌, ◌≤◌, [], ◌∷◌, length, take_while, false, IfOk, IfErr, IfSome, IfNone};
ghost use Rattle.std.specs.Char.{is_ascii_digit};
ghost use Rattle.text_parser.specs.TokenParts.{parts_of_tokens};
ghost use Rattle.text_parser.specs.Kinds.{is_separator, is_symbol, begins_name};
ghost use Rattle.text_parser.specs.Lex.{gap_len, BeginsNone, Lexes, IsFault};
ghost use Rattle.text_parser.specs.Working.Fronts.{symbol_len, IsNameLen, IsFirst};

use crate::{Kind, TextFault, Token};
use kat_model::MAX_TEXT_BYTES;
use std::alloc::Global;
use unicode_ident::{is_xid_continue, is_xid_start};

/// The maximum length of a text in bytes.
pub const MAX_LEN: usize = MAX_TEXT_BYTES;

fn is_separator(b: u8) -> bool
    ensures { result ≡ is_separator b }
{
    matches!(b, b' ' | b'\t' | b'\r' | b'\n')
}

// Returns the number of bytes of the leading separators and comments.
fn gap_len(bytes: &[u8]) -> usize
    ensures { result ≡ gap_len false bytes.now }
{
    let mut in_comment = false;
    for (i, b) in bytes.iter().enumerate() {
        if in_comment {
            in_comment = *b != b'\n';
        } else if *b == b'#' {
            in_comment = true;
        } else if !is_separator(*b) {
            return i;
        }
    }
    bytes.len()
}

fn begins_name(c: char) -> bool
    ensures { result ≡ begins_name c }
{
    is_xid_start(c) || c == '_'
}

// Returns the number of bytes of the leading characters that continue a name.
fn name_len(text: &str) -> usize
    ensures { IsNameLen text.now result }
{
    match text.find(|c: char| !is_xid_continue(c)) {
        Some(n) => n,
        None => text.len(),
    }
}

// Returns the number of leading digits.
fn number_len(text: &str) -> usize
    ensures { result ≡ length (take_while is_ascii_digit text.now) }
{
    text.bytes().take_while(|b| b.is_ascii_digit()).count()
}

fn is_symbol_of_one(byte: u8) -> bool
    ensures { result ≡ is_symbol (byte ∷ []) }
{
    matches!(
        byte,
        b';' | b','
            | b'{'
            | b'}'
            | b'('
            | b')'
            | b'['
            | b']'
            | b'='
            | b'<'
            | b'>'
            | b'+'
            | b'-'
            | b'*'
            | b'.'
            | b'!'
            | b'^'
    )
}

fn is_symbol_of_two(first: u8, second: u8) -> bool
    ensures { result ≡ is_symbol (first ∷ second ∷ []) }
{
    matches!(
        (first, second),
        (b':' | b'=' | b'!' | b'<' | b'>', b'=') | (b'&', b'&') | (b'|', b'|')
    )
}

// Returns the number of bytes of the longest symbol at the start, or 0.
fn symbol_len(bytes: &[u8]) -> usize
    ensures { result ≡ symbol_len bytes.now }
{
    match bytes {
        [a, b, ..] if is_symbol_of_two(*a, *b) => 2,
        [a, ..] if is_symbol_of_one(*a) => 1,
        _ => 0,
    }
}

// Returns the kind and the number of bytes of the token at the start, or `None` if no token begins there.
fn first_token(text: &str) -> Option<(Kind, usize)>
    ensures token { IfSome result (λ found. IsFirst found.0 found.1 text.now) }
    ensures none { IfNone result (BeginsNone text.now) }
{
    let first = text.chars().next()?;
    if begins_name(first) {
        return Some((Kind::Name, name_len(text)));
    }
    if first.is_ascii_digit() {
        return Some((Kind::Number, number_len(text)));
    }
    let n = symbol_len(text.as_bytes());
    if n > 0 { Some((Kind::Symbol, n)) } else { None }
}

/// Returns the tokens of `text`, which has at most [`MAX_LEN`] bytes. Each token is the longest at its place.
/// Separators (space, tab, carriage return, line feed) and comments, from a `#` to the next line feed or the end, may
/// occur between tokens. Fails with `BadToken` at the first place where no token begins, or when out of memory.
pub fn tokens<'a>(alloc: Global, text: &'a str) -> Result<Vec<Token<'a>>, TextFault>
    requires { length text.now ≤ MAX_LEN }
    ensures read { IfOk result (λ found. Lexes text.now (parts_of_tokens found.items)) }
    ensures bad { IfErr result (λ fault. IsFault text.now fault) }
{
    let mut found = Vec::new(alloc);
    let mut rest = text;
    let mut at = 0;
    loop {
        let gap = gap_len(rest.as_bytes());
        rest = &rest[gap..];
        at += gap;
        if rest.is_empty() {
            return Ok(found);
        }
        let Some((kind, n)) = first_token(rest) else {
            return Err(TextFault::BadToken(at));
        };
        let (text, after) = rest.split_at(n);
        found.push(Token { kind, text, at })?;
        rest = after;
        at += n;
    }
}
