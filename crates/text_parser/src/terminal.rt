//! The terminals of the grammar that tokens are.
ghost use Rattle.std.specs.Prelude.{◌≡◌, ℕ, ◌+◌, ◌<◌, [], ◌∷◌, length, drop, slice_get, IsTrue, IfOk, Ok, true};
ghost use Rattle.std.specs.List.{list_all};
ghost use Rattle.std.specs.Char.{is_ascii_digit};
ghost use Rattle.text_parser.specs.TokenParts.{parts_of_tokens};
ghost use Rattle.text_parser.specs.declared.fault.TextFault.TheVariants.{Syntax};
ghost use Rattle.text_parser.specs.Terminals.{terminal_of, is_symbol, heads_symbol, keyword_terminal, number_terminal, symbol_terminal, is_digits, small_number};
ghost use Rattle.text_parser.specs.Working.Symbols.{symbol_of_one, symbol_of_two};
ghost use Rattle.text_parser.specs.Working.Words.{word_of_four, word_of_five, word_of_six, other_word};
ghost use Rattle.text_parser.specs.Lexemes.{lexemes, text_at, Sees, heads, is_terminal, is_sum};
ghost use Rattle.text_parser.specs.Parsed.{place_of, Reads, Expects, expects, then_expects};

use crate::fault::TextFault;
use crate::token::{Kind, Token};
use kat_model::Rel;

/// A keyword, spelled as its variant in lower case. `true` and `false` are [`Terminal::True`] and [`Terminal::False`].
#[derive(Clone, Copy, PartialEq, Eq)]
pub enum Keyword {
    Test,
    Action,
    Var,
    Prog,
    Term,
    Hyp,
    Rounds,
    Width,
    Goal,
    Equal,
    Below,
    Triple,
    Skip,
    Abort,
    Assert,
    If,
    Else,
    While,
}

/// A symbol that occurs between phrases, never in one.
#[derive(Clone, Copy, PartialEq, Eq)]
pub enum Separator {
    /// `,`
    Comma,
    /// `;`
    Semicolon,
    /// `{`
    CurlyOpen,
    /// `}`
    CurlyClose,
    /// `=`
    Equals,
    /// `:=`
    Becomes,
    /// `^`
    Caret,
}

/// The terminal of a token. Numbers have several terminals, as far as the grammar distinguishes them.
#[derive(Clone, Copy, PartialEq, Eq)]
pub enum Terminal {
    /// `(`
    RoundOpen,
    /// `)`
    RoundClose,
    /// `[`
    SquareOpen,
    /// `]`
    SquareClose,
    /// `!`, the complement of a test or condition.
    Bang,
    /// `*`, the star of a term or the product of numbers.
    Star,
    /// `+`, the sum of terms or of numbers.
    Plus,
    /// `-`
    Minus,
    /// `.`, the product of terms.
    Dot,
    /// `&&`
    And,
    /// `||`
    Or,
    /// `==`, `!=`, `<`, `<=`, `>` or `>=`.
    Compares(Rel),
    /// The spelling `0` of a number; in a term, the term 0.
    Zero,
    /// The spelling `1` of a number; in a term, the term 1.
    One,
    /// Any other number below 2^64, including the spellings `00` and `01`.
    Number(u64),
    /// A number of 2^64 or more.
    WideNumber,
    /// The keyword `true`.
    True,
    /// The keyword `false`.
    False,
    /// A name that is not a keyword.
    Name,
    /// Any other keyword.
    Keyword(Keyword),
    /// A symbol that occurs in no phrase.
    Separator(Separator),
    /// Not a token of the format; never occurs in texts cut by [`crate::lexer::tokens`].
    Other,
}

fn symbol_of_one(byte: u8) -> Terminal
    ensures { result ≡ symbol_of_one byte }
{
    match byte {
        b'(' => Terminal::RoundOpen,
        b')' => Terminal::RoundClose,
        b'[' => Terminal::SquareOpen,
        b']' => Terminal::SquareClose,
        b'!' => Terminal::Bang,
        b'*' => Terminal::Star,
        b'+' => Terminal::Plus,
        b'-' => Terminal::Minus,
        b'.' => Terminal::Dot,
        b'<' => Terminal::Compares(Rel::Lt),
        b'>' => Terminal::Compares(Rel::Gt),
        b',' => Terminal::Separator(Separator::Comma),
        b';' => Terminal::Separator(Separator::Semicolon),
        b'{' => Terminal::Separator(Separator::CurlyOpen),
        b'}' => Terminal::Separator(Separator::CurlyClose),
        b'=' => Terminal::Separator(Separator::Equals),
        b'^' => Terminal::Separator(Separator::Caret),
        _ => Terminal::Other,
    }
}

fn symbol_of_two(first: u8, second: u8) -> Terminal
    ensures { result ≡ symbol_of_two first second }
{
    match (first, second) {
        (b'&', b'&') => Terminal::And,
        (b'|', b'|') => Terminal::Or,
        (b'=', b'=') => Terminal::Compares(Rel::Eq),
        (b'!', b'=') => Terminal::Compares(Rel::Ne),
        (b'<', b'=') => Terminal::Compares(Rel::Le),
        (b'>', b'=') => Terminal::Compares(Rel::Ge),
        (b':', b'=') => Terminal::Separator(Separator::Becomes),
        _ => Terminal::Other,
    }
}

// Matches the bytes of the text: a match on strings would compare the text with each string in turn.
fn symbol_terminal(text: &str) -> Terminal
    ensures { result ≡ symbol_terminal text.now }
{
    match text.as_bytes() {
        [byte] => symbol_of_one(*byte),
        [first, second] => symbol_of_two(*first, *second),
        _ => Terminal::Other,
    }
}

fn word_of_four(text: &str) -> Terminal
    ensures { result ≡ word_of_four text.now }
{
    match text {
        "true" => Terminal::True,
        "test" => Terminal::Keyword(Keyword::Test),
        "prog" => Terminal::Keyword(Keyword::Prog),
        "term" => Terminal::Keyword(Keyword::Term),
        "goal" => Terminal::Keyword(Keyword::Goal),
        "skip" => Terminal::Keyword(Keyword::Skip),
        "else" => Terminal::Keyword(Keyword::Else),
        _ => Terminal::Name,
    }
}

fn word_of_five(text: &str) -> Terminal
    ensures { result ≡ word_of_five text.now }
{
    match text {
        "false" => Terminal::False,
        "width" => Terminal::Keyword(Keyword::Width),
        "equal" => Terminal::Keyword(Keyword::Equal),
        "below" => Terminal::Keyword(Keyword::Below),
        "abort" => Terminal::Keyword(Keyword::Abort),
        "while" => Terminal::Keyword(Keyword::While),
        _ => Terminal::Name,
    }
}

fn word_of_six(text: &str) -> Terminal
    ensures { result ≡ word_of_six text.now }
{
    match text {
        "action" => Terminal::Keyword(Keyword::Action),
        "rounds" => Terminal::Keyword(Keyword::Rounds),
        "triple" => Terminal::Keyword(Keyword::Triple),
        "assert" => Terminal::Keyword(Keyword::Assert),
        _ => Terminal::Name,
    }
}

fn other_word(text: &str) -> Terminal
    ensures { result ≡ other_word text.now }
{
    match text {
        "var" => Terminal::Keyword(Keyword::Var),
        "hyp" => Terminal::Keyword(Keyword::Hyp),
        "if" => Terminal::Keyword(Keyword::If),
        _ => Terminal::Name,
    }
}

// Compares the text only with the keywords of its length.
pub(crate) fn keyword_terminal(text: &str) -> Terminal
    ensures { result ≡ keyword_terminal text.now }
{
    match text.len() {
        4 => word_of_four(text),
        5 => word_of_five(text),
        6 => word_of_six(text),
        _ => other_word(text),
    }
}

fn all_digits(text: &str) -> bool
    ensures { result ≡ list_all is_ascii_digit text.now }
{
    text.bytes().all(|b| b.is_ascii_digit())
}

fn is_digits(text: &str) -> bool
    ensures { result ≡ is_digits text.now }
{
    all_digits(text) && text.len() > 0
}

fn small_number(text: &str) -> Option<u64>
    requires { is_digits text.now ≡ true }
    ensures { result ≡ small_number text.now }
{
    match text.parse::<u64>() {
        Ok(n) => Some(n),
        Err(_) => None,
    }
}

fn number_terminal(text: &str) -> Terminal
    ensures { result ≡ number_terminal text.now }
{
    match text.as_bytes() {
        b"0" => Terminal::Zero,
        b"1" => Terminal::One,
        _ if !is_digits(text) => Terminal::Other,
        _ => match small_number(text) {
            Some(n) => Terminal::Number(n),
            None => Terminal::WideNumber,
        },
    }
}

/// Returns the terminal of the token, by its kind and text.
pub fn terminal_of(token: &Token) -> Terminal
    ensures { result ≡ terminal_of token.now.kind token.now.text.now }
{
    match token.kind {
        Kind::Name => keyword_terminal(token.text),
        Kind::Number => number_terminal(token.text),
        Kind::Symbol => symbol_terminal(token.text),
    }
}

/// Returns the terminal and the place in bytes of the token at index `i`, or `None` if there is no token.
pub fn terminal_at(toks: &[Token], i: usize) -> Option<(Terminal, usize)>
    ensures { Sees result toks.now i }
{
    match toks.get(i) {
        None => None,
        Some(token) => Some((terminal_of(token), token.at)),
    }
}

/// Returns the place in bytes of the token at index `i`, or `usize::MAX` after the last token. Readers see tokens and
/// not bytes; `problem_file` puts the length of the text in place of `usize::MAX`.
pub fn place_at(toks: &[Token], i: usize) -> usize
    ensures { result ≡ place_of (drop i (lexemes toks.now)) }
{
    match terminal_at(toks, i) {
        Some((_, at)) => at,
        None => usize::MAX,
    }
}

/// Returns the fault of a token at index `i` that is not allowed there: `Syntax` with its place, or with `usize::MAX`
/// after the last token.
pub fn syntax_fault_at(toks: &[Token], i: usize) -> TextFault
    ensures { result ≡ Syntax (place_of (drop i (lexemes toks.now))) }
{
    TextFault::Syntax(place_at(toks, i))
}

fn is_symbol(token: &Token, symbol: u8) -> bool
    ensures { result ≡ is_symbol (symbol ∷ []) token.now.kind token.now.text.now }
{
    matches!(token.kind, Kind::Symbol) && matches!(token.text.as_bytes(), [byte] if *byte == symbol)
}

// Whether the token at index `i` is this symbol of one byte. Compares only that byte, since the search for a
// parenthesis checks a token once for each level.
fn is_symbol_at(toks: &[Token], i: usize, symbol: u8) -> bool
    ensures { result ≡ heads_symbol (symbol ∷ []) (drop i (parts_of_tokens toks.now)) }
{
    match toks.get(i) {
        None => false,
        Some(token) => is_symbol(token, symbol),
    }
}

pub(crate) fn is_round_open_at(toks: &[Token], i: usize) -> bool
    ensures { result ≡ heads (is_terminal Terminal.RoundOpen) (drop i (lexemes toks.now)) }
{
    is_symbol_at(toks, i, b'(')
}

pub(crate) fn is_round_close_at(toks: &[Token], i: usize) -> bool
    ensures { result ≡ heads (is_terminal Terminal.RoundClose) (drop i (lexemes toks.now)) }
{
    is_symbol_at(toks, i, b')')
}

pub(crate) fn is_terminal(expected: Terminal, terminal: Terminal) -> bool
    ensures { result ≡ is_terminal expected terminal }
{
    expected == terminal
}

/// Whether the token at index `i` is this terminal.
pub fn is_at(toks: &[Token], i: usize, terminal: Terminal) -> bool
    ensures value { result ≡ heads (is_terminal terminal) (drop i (lexemes toks.now)) }
    ensures within { IsTrue result → i < length toks.now }
{
    matches!(terminal_at(toks, i), Some((found, _)) if is_terminal(terminal, found))
}

/// Whether the token at index `i` is `+` or `-`.
pub fn is_sum_at(toks: &[Token], i: usize) -> bool
    ensures value { result ≡ heads is_sum (drop i (lexemes toks.now)) }
    ensures within { IsTrue result → i < length toks.now }
{
    matches!(
        terminal_at(toks, i),
        Some((Terminal::Plus | Terminal::Minus, _))
    )
}

/// Returns the index after the token at `i`, which must be this terminal. Otherwise fails with `Syntax` at the place of
/// that token, or at `usize::MAX` after the last token.
#[tactic(auto, using(crate::proofs::TokenPlaces::heads_expects, crate::proofs::TokenPlaces::other_expects, crate::proofs::TokenPlaces::next_drop))]
pub fn expect(toks: &[Token], i: usize, terminal: Terminal) -> Result<usize, TextFault>
    ensures value { Expects (lexemes toks.now) result (expects (is_terminal terminal) (drop i (lexemes toks.now))) }
    ensures goes { IfOk result (λ end. (end ≡ i + 1) × (i < length toks.now)) }
{
    if !is_at(toks, i, terminal) {
        return Err(syntax_fault_at(toks, i));
    }
    Ok(i + 1)
}

// Returns a value with the index after the token at `i`, which must be this terminal. Otherwise fails as `expect` does.
pub(crate) fn then_expect<T: Drop>(
    toks: &[Token],
    value: T,
    i: usize,
    terminal: Terminal,
) -> Result<(T, usize), TextFault>
    ensures value { Reads ⊥ (λ v. v) (lexemes toks.now) result (then_expects (is_terminal terminal) (Ok (value, drop i (lexemes toks.now)))) }
    ensures goes { IfOk result (λ x. (x.1 ≡ i + 1) × (i < length toks.now)) }
{
    let end = expect(toks, i, terminal)?;
    Ok((value, end))
}

/// Returns the text of the token at index `i`, or an empty text if there is no token.
pub fn text_at<'a>(toks: &[Token<'a>], i: usize) -> &'a str
    ensures { result.now ≡ text_at toks.now i }
{
    match toks.get(i) {
        Some(token) => token.text,
        None => "",
    }
}
