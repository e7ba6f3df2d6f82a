//! The terminals of the format, numbered after those that the reader knows.
ghost use Rattle.std.specs.Prelude.{◌≡◌, codes};
ghost use Rattle.std.specs.Str.{bytes_eq};
ghost use Rattle.text_parser.specs.TokenParts.{parts_of_token};
ghost use Rattle.flow_syntax.specs.Terminals.{word_terminal, match_word_terminal, symbol_terminal, number_terminal, terminal_of, terminal_in_match, spelled_number};
ghost use Rattle.flow_syntax.specs.Working.Words.{listed_terminal};

use crate::rule::{CLOSE_ROUND, NUMBER, OPEN_ROUND, WIDE_NUMBER};
use text_parser::{Kind, Terminal, Token};

/// A name that is not a keyword.
pub const NAME: usize = 5;
/// A symbol of no rule.
pub const OTHER: usize = 6;

/// `sort`
pub const SORT: usize = 7;
/// `fun`
pub const FUN: usize = 8;
/// `var`
pub const VAR: usize = 9;
/// `graph`
pub const GRAPH: usize = 10;
/// `block`
pub const BLOCK: usize = 11;
/// `cut`
pub const CUT: usize = 12;
/// `goto`
pub const GOTO: usize = 13;
/// `if`
pub const IF: usize = 14;
/// `else`
pub const ELSE: usize = 15;
/// `return`
pub const RETURN: usize = 16;
/// `abort`
pub const ABORT: usize = 17;
/// `assert`
pub const ASSERT: usize = 18;
/// `equal`
pub const EQUAL: usize = 19;
/// `rounds`
pub const ROUNDS: usize = 20;
/// `split`
pub const SPLIT: usize = 21;
/// `true`
pub const TRUE: usize = 22;
/// `false`
pub const FALSE: usize = 23;
/// `u8`
pub const U8: usize = 24;
/// `u16`
pub const U16: usize = 25;
/// `u32`
pub const U32: usize = 26;
/// `u64`
pub const U64: usize = 27;
/// `s8`
pub const S8: usize = 28;
/// `s16`
pub const S16: usize = 29;
/// `s32`
pub const S32: usize = 30;
/// `s64`
pub const S64: usize = 31;
/// `slt`
pub const SLT: usize = 32;
/// `sle`
pub const SLE: usize = 33;
/// `sgt`
pub const SGT: usize = 34;
/// `sge`
pub const SGE: usize = 35;

/// `,`
pub const COMMA: usize = 36;
/// `;`
pub const SEMICOLON: usize = 37;
/// `{`
pub const CURLY_OPEN: usize = 38;
/// `}`
pub const CURLY_CLOSE: usize = 39;
/// `:=`
pub const BECOMES: usize = 40;
/// `==`
pub const EQ: usize = 41;
/// `!=`
pub const NE: usize = 42;
/// `<`
pub const LT: usize = 43;
/// `<=`
pub const LE: usize = 44;
/// `>`
pub const GT: usize = 45;
/// `>=`
pub const GE: usize = 46;
/// `+`
pub const PLUS: usize = 47;
/// `-`
pub const MINUS: usize = 48;
/// `*`
pub const STAR: usize = 49;
/// `&&`
pub const AND: usize = 50;
/// `||`
pub const OR: usize = 51;
/// `!`
pub const BANG: usize = 52;

/// `match`
pub const MATCH: usize = 53;
/// `where`, in a `match`
pub const WHERE: usize = 54;
/// `back`, in a `match`
pub const BACK: usize = 55;
/// `keeping`, in a `match`
pub const KEEPING: usize = 56;
/// `names`, in a `match`
pub const ALL_NAMES: usize = 57;

/// The keywords and their terminals.
const WORDS: &[(&str, usize)] = &[
    ("sort", SORT),
    ("fun", FUN),
    ("var", VAR),
    ("graph", GRAPH),
    ("block", BLOCK),
    ("cut", CUT),
    ("goto", GOTO),
    ("if", IF),
    ("else", ELSE),
    ("return", RETURN),
    ("abort", ABORT),
    ("assert", ASSERT),
    ("equal", EQUAL),
    ("rounds", ROUNDS),
    ("split", SPLIT),
    ("true", TRUE),
    ("false", FALSE),
    ("u8", U8),
    ("u16", U16),
    ("u32", U32),
    ("u64", U64),
    ("s8", S8),
    ("s16", S16),
    ("s32", S32),
    ("s64", S64),
    ("slt", SLT),
    ("sle", SLE),
    ("sgt", SGT),
    ("sge", SGE),
];

/// The words that are keywords in a `match` only.
const MATCH_WORDS: &[(&str, usize)] = &[
    ("where", WHERE),
    ("back", BACK),
    ("keeping", KEEPING),
    ("names", ALL_NAMES),
];

/// The symbols and their terminals.
const SYMBOLS: &[(&str, usize)] = &[
    ("(", OPEN_ROUND),
    (")", CLOSE_ROUND),
    (",", COMMA),
    (";", SEMICOLON),
    ("{", CURLY_OPEN),
    ("}", CURLY_CLOSE),
    (":=", BECOMES),
    ("==", EQ),
    ("!=", NE),
    ("<", LT),
    ("<=", LE),
    (">", GT),
    (">=", GE),
    ("+", PLUS),
    ("-", MINUS),
    ("*", STAR),
    ("&&", AND),
    ("||", OR),
    ("!", BANG),
];

// Returns the terminal of a text in a list, or another one if the text is not in it.
fn listed_terminal(list: &[(&str, usize)], other: usize, text: &str) -> usize
    ensures { result ≡ listed_terminal list.now other text.now }
{
    for (listed, terminal) in list {
        if text == *listed {
            return *terminal;
        }
    }
    other
}

fn word_terminal(text: &str) -> usize
    ensures { result ≡ word_terminal text.now }
{
    listed_terminal(WORDS, NAME, text)
}

fn match_word_terminal(text: &str) -> usize
    ensures { result ≡ match_word_terminal text.now }
{
    listed_terminal(MATCH_WORDS, word_terminal(text), text)
}

fn symbol_terminal(text: &str) -> usize
    ensures { result ≡ symbol_terminal text.now }
{
    listed_terminal(SYMBOLS, OTHER, text)
}

fn number_terminal(terminal: Terminal) -> usize
    ensures { result ≡ number_terminal terminal }
{
    match terminal {
        Terminal::Zero | Terminal::One | Terminal::Number(_) => NUMBER,
        Terminal::WideNumber => WIDE_NUMBER,
        _ => OTHER,
    }
}

/// Returns the terminal of a token that is not in a `match`.
pub(crate) fn terminal_of(token: &Token) -> usize
    ensures { result ≡ terminal_of token.now.kind token.now.text.now }
{
    match token.kind {
        Kind::Name => word_terminal(token.text),
        Kind::Number => number_terminal(text_parser::terminal_of(token)),
        Kind::Symbol => symbol_terminal(token.text),
    }
}

/// Whether the token is the word `match`.
pub(crate) fn is_match(token: &Token) -> bool
    ensures { result ≡ bytes_eq token.now.text.now (codes "match") }
{
    token.text == "match"
}

/// Returns the terminal of a token in a `match`.
pub(crate) fn terminal_in_match(token: &Token) -> usize
    ensures { result ≡ terminal_in_match token.now.kind token.now.text.now }
{
    match token.kind {
        Kind::Name => match_word_terminal(token.text),
        Kind::Number => terminal_of(token),
        Kind::Symbol => terminal_of(token),
    }
}

/// Returns the number that a token spells, if it spells one below 2^64.
pub fn spelled_number(token: &Token) -> Option<u64>
    ensures { result ≡ spelled_number (parts_of_token token.now) }
{
    match text_parser::terminal_of(token) {
        Terminal::Zero => Some(0),
        Terminal::One => Some(1),
        Terminal::Number(n) => Some(n),
        _ => None,
    }
}
