//! Names and numbers among the tokens.
ghost use Rattle.std.specs.Prelude.{◌≡◌, ◌+◌, ◌<◌, length, drop, IfOk, IfErr, IfSome, Ok, Err, option_map};
ghost use Rattle.text_parser.specs.Lexemes.{lexemes, heads};
ghost use Rattle.text_parser.specs.Phrases.{term};
ghost use Rattle.text_parser.specs.Ends.{goes_on};
ghost use Rattle.text_parser.specs.ScopeParts.{IsIdentifier};
ghost use Rattle.problem_file.specs.Items.{name_at, number_at, lone_name};
ghost use Rattle.problem_file.specs.Tokens.{AreTokens};

use text_parser::{Terminal, TextFault, Token, syntax_fault_at, terminal_at, terminal_of, text_at};

/// Returns the token at an index if it is a name. Otherwise fails with `Syntax` at its place, or at `usize::MAX` after
/// the last token.
pub fn name_at<'a, 'b>(toks: &'b [Token<'a>], i: usize) -> Result<&'b Token<'a>, TextFault>
    requires tokens { AreTokens toks.now }
    ensures found { IfOk result (λ name. name_at (drop i (lexemes toks.now)) ≡ Ok (record { at = name.now.at; text = name.now.text.now })) }
    ensures fault { IfErr result (λ e. name_at (drop i (lexemes toks.now)) ≡ Err e) }
    ensures identifier { IfOk result (λ name. IsIdentifier name.now.text.now) }
    ensures within { IfOk result (λ name. i < length toks.now) }
{
    match toks.get(i) {
        None => Err(syntax_fault_at(toks, i)),
        Some(token) => match terminal_of(token) {
            Terminal::Name => Ok(token),
            _ => Err(TextFault::Syntax(token.at)),
        },
    }
}

/// Returns the number at an index. Otherwise fails with `NumberTooWide` for a number of 2^64 or more, `Syntax` for any
/// other token, and `Syntax` at `usize::MAX` after the last token.
pub fn number_at(toks: &[Token], i: usize) -> Result<u64, TextFault>
    ensures value { result ≡ number_at (drop i (lexemes toks.now)) }
    ensures within { IfOk result (λ n. i < length toks.now) }
{
    match terminal_at(toks, i) {
        Some((Terminal::Zero, _)) => Ok(0),
        Some((Terminal::One, _)) => Ok(1),
        Some((Terminal::Number(n), _)) => Ok(n),
        Some((Terminal::WideNumber, at)) => Err(TextFault::NumberTooWide(at)),
        Some((_, at)) => Err(TextFault::Syntax(at)),
        None => Err(syntax_fault_at(toks, i)),
    }
}

// Whether the token at an index continues the term before it.
fn goes_on(toks: &[Token], i: usize) -> bool
    ensures { result ≡ heads (goes_on term) (drop i (lexemes toks.now)) }
{
    matches!(
        terminal_at(toks, i),
        Some((Terminal::Plus | Terminal::Dot | Terminal::Star, _))
    )
}

// Returns the name at an index, if it is a whole term.
pub(crate) fn lone_name<'a>(toks: &[Token<'a>], i: usize) -> Option<&'a str>
    ensures value { option_map (λ text. text.now) result ≡ lone_name (drop i (lexemes toks.now)) }
    ensures within { IfSome result (λ text. i < length toks.now) }
{
    let (terminal, _) = terminal_at(toks, i)?;
    match terminal {
        Terminal::Name => {
            if goes_on(toks, i + 1) {
                return None;
            }
            Some(text_at(toks, i))
        }
        _ => None,
    }
}
