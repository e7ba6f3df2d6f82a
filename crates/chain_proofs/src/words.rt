//! Reads names and numbers of a chain.
ghost use Rattle.std.specs.Prelude.{◌≡◌, ◌+◌, ◌<◌, length, drop, IsTrue, IfOk};
ghost use Rattle.text_parser.specs.Lexemes.{lexemes};
ghost use Rattle.text_parser.specs.Parsed.{Makes, Expects};
ghost use Rattle.chain_proofs.specs.ChainWalks.{is_word, expects_word, rule_name, has_number, has_inner};

use text_parser::{Keyword, Terminal, TextFault, Token, syntax_fault_at, terminal_at, text_at};

/// Whether the token at an index is this plain name.
pub(crate) fn is_word_at(toks: &[Token], i: usize, word: &str) -> bool
    ensures value { result ≡ is_word word.now (drop i (lexemes toks.now)) }
    ensures within { IsTrue result → i < length toks.now }
{
    match terminal_at(toks, i) {
        Some((Terminal::Name, _)) => text_at(toks, i) == word,
        _ => false,
    }
}

/// Returns the index after a token that must be this plain name.
#[tactic(auto, using(text_parser::proofs::TokenPlaces::next_drop))]
pub(crate) fn expect_word(toks: &[Token], i: usize, word: &str) -> Result<usize, TextFault>
    ensures value { Expects (lexemes toks.now) result (expects_word word.now (drop i (lexemes toks.now))) }
    ensures goes { IfOk result (λ end. (end ≡ i + 1) × (i < length toks.now)) }
{
    if !is_word_at(toks, i, word) {
        return Err(syntax_fault_at(toks, i));
    }
    Ok(i + 1)
}

/// Returns the place and the text of the name of a rule at an index: a name, or the keyword `hyp`.
pub(crate) fn rule_name_at<'a>(toks: &[Token<'a>], i: usize) -> Result<(usize, &'a str), TextFault>
    ensures value { Makes ⊥ (λ x. (x.0, x.1.now)) result (rule_name (drop i (lexemes toks.now))) }
    ensures within { IfOk result (λ x. i < length toks.now) }
{
    match terminal_at(toks, i) {
        Some((Terminal::Name | Terminal::Keyword(Keyword::Hyp), at)) => Ok((at, text_at(toks, i))),
        Some((_, at)) => Err(TextFault::Syntax(at)),
        None => Err(syntax_fault_at(toks, i)),
    }
}

/// Whether a rule with this name requires a number.
pub(crate) fn has_number(name: &str) -> bool
    ensures { result ≡ has_number name.now }
{
    name == "hyp"
}

/// Whether a rule with this name requires an inner chain.
pub(crate) fn has_inner(name: &str) -> bool
    ensures { result ≡ has_inner name.now }
{
    name == "lfp" || name == "rfp"
}
