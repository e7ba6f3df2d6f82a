//! The tokens of texts, and names for reading phrases.
//!
//! A function that makes or drops values with trees is proved faster if it has fewer exits where such a value must be
//! dropped. So each helper of these tests has one such value and lends it to the next.
ghost use Rattle.std.specs.Prelude.{◌≡◌, false, IfOk};
ghost use Rattle.text_parser.specs.declared.token.Kind.TheVariants.{Name};
ghost use Rattle.text_parser.specs.Kinds.{IsToken};
ghost use Rattle.text_parser.specs.Keywords.{is_keyword};
ghost use Rattle.text_parser.specs.ScopeParts.{is_term};

use kat_model::{Kat, NoMemory};
use std::alloc::Global;
use text_parser::{Kind, MAX_LEN, Meaning, Scope, TextFault, Token, is_keyword, tokens};
use text_print::print_term;

// Returns the tokens of a text of any length.
pub(crate) fn cut<'a>(alloc: Global, text: &'a str) -> Result<Vec<Token<'a>>, TextFault> {
    if text.len() > MAX_LEN {
        return Err(TextFault::TooLong);
    }
    tokens(alloc, text)
}

// Returns the first token of the text if it is an identifier.
fn identifier<'a>(alloc: Global, text: &'a str) -> Result<Token<'a>, TextFault>
    ensures name { IfOk result (λ token. IsToken Name token.text.now) }
    ensures no_keyword { IfOk result (λ token. is_keyword token.text.now ≡ false) }
{
    if text.len() > MAX_LEN {
        return Err(TextFault::TooLong);
    }
    let found = tokens(alloc, text)?;
    match found.first() {
        Some(token) if matches!(token.kind, Kind::Name) && !is_keyword(token.text) => Ok(*token),
        _ => Err(TextFault::Syntax(0)),
    }
}

// Declares a name, unless the meaning has a name already.
fn declare(alloc: Global, scope: &mut Scope, text: &str, meaning: Meaning) -> Result<(), TextFault>
    requires { is_term meaning ≡ false }
{
    let name = identifier(alloc, text)?;
    if scope.name(meaning).is_some() {
        return Err(TextFault::Sort(name.at));
    }
    scope.declare(&name, meaning)
}

fn declare_names(alloc: Global, scope: &mut Scope) -> Result<(), TextFault> {
    declare(alloc, scope, "b", Meaning::Test(0))?;
    declare(alloc, scope, "c", Meaning::Test(1))?;
    declare(alloc, scope, "p", Meaning::Action(0))?;
    declare(alloc, scope, "q", Meaning::Action(1))?;
    declare(alloc, scope, "x", Meaning::Var(0))?;
    declare(alloc, scope, "y", Meaning::Var(1))
}

// Returns a scope with two tests, two actions and two variables.
pub(crate) fn sample(alloc: Global) -> Result<Scope, TextFault> {
    let mut scope = Scope::new(alloc);
    declare_names(alloc, &mut scope)?;
    Ok(scope)
}

// Whether the result is as expected, either a text or a fault.
pub(crate) fn is_so(found: Result<Vec<u8>, TextFault>, expected: Result<&str, TextFault>) -> bool {
    match (found, expected) {
        (Ok(found), Ok(expected)) => found.as_slice() == expected.as_bytes(),
        (Err(found), Err(expected)) => found == expected,
        _ => false,
    }
}

pub(crate) fn put(out: &mut Vec<u8>, piece: &[u8]) -> Result<(), NoMemory> {
    Ok(out.extend_from_slice(piece)?)
}

pub(crate) fn put_term(
    alloc: Global,
    out: &mut Vec<u8>,
    term: &Kat,
    scope: &Scope,
) -> Result<(), NoMemory> {
    let text = print_term(alloc, term, scope)?;
    put(out, &text)
}
