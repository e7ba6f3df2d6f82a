//! Texts and their tokens.
use crate::fixtures::cut;
use std::alloc::Global;
use std::test::Fail;
use text_parser::{Kind, TextFault, Token};

fn is_token(token: &Token, expected: (Kind, &str, usize)) -> bool {
    token.kind == expected.0 && token.text == expected.1 && token.at == expected.2
}

fn are_tokens(found: &[Token]) -> bool {
    match found {
        [a, b, c, d] => {
            is_token(a, (Kind::Number, "0", 7))
                && is_token(b, (Kind::Name, "e\u{301}", 8))
                && is_token(c, (Kind::Symbol, ":=", 11))
                && is_token(d, (Kind::Number, "007", 13))
        }
        _ => false,
    }
}

fn text_has_tokens(alloc: Global) -> Result<bool, TextFault> {
    let found = cut(alloc, "# \u{a0}\rx\n0e\u{301}:=007#")?;
    Ok(are_tokens(&found))
}

fn fault(alloc: Global, text: &str) -> Option<TextFault> {
    match cut(alloc, text) {
        Ok(_) => None,
        Err(fault) => Some(fault),
    }
}

#[test]
fn texts_have_tokens(rt: HostRuntime) -> Result<(), Fail> {
    assert!(rt; text_has_tokens(rt.alloc())?);
    assert!(rt; fault(rt.alloc(), "a\u{a0}b") == Some(TextFault::BadToken(1)));
    Ok(())
}
