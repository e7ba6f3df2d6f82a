//! Where phrases end, and their trees.
use crate::fixtures::{cut, is_so, sample};
use kat_model::{Cond, Expr, Kat, NoMemory};
use std::alloc::Global;
use text_parser::{
    Scope, TextFault, cond_end, expr_end, read_cond, read_expr, read_term, term_end,
};
use text_print::{print_cond, print_expr, print_term};
use while_lang::block_end;

// Returns the index after the phrase at the start of the text, with `depth` open constructs around it.
fn end(alloc: Global, sort: &str, text: &str, depth: usize) -> Result<usize, TextFault> {
    let found = cut(alloc, text)?;
    match sort {
        "term" => term_end(&found, 0, depth),
        "cond" => cond_end(&found, 0, depth),
        "block" => block_end(&found, 0, depth),
        _ => expr_end(&found, 0, depth),
    }
}

const ENDS: &[(&str, usize, &str, Result<usize, TextFault>)] = &[
    ("term", 0, "p + q.r*; x", Ok(6)),
    ("term", 199, "p.([b])", Err(TextFault::TooDeep(3))),
    ("cond", 0, "(b) && (x) == y && 0 != 1", Ok(13)),
    ("expr", 0, "x * true", Err(TextFault::Syntax(4))),
    ("block", 0, "{ skip; x := y * 2; p; } x", Ok(12)),
    ("block", 0, "{ skip }", Err(TextFault::Syntax(7))),
    ("block", 199, "{ if b { } }", Err(TextFault::TooDeep(7))),
];

#[test]
fn phrases_end(rt: HostRuntime) {
    for (sort, depth, text, expected) in ENDS {
        assert!(rt;
            end(rt.alloc(), sort, text, *depth) == *expected,
            "in {text}"
        );
    }
}

fn term(alloc: Global, text: &str, scope: &Scope) -> Result<Kat, TextFault> {
    let found = cut(alloc, text)?;
    let (term, _, _) = read_term(alloc, &found, 0, 0, scope)?;
    Ok(term)
}

pub(crate) fn cond(alloc: Global, text: &str, scope: &Scope) -> Result<Cond, TextFault> {
    let found = cut(alloc, text)?;
    let (cond, _, _) = read_cond(alloc, &found, 0, 0, scope, true)?;
    Ok(cond)
}

fn expr(alloc: Global, text: &str, scope: &Scope) -> Result<Expr, TextFault> {
    let found = cut(alloc, text)?;
    let (expr, _, _) = read_expr(alloc, &found, 0, 0, scope)?;
    Ok(expr)
}

// Prints a copy of the term.
fn term_copy(alloc: Global, term: &Kat, scope: &Scope) -> Result<Vec<u8>, NoMemory> {
    let copy = term.copy(alloc)?;
    print_term(alloc, &copy, scope)
}

fn cond_copy(alloc: Global, cond: &Cond, scope: &Scope) -> Result<Vec<u8>, NoMemory> {
    let copy = cond.copy(alloc)?;
    print_cond(alloc, &copy, scope)
}

fn expr_copy(alloc: Global, expr: &Expr, scope: &Scope) -> Result<Vec<u8>, NoMemory> {
    let copy = expr.copy(alloc)?;
    print_expr(alloc, &copy, scope)
}

fn term_text(alloc: Global, text: &str, scope: &Scope) -> Result<Vec<u8>, TextFault> {
    let term = term(alloc, text, scope)?;
    Ok(term_copy(alloc, &term, scope)?)
}

fn cond_text(alloc: Global, text: &str, scope: &Scope) -> Result<Vec<u8>, TextFault> {
    let cond = cond(alloc, text, scope)?;
    Ok(cond_copy(alloc, &cond, scope)?)
}

fn expr_text(alloc: Global, text: &str, scope: &Scope) -> Result<Vec<u8>, TextFault> {
    let expr = expr(alloc, text, scope)?;
    Ok(expr_copy(alloc, &expr, scope)?)
}

fn shown(alloc: Global, sort: &str, text: &str, scope: &Scope) -> Result<Vec<u8>, TextFault> {
    match sort {
        "term" => term_text(alloc, text, scope),
        "cond" => cond_text(alloc, text, scope),
        _ => expr_text(alloc, text, scope),
    }
}

// Prints the phrase.
fn phrase_text(alloc: Global, sort: &str, text: &str) -> Result<Vec<u8>, TextFault> {
    let scope = sample(alloc)?;
    shown(alloc, sort, text, &scope)
}

const PHRASES: &[(&str, &str, Result<&str, TextFault>)] = &[
    (
        "term",
        "!(b + c) + p.b.p*",
        Ok("([!(b || c)] + (p.(b.p*)))"),
    ),
    ("term", "b + p.!(c + q)", Err(TextFault::Sort(12))),
    (
        "cond",
        "x - 1 - y < 007 && c",
        Ok("((((x - 1) - y) < 7) && c)"),
    ),
    ("expr", "1 + x * (2 - y)", Ok("(1 + (x * (2 - y)))")),
];

#[test]
fn phrases_are_read(rt: HostRuntime) {
    for (sort, text, expected) in PHRASES {
        assert!(rt;
            is_so(phrase_text(rt.alloc(), sort, text), *expected),
            "in {text}"
        );
    }
}
