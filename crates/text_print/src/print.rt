//! Prints terms, conditions and expressions as text.
ghost use Rattle.std.specs.Prelude.{◌≡◌, [], ◌++◌, OnOk, IfOk};
ghost use Rattle.std.specs.Fmt.{decimal};
ghost use Rattle.kat_model.specs.Trees.{test_tree, kat_tree};
ghost use Rattle.kat_model.specs.Expressions.{compared, expr_tree, cond_tree};
ghost use Rattle.text_parser.specs.Pieces.{spelled};
ghost use Rattle.text_print.specs.Printing.{name_of, relation_text, cond_of, is_star, expr_text, cond_text, test_text, term_text, expr_pieces, cond_pieces, term_pieces};

use crate::writing::put_number;
use kat_model::{Cond, Expr, Kat, NoMemory, Rel, Test};
use std::alloc::Global;
use text_parser::{Meaning, Scope};

/// Returns the name that denotes the meaning in the scope, or an empty text if it has no name.
pub fn name_of(scope: &Scope, meaning: Meaning) -> &str
    ensures { result.now ≡ name_of scope.now meaning }
{
    match scope.name(meaning) {
        Some(name) => name,
        None => "",
    }
}

/// Appends to `out` the name that denotes the meaning in the scope, or nothing if it has no name.
pub fn put_name(out: &mut Vec<u8>, scope: &Scope, meaning: Meaning) -> Result<(), NoMemory>
    ensures { OnOk result (out.new.items ≡ out.old.items ++ name_of scope.now meaning) }
{
    out.extend_from_slice(name_of(scope, meaning).as_bytes())?;
    Ok(())
}

fn put_relation(out: &mut Vec<u8>, relation: Rel) -> Result<(), NoMemory>
    ensures { OnOk result (out.new.items ≡ out.old.items ++ relation_text relation) }
{
    match relation {
        Rel::Eq => out.extend_from_slice(b"==")?,
        Rel::Ne => out.extend_from_slice(b"!=")?,
        Rel::Lt => out.push(b'<')?,
        Rel::Le => out.extend_from_slice(b"<=")?,
        Rel::Gt => out.push(b'>')?,
        Rel::Ge => out.extend_from_slice(b">=")?,
    }
    Ok(())
}

fn put_expr(alloc: Global, out: &mut Vec<u8>, expr: &Expr, scope: &Scope) -> Result<(), NoMemory>
    ensures { OnOk result (out.new.items ≡ out.old.items ++ expr_text (name_of scope.now) (expr_tree expr.now)) }
{
    match expr {
        Expr::Num(n) => put_number(alloc, out, *n)?,
        Expr::Var(k) => put_name(out, scope, Meaning::Var(*k))?,
        Expr::Add(e, f) => {
            out.push(b'(')?;
            put_expr(alloc, out, e, scope)?;
            out.extend_from_slice(b" + ")?;
            put_expr(alloc, out, f, scope)?;
            out.push(b')')?;
        }
        Expr::Sub(e, f) => {
            out.push(b'(')?;
            put_expr(alloc, out, e, scope)?;
            out.extend_from_slice(b" - ")?;
            put_expr(alloc, out, f, scope)?;
            out.push(b')')?;
        }
        Expr::Mul(e, f) => {
            out.push(b'(')?;
            put_expr(alloc, out, e, scope)?;
            out.extend_from_slice(b" * ")?;
            put_expr(alloc, out, f, scope)?;
            out.push(b')')?;
        }
    }
    Ok(())
}

fn put_comparison(
    alloc: Global,
    out: &mut Vec<u8>,
    relation: Rel,
    left: &Expr,
    right: &Expr,
    scope: &Scope,
) -> Result<(), NoMemory>
    ensures { OnOk result (out.new.items ≡ out.old.items ++ cond_text (name_of scope.now) (compared relation (expr_tree left.now) (expr_tree right.now))) }
{
    out.push(b'(')?;
    put_expr(alloc, out, left, scope)?;
    out.push(b' ')?;
    put_relation(out, relation)?;
    out.push(b' ')?;
    put_expr(alloc, out, right, scope)?;
    out.push(b')')?;
    Ok(())
}

fn put_cond(alloc: Global, out: &mut Vec<u8>, cond: &Cond, scope: &Scope) -> Result<(), NoMemory>
    ensures { OnOk result (out.new.items ≡ out.old.items ++ cond_text (name_of scope.now) (cond_tree cond.now)) }
{
    match cond {
        Cond::True => out.extend_from_slice(b"true")?,
        Cond::False => out.extend_from_slice(b"false")?,
        Cond::Test(k) => put_name(out, scope, Meaning::Test(*k))?,
        Cond::Compare(relation, e, f) => put_comparison(alloc, out, *relation, e, f, scope)?,
        Cond::Not(b) => {
            out.push(b'!')?;
            put_cond(alloc, out, b, scope)?;
        }
        Cond::And(b, c) => {
            out.push(b'(')?;
            put_cond(alloc, out, b, scope)?;
            out.extend_from_slice(b" && ")?;
            put_cond(alloc, out, c, scope)?;
            out.push(b')')?;
        }
        Cond::Or(b, c) => {
            out.push(b'(')?;
            put_cond(alloc, out, b, scope)?;
            out.extend_from_slice(b" || ")?;
            put_cond(alloc, out, c, scope)?;
            out.push(b')')?;
        }
    }
    Ok(())
}

/// Appends to `out` the text of the test as a condition, as [`print_cond`] writes it. Fails only when out of memory;
/// `out` may then have a part of the text.
pub fn put_test(out: &mut Vec<u8>, test: &Test, scope: &Scope) -> Result<(), NoMemory>
    ensures { OnOk result (out.new.items ≡ out.old.items ++ cond_text (name_of scope.now) (cond_of (test_tree test.now))) }
{
    match test {
        Test::True => out.extend_from_slice(b"true")?,
        Test::False => out.extend_from_slice(b"false")?,
        Test::Prim(k) => put_name(out, scope, Meaning::Test(*k))?,
        Test::Not(b) => {
            out.push(b'!')?;
            put_test(out, b, scope)?;
        }
        Test::And(b, c) => {
            out.push(b'(')?;
            put_test(out, b, scope)?;
            out.extend_from_slice(b" && ")?;
            put_test(out, c, scope)?;
            out.push(b')')?;
        }
        Test::Or(b, c) => {
            out.push(b'(')?;
            put_test(out, b, scope)?;
            out.extend_from_slice(b" || ")?;
            put_test(out, c, scope)?;
            out.push(b')')?;
        }
    }
    Ok(())
}

// Appends the text of the test as a term: its name, or its condition in brackets.
fn put_tested(out: &mut Vec<u8>, test: &Test, scope: &Scope) -> Result<(), NoMemory>
    ensures { OnOk result (out.new.items ≡ out.old.items ++ test_text (name_of scope.now) (test_tree test.now)) }
{
    if let Test::Prim(k) = test {
        return put_name(out, scope, Meaning::Test(*k));
    }
    out.push(b'[')?;
    put_test(out, test, scope)?;
    out.push(b']')?;
    Ok(())
}

fn is_star(term: &Kat) -> bool
    ensures { result ≡ is_star (kat_tree term.now) }
{
    matches!(term, Kat::Star(_))
}

fn put_term(out: &mut Vec<u8>, term: &Kat, scope: &Scope) -> Result<(), NoMemory>
    ensures { OnOk result (out.new.items ≡ out.old.items ++ term_text (name_of scope.now) (kat_tree term.now)) }
{
    match term {
        Kat::Zero => out.push(b'0')?,
        Kat::One => out.push(b'1')?,
        Kat::Test(b) => put_tested(out, b, scope)?,
        Kat::Act(a) => put_name(out, scope, Meaning::Action(*a))?,
        Kat::Sum(e, f) => {
            out.push(b'(')?;
            put_term(out, e, scope)?;
            out.extend_from_slice(b" + ")?;
            put_term(out, f, scope)?;
            out.push(b')')?;
        }
        Kat::Seq(e, f) => {
            out.push(b'(')?;
            put_term(out, e, scope)?;
            out.push(b'.')?;
            put_term(out, f, scope)?;
            out.push(b')')?;
        }
        Kat::Star(e) => {
            if is_star(e) {
                out.push(b'(')?;
                put_term(out, e, scope)?;
                out.extend_from_slice(b")*")?;
            } else {
                put_term(out, e, scope)?;
                out.push(b'*')?;
            }
        }
    }
    Ok(())
}

/// Returns the text of a term: `0`, `1`, names of actions and of primitive tests, `[c]` for another test, `(x + y)`,
/// `(x.y)`, and `x*`, where `x` is in parentheses if it is a star. Omits a number that has no name in the scope.
#[tactic(auto, using(crate::proofs::PieceTexts::term_printed))]
pub fn print_term(alloc: Global, term: &Kat, scope: &Scope) -> Result<Vec<u8>, NoMemory>
    ensures { IfOk result (λ v. v.items ≡ spelled (term_pieces (name_of scope.now) (kat_tree term.now) [])) }
{
    let mut out = Vec::new(alloc);
    put_term(&mut out, term, scope)?;
    Ok(out)
}

/// Returns the text of a condition: `true`, `false`, names of tests, `!x`, `(x && y)`, `(x || y)`, and comparisons in
/// parentheses, such as `(e == f)`. Names are as in [`print_term`].
#[tactic(auto, using(crate::proofs::PieceTexts::cond_printed))]
pub fn print_cond(alloc: Global, cond: &Cond, scope: &Scope) -> Result<Vec<u8>, NoMemory>
    ensures { IfOk result (λ v. v.items ≡ spelled (cond_pieces (name_of scope.now) (cond_tree cond.now) [])) }
{
    let mut out = Vec::new(alloc);
    put_cond(alloc, &mut out, cond, scope)?;
    Ok(out)
}

/// Returns the text of an expression: decimal numbers, names of variables, `(e + f)`, `(e - f)`, `(e * f)`. Names are
/// as in [`print_term`].
#[tactic(auto, using(crate::proofs::PieceTexts::expr_printed))]
pub fn print_expr(alloc: Global, expr: &Expr, scope: &Scope) -> Result<Vec<u8>, NoMemory>
    ensures { IfOk result (λ v. v.items ≡ spelled (expr_pieces (name_of scope.now) (expr_tree expr.now) [])) }
{
    let mut out = Vec::new(alloc);
    put_expr(alloc, &mut out, expr, scope)?;
    Ok(out)
}
