//! Prints programs as text.
ghost use Rattle.std.specs.Prelude.{◌≡◌, [], ◌++◌, codes, OnOk, IfOk};
ghost use Rattle.kat_model.specs.Expressions.{expr_tree, cond_tree};
ghost use Rattle.text_parser.specs.Pieces.{spelled};
ghost use Rattle.text_print.specs.Printing.{name_of, expr_text, cond_text};
ghost use Rattle.while_lang.specs.ProgramViews.{stmt_tree};
ghost use Rattle.while_lang.specs.ProgramPrinting.{block_pieces};
ghost use Rattle.while_lang.specs.BlockTexts.{stmt_text, block_text};

use crate::prog::{Prog, Stmt};
use kat_model::{Cond, Expr, NoMemory};
use std::alloc::Global;
use text_parser::{Meaning, Scope};
use text_print::{print_cond, print_expr, put, put_name};

#[tactic(auto, using(crate::proofs::PrintedPieces::cond_whole))]
fn put_cond(alloc: Global, out: &mut Vec<u8>, cond: &Cond, scope: &Scope) -> Result<(), NoMemory>
    ensures { OnOk result (out.new.items ≡ out.old.items ++ cond_text (name_of scope.now) (cond_tree cond.now)) }
{
    let text = print_cond(alloc, cond, scope)?;
    put(out, &text)
}

#[tactic(auto, using(crate::proofs::PrintedPieces::expr_whole))]
fn put_expr(alloc: Global, out: &mut Vec<u8>, expr: &Expr, scope: &Scope) -> Result<(), NoMemory>
    ensures { OnOk result (out.new.items ≡ out.old.items ++ expr_text (name_of scope.now) (expr_tree expr.now)) }
{
    let text = print_expr(alloc, expr, scope)?;
    put(out, &text)
}

// Appends a condition between two texts.
fn put_guard(
    alloc: Global,
    out: &mut Vec<u8>,
    before: &[u8],
    cond: &Cond,
    after: &[u8],
    scope: &Scope,
) -> Result<(), NoMemory>
    ensures { OnOk result (out.new.items ≡ out.old.items ++ (before.now ++ (cond_text (name_of scope.now) (cond_tree cond.now) ++ after.now))) }
{
    put(out, before)?;
    put_cond(alloc, out, cond, scope)?;
    put(out, after)
}

// Appends a blank, a name and a text.
fn put_named(
    out: &mut Vec<u8>,
    scope: &Scope,
    meaning: Meaning,
    after: &[u8],
) -> Result<(), NoMemory>
    ensures { OnOk result (out.new.items ≡ out.old.items ++ (codes " " ++ (name_of scope.now meaning ++ after.now))) }
{
    put(out, b" ")?;
    put_name(out, scope, meaning)?;
    put(out, after)
}

// Appends a blank and the statement.
#[cycle(prints)]
fn put_stmt(alloc: Global, out: &mut Vec<u8>, stmt: &Stmt, scope: &Scope) -> Result<(), NoMemory>
    ensures { OnOk result (out.new.items ≡ out.old.items ++ stmt_text (name_of scope.now) (stmt_tree stmt.now)) }
{
    match stmt {
        Stmt::Skip => put(out, b" skip;"),
        Stmt::Abort => put(out, b" abort;"),
        Stmt::Assert(b) => put_guard(alloc, out, b" assert ", b, b";", scope),
        Stmt::Act(a) => put_named(out, scope, Meaning::Action(*a), b";"),
        Stmt::Assign(x, e) => {
            put_named(out, scope, Meaning::Var(*x), b" := ")?;
            put_expr(alloc, out, e, scope)?;
            put(out, b";")
        }
        Stmt::If(b, p, q) => {
            put_guard(alloc, out, b" if ", b, b" ", scope)?;
            put_block(alloc, out, p, scope)?;
            put(out, b" else ")?;
            put_block(alloc, out, q, scope)
        }
        Stmt::While(b, p) => {
            put_guard(alloc, out, b" while ", b, b" ", scope)?;
            put_block(alloc, out, p, scope)
        }
    }
}

/// Appends a program as a block, with a blank before each statement and before the closing brace. Fails only when out of
/// memory; a part may then be written.
#[cycle(prints)]
pub fn put_block(
    alloc: Global,
    out: &mut Vec<u8>,
    prog: &Prog,
    scope: &Scope,
) -> Result<(), NoMemory>
    ensures { OnOk result (out.new.items ≡ out.old.items ++ block_text (name_of scope.now) prog.now) }
{
    put(out, b"{")?;
    for stmt in &prog.list {
        put_stmt(alloc, out, stmt, scope)?;
    }
    put(out, b" }")
}

/// Returns the text of a program as a block: `{`, each statement after a blank, and ` }`. Statements are `skip;`,
/// `abort;`, `assert c;`, the name of an action, `x := e;`, `if c BLOCK else BLOCK` and `while c BLOCK`; the second
/// block is always written. Omits a number that has no name in the scope.
#[tactic(auto, using(crate::proofs::PrintedPieces::block_printed))]
pub fn print_prog(alloc: Global, prog: &Prog, scope: &Scope) -> Result<Vec<u8>, NoMemory>
    ensures { IfOk result (λ v. v.items ≡ spelled (block_pieces (name_of scope.now) prog.now [])) }
{
    let mut out = Vec::new(alloc);
    put_block(alloc, &mut out, prog, scope)?;
    Ok(out)
}
