//! Prints expressions.
ghost use Rattle.std.specs.Prelude.{◌≡◌, [], ◌∷◌, ◌++◌, codes, if◌then◌else◌, OnOk, IfOk};
ghost use Rattle.kat_model.specs.Trees.{test_tree};
ghost use Rattle.text_parser.specs.Pieces.{spelled};
ghost use Rattle.text_print.specs.Printing.{name_of};
ghost use Rattle.gkat_front.specs.Expressions.{test, gkat_tree};
ghost use Rattle.gkat_front.specs.Printing.{is_loop, guard_text, gkat_text, gkat_pieces};

use crate::gkat::Gkat;
use kat_model::{NoMemory, Test, append};
use std::alloc::Global;
use text_parser::{Meaning, Scope};
use text_print::{put_name, put_test};

// Appends the test in brackets.
fn put_guard(out: &mut Vec<u8>, guard: &Test, scope: &Scope) -> Result<(), NoMemory>
    ensures { OnOk result (out.new.items ≡ out.old.items ++ guard_text (name_of scope.now) (test_tree guard.now)) }
{
    out.push(b'[')?;
    put_test(out, guard, scope)?;
    out.push(b']')?;
    Ok(())
}

// Appends the test as an expression: `0`, `1`, its name, or its condition in brackets.
fn put_tested(out: &mut Vec<u8>, guard: &Test, scope: &Scope) -> Result<(), NoMemory>
    ensures { OnOk result (out.new.items ≡ out.old.items ++ gkat_text (name_of scope.now) (test (test_tree guard.now))) }
{
    match guard {
        Test::False => Ok(out.push(b'0')?),
        Test::True => Ok(out.push(b'1')?),
        Test::Prim(k) => put_name(out, scope, Meaning::Test(*k)),
        _ => put_guard(out, guard, scope),
    }
}

// Appends what follows the operand of a loop.
fn put_turns(out: &mut Vec<u8>, guard: &Test, scope: &Scope) -> Result<(), NoMemory>
    ensures { OnOk result (out.new.items ≡ out.old.items ++ (codes "^" ++ guard_text (name_of scope.now) (test_tree guard.now))) }
{
    out.push(b'^')?;
    put_guard(out, guard, scope)
}

fn is_loop(expr: &Gkat) -> bool
    ensures { result ≡ is_loop (gkat_tree expr.now) }
{
    matches!(expr, Gkat::Loop(_, _))
}

// Appends what is between the operands of a choice.
fn put_choice_mark(out: &mut Vec<u8>, guard: &Test, scope: &Scope) -> Result<(), NoMemory>
    ensures { OnOk result (out.new.items ≡ out.old.items ++ (codes " +" ++ guard_text (name_of scope.now) (test_tree guard.now) ++ codes " ")) }
{
    out.extend_from_slice(b" +")?;
    put_guard(out, guard, scope)?;
    append(out, b' ')
}

// Appends the bracket if it is needed.
fn put_round(out: &mut Vec<u8>, bracket: u8, needed: bool) -> Result<(), NoMemory>
    ensures { OnOk result (out.new.items ≡ out.old.items ++ (if needed then bracket ∷ [] else [])) }
{
    if needed {
        return append(out, bracket);
    }
    Ok(())
}

fn put_gkat(out: &mut Vec<u8>, expr: &Gkat, scope: &Scope) -> Result<(), NoMemory>
    ensures { OnOk result (out.new.items ≡ out.old.items ++ gkat_text (name_of scope.now) (gkat_tree expr.now)) }
{
    match expr {
        Gkat::Test(b) => put_tested(out, b, scope),
        Gkat::Act(a) => put_name(out, scope, Meaning::Action(*a)),
        Gkat::Seq(e, f) => {
            append(out, b'(')?;
            put_gkat(out, e, scope)?;
            append(out, b'.')?;
            put_gkat(out, f, scope)?;
            append(out, b')')
        }
        Gkat::Choice(b, e, f) => {
            append(out, b'(')?;
            put_gkat(out, e, scope)?;
            put_choice_mark(out, b, scope)?;
            put_gkat(out, f, scope)?;
            append(out, b')')
        }
        Gkat::Loop(b, e) => {
            put_round(out, b'(', is_loop(e))?;
            put_gkat(out, e, scope)?;
            put_round(out, b')', is_loop(e))?;
            put_turns(out, b, scope)
        }
    }
}

/// Returns the text of an expression, with the names of the scope: `0`, `1`, a name, `[c]` for other tests, `(x.y)`,
/// `(x +[c] y)`, and `x^[c]`, with parentheses around `x` if it is a loop. Omits a test or action that has no name in
/// the scope. Fails only when out of memory.
#[tactic(auto, using(crate::proofs::GkatPieces::gkat_printed))]
pub fn print_gkat(alloc: Global, expr: &Gkat, scope: &Scope) -> Result<Vec<u8>, NoMemory>
    ensures { IfOk result (λ v. v.items ≡ spelled (gkat_pieces (name_of scope.now) (gkat_tree expr.now) [])) }
{
    let mut out = Vec::new(alloc);
    put_gkat(&mut out, expr, scope)?;
    Ok(out)
}
