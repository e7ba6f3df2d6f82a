//! The form of a program with one loop.
ghost use Rattle.std.specs.Prelude.{◌≡◌, ◌≤◌, ◌<◌, ◌↔◌, ℕ, true, IfOk, Err};
ghost use Rattle.kat_model.specs.declared.limits.TheConstants.{MAX_VARS};
ghost use Rattle.while_lang.specs.Programs.{is_concrete};
ghost use Rattle.one_loop.specs.Variables.{HasVarsBelow};
ghost use Rattle.one_loop.specs.Statements.{HasTooManyStatements};
ghost use Rattle.one_loop.specs.Forms.{IsOneForm};
ghost use Rattle.one_loop.specs.Sizes.{IsSmallForm};
ghost use Rattle.one_loop.specs.Working.Blocks.{loop_from, IsPointLoop};

use crate::blocks::{jump, two_stmts};
use crate::choice::choice_of_last;
use crate::fault::OneLoopFault;
use crate::points::add_points;
use crate::statements::statement_count;
use kat_model::{Cond, Expr, MAX_VARS, NoMemory, Rel, Width};
use std::alloc::Global;
use while_lang::{Prog, Stmt};

// Builds the loop that starts at a point and stops at the end.
fn loop_over(alloc: Global, counter: usize, start: u64, body: Prog) -> Result<Prog, NoMemory>
    ensures { IfOk result (λ p. p ≡ loop_from counter start body) }
{
    let going = Cond::Compare(Rel::Ne, Expr::Var(counter), Expr::Num(0));
    two_stmts(alloc, jump(counter, start), Stmt::While(going, body))
}

// Builds the loop over the points of a program.
fn point_loop(alloc: Global, prog: &Prog, counter: usize) -> Result<Prog, NoMemory>
    ensures { IfOk result (λ p. IsPointLoop counter prog.now p) }
{
    let mut blocks = Vec::new(alloc);
    let start = add_points(alloc, counter, prog, 0, &mut blocks)?;
    let count = blocks.len();
    let body = choice_of_last(alloc, counter, &mut blocks, count)?;
    loop_over(alloc, counter, start, body)
}

/// Builds the form of a concrete program over `vars` variables, at most [`MAX_VARS`]: a program with exactly one loop
/// and one additional variable, its counter, which ends in the same stores followed by the counter (Harel 1980; Kozen
/// 1997). The counter is variable number `vars`; its initial value does not matter, and it is 0 at the end. Its nodes are
/// at most those of the program, eight for each statement and six, and it nests deeper than the program by at most the
/// logarithm of the number of statements, rounded up, and one. Its numbers are those of the program, and numbers up to
/// the number of statements. Fails with `TooManyVars` if there are that many variables, and otherwise with
/// `TooManyStatements` if there are more statements than the greatest number of the width, including statements of
/// blocks. Otherwise fails only when out of memory.
///
/// The loop body does one statement a turn. Statements without a choice could share a turn; `IsOneForm` allows both.
pub fn one_loop(alloc: Global, prog: &Prog, vars: usize, width: Width) -> Result<Prog, OneLoopFault>
    requires concrete { is_concrete prog.now ≡ true }
    requires variables { HasVarsBelow vars prog.now }
    requires within { vars ≤ MAX_VARS }
    ensures form { IfOk result (λ q. IsOneForm width prog.now q vars) }
    ensures small { IfOk result (λ q. IsSmallForm prog.now q) }
    ensures too_many_vars { (result ≡ Err OneLoopFault.TooManyVars) ↔ (vars ≡ MAX_VARS) }
    ensures too_many_statements { (n : ℕ) → (result ≡ Err (OneLoopFault.TooManyStatements n))
        ↔ ((vars < MAX_VARS) × HasTooManyStatements width prog.now n) }
{
    if vars == MAX_VARS {
        return Err(OneLoopFault::TooManyVars);
    }
    match statement_count(prog) {
        Some(count) if count <= width.greatest() => Ok(point_loop(alloc, prog, vars)?),
        Some(count) => Err(OneLoopFault::TooManyStatements(count)),
        None => Err(OneLoopFault::TooManyStatements(u64::MAX)),
    }
}
