//! The terms of expressions.
ghost use Rattle.std.specs.Prelude.{◌≡◌, IfOk};
ghost use Rattle.kat_model.specs.Trees.{kat_tree};
ghost use Rattle.gkat_front.specs.Expressions.{gkat_tree, kat_of};

use crate::gkat::Gkat;
use kat_model::{Kat, NoMemory};
use std::alloc::Global;
use while_lang::{branch_term, loop_term};

/// Builds the term of an expression: a test or an action is itself, a product is a product, a choice is `b.e + !b.f`
/// and a loop is `(b.e)*.!b`. Fails only when out of memory.
pub fn kat_of(alloc: Global, expr: &Gkat) -> Result<Kat, NoMemory>
    ensures { IfOk result (λ e. kat_tree e ≡ kat_of (gkat_tree expr.now)) }
{
    match expr {
        Gkat::Test(b) => Ok(Kat::Test(b.copy(alloc)?)),
        Gkat::Act(a) => Ok(Kat::Act(*a)),
        Gkat::Seq(e, f) => {
            let first = kat_of(alloc, e)?;
            let second = kat_of(alloc, f)?;
            Kat::new_seq(alloc, first, second)
        }
        Gkat::Choice(b, e, f) => {
            let first = kat_of(alloc, e)?;
            let second = kat_of(alloc, f)?;
            branch_term(alloc, b, first, second)
        }
        Gkat::Loop(b, e) => {
            let body = kat_of(alloc, e)?;
            loop_term(alloc, b, body)
        }
    }
}
