//! The choice among blocks by the counter.
ghost use Rattle.std.specs.Prelude.{◌≡◌, ◌+◌, ◌-◌, ◌≤◌, take, drop, IfOk, vec_len};
ghost use Rattle.one_loop.specs.Working.Blocks.{Chooses};

use crate::blocks::one_stmt;
use kat_model::{Cond, Expr, NoMemory, Rel};
use std::alloc::Global;
use while_lang::{Prog, Stmt};

// Builds the choice among the last blocks of a list, and removes them from the list. Blocks are numbered from 1. The
// choice separates the first half from the rest, so its depth is logarithmic in the number of blocks.
pub(crate) fn choice_of_last(
    alloc: Global,
    counter: usize,
    blocks: &mut Vec<Prog>,
    count: usize,
) -> Result<Prog, NoMemory>
    requires { count ≤ vec_len blocks.old }
    ensures left { IfOk result (λ _. blocks.new.items ≡ take (vec_len blocks.old - count) blocks.old.items) }
    ensures choice { IfOk result (λ p. Chooses counter (vec_len blocks.old - count + 1) (drop (vec_len blocks.old - count) blocks.old.items) p) }
{
    if count == 0 {
        let list = Vec::new(alloc);
        return Ok(Prog { list });
    }
    if count == 1 {
        return match blocks.pop() {
            Some(block) => Ok(block),
            None => Ok(Prog {
                list: Vec::new(alloc),
            }),
        };
    }
    let half = count / 2;
    let second = choice_of_last(alloc, counter, blocks, count - half)?;
    let number = blocks.len() as u64 + 1;
    let first = choice_of_last(alloc, counter, blocks, half)?;
    let below = Cond::Compare(Rel::Lt, Expr::Var(counter), Expr::Num(number));
    one_stmt(alloc, Stmt::If(below, first, second))
}
