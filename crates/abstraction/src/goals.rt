//! The two terms that a goal compares, over the rows of tables.
ghost use Rattle.std.specs.Prelude.{◌≡◌, IfOk};
ghost use Rattle.kat_model.specs.Trees.{kat_tree};
ghost use Rattle.goal_forms.specs.Sides.{side_trees};
ghost use Rattle.while_lang.specs.Trees.{side_tree, goal_tree};
ghost use Rattle.abstraction.specs.Goals.{side_term, goal_sides};

use crate::conditions::cond_test;
use crate::flows::prog_flow;
use crate::tables::RowTables;
use goal_forms::{Sides, below, triple};
use kat_model::{Kat, NoMemory};
use std::alloc::Global;
use while_lang::{Goal, Side, encode};

fn side_term(alloc: Global, tables: &RowTables, side: &Side) -> Result<Kat, NoMemory>
    ensures { IfOk result (λ e. kat_tree e ≡ side_term tables.now (side_tree side.now)) }
{
    match side {
        Side::Term(term) => term.copy(alloc),
        Side::Prog(prog) => {
            let flow = prog_flow(alloc, tables, prog)?;
            encode(alloc, &flow)
        }
    }
}

/// Builds the two terms that a goal compares, with programs as the terms of their flows; missing rows count as for
/// `prog_flow`. Fails only when out of memory.
pub(crate) fn goal_sides(alloc: Global, tables: &RowTables, goal: &Goal) -> Result<Sides, NoMemory>
    ensures { IfOk result (λ s. side_trees s ≡ goal_sides tables.now (goal_tree goal.now)) }
{
    match goal {
        Goal::Equal(l, r) => {
            let left = side_term(alloc, tables, l)?;
            let right = side_term(alloc, tables, r)?;
            Ok(Sides { left, right })
        }
        Goal::Below(l, r) => {
            let small = side_term(alloc, tables, l)?;
            let large = side_term(alloc, tables, r)?;
            below(alloc, small, large)
        }
        Goal::Triple(pre, body, post) => {
            let before = cond_test(alloc, tables, pre)?;
            let term = side_term(alloc, tables, body)?;
            let after = cond_test(alloc, tables, post)?;
            triple(alloc, before, term, after)
        }
    }
}
