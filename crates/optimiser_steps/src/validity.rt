//! Decides the conditions of the steps.
ghost use Rattle.std.specs.Prelude.{◌≡◌, ◌↔◌, IsTrue, IfOk};
ghost use Rattle.kat_model.specs.Problems.{AreInRange};
ghost use Rattle.kat_model.specs.Expressions.{always, negation, cond_tree};
ghost use Rattle.while_lang.specs.Trees.{goal_tree};
ghost use Rattle.while_lang.specs.Ranges.{IsCondInRange, IsProgInRange};
ghost use Rattle.abstraction.specs.Abstracts.{with_goal, HasNumbersInRange};
ghost use Rattle.optimiser_steps.specs.Validity.{IsValid, HoldsAlways, HoldsNever};
ghost use Rattle.optimiser_steps.specs.Statements.{single, IsStmtInRange};
ghost use Rattle.while_lang.specs.ProgramViews.{stmt_tree};
ghost use Rattle.optimiser_steps.specs.Working.Goals.{GoalIsSame};

use crate::copies::single;
use abstraction::{AbstractFault, abstracted_for};
use bisim_worklist::is_same;
use kat_model::{Cond, NoMemory};
use std::alloc::Global;
use while_lang::{File, Goal, Prog, Side, Stmt, copy_stmt};

// Whether the goal is within the limits of an abstraction, and the two sides of its problem are the same.
fn is_goal_same(alloc: Global, file: &File, goal: &Goal) -> Result<bool, NoMemory>
    requires { HasNumbersInRange (with_goal file.now (goal_tree goal.now)) }
    ensures { IfOk result (λ same. IsTrue same ↔ GoalIsSame (with_goal file.now (goal_tree goal.now))) }
{
    match abstracted_for(alloc, file, goal) {
        Ok(shown) => is_same(alloc, &shown.problem),
        Err(AbstractFault::NoMemory) => Err(NoMemory),
        Err(
            AbstractFault::TooManyTests
            | AbstractFault::TooManyActions
            | AbstractFault::ProblemTooLarge,
        ) => Ok(false),
    }
}

/// Whether the triple is valid.
pub(crate) fn is_valid(
    alloc: Global,
    file: &File,
    pre: Cond,
    body: Prog,
    post: Cond,
) -> Result<bool, NoMemory>
    requires hyps { AreInRange file.now.tests file.now.actions file.now.hyps }
    requires body { IsProgInRange file.now.tests file.now.actions file.now.vars body }
    requires pre { IsCondInRange file.now.tests file.now.vars (cond_tree pre) }
    requires post { IsCondInRange file.now.tests file.now.vars (cond_tree post) }
    ensures { IfOk result (λ valid. IsTrue valid ↔ IsValid file.now (cond_tree pre) body (cond_tree post)) }
{
    let goal = Goal::Triple(pre, Side::Prog(body), post);
    is_goal_same(alloc, file, &goal)
}

fn opposite_of(alloc: Global, cond: &Cond) -> Result<Cond, NoMemory>
    ensures { IfOk result (λ b. cond_tree b ≡ negation (cond_tree cond.now)) }
{
    let copy = cond.copy(alloc)?;
    Cond::new_not(alloc, copy)
}

/// Whether the condition always holds.
pub(crate) fn holds_always(alloc: Global, file: &File, cond: &Cond) -> Result<bool, NoMemory>
    requires hyps { AreInRange file.now.tests file.now.actions file.now.hyps }
    requires cond { IsCondInRange file.now.tests file.now.vars (cond_tree cond.now) }
    ensures { IfOk result (λ valid. IsTrue valid ↔ HoldsAlways file.now (cond_tree cond.now)) }
{
    let nothing = Prog {
        list: Vec::new(alloc),
    };
    is_valid(alloc, file, Cond::True, nothing, cond.copy(alloc)?)
}

/// Whether the condition never holds.
pub(crate) fn holds_never(alloc: Global, file: &File, cond: &Cond) -> Result<bool, NoMemory>
    requires hyps { AreInRange file.now.tests file.now.actions file.now.hyps }
    requires cond { IsCondInRange file.now.tests file.now.vars (cond_tree cond.now) }
    ensures { IfOk result (λ valid. IsTrue valid ↔ HoldsNever file.now (cond_tree cond.now)) }
{
    let opposite = opposite_of(alloc, cond)?;
    holds_always(alloc, file, &opposite)
}

/// Whether the condition holds after each terminating run of the statement.
pub(crate) fn holds_after(
    alloc: Global,
    file: &File,
    stmt: &Stmt,
    cond: &Cond,
) -> Result<bool, NoMemory>
    requires hyps { AreInRange file.now.tests file.now.actions file.now.hyps }
    requires stmt { IsStmtInRange file.now (stmt_tree stmt.now) }
    requires cond { IsCondInRange file.now.tests file.now.vars (cond_tree cond.now) }
    ensures { IfOk result (λ valid. IsTrue valid ↔ IsValid file.now always (single (stmt_tree stmt.now)) (cond_tree cond.now)) }
{
    let body = single(alloc, copy_stmt(alloc, stmt)?)?;
    is_valid(alloc, file, Cond::True, body, cond.copy(alloc)?)
}

/// Whether the condition fails after each terminating run of the statement.
pub(crate) fn fails_after(
    alloc: Global,
    file: &File,
    stmt: &Stmt,
    cond: &Cond,
) -> Result<bool, NoMemory>
    requires hyps { AreInRange file.now.tests file.now.actions file.now.hyps }
    requires stmt { IsStmtInRange file.now (stmt_tree stmt.now) }
    requires cond { IsCondInRange file.now.tests file.now.vars (cond_tree cond.now) }
    ensures { IfOk result (λ valid. IsTrue valid ↔ IsValid file.now always (single (stmt_tree stmt.now)) (negation (cond_tree cond.now))) }
{
    let opposite = opposite_of(alloc, cond)?;
    holds_after(alloc, file, stmt, &opposite)
}

/// Whether the program preserves the condition.
pub(crate) fn keeps(alloc: Global, file: &File, cond: &Cond, body: &Prog) -> Result<bool, NoMemory>
    requires hyps { AreInRange file.now.tests file.now.actions file.now.hyps }
    requires body { IsProgInRange file.now.tests file.now.actions file.now.vars body.now }
    requires cond { IsCondInRange file.now.tests file.now.vars (cond_tree cond.now) }
    ensures { IfOk result (λ valid. IsTrue valid ↔ IsValid file.now (cond_tree cond.now) body.now (cond_tree cond.now)) }
{
    let pre = cond.copy(alloc)?;
    let post = cond.copy(alloc)?;
    is_valid(alloc, file, pre, body.copy(alloc)?, post)
}

/// Whether the program preserves the negation of the condition.
pub(crate) fn keeps_opposite(
    alloc: Global,
    file: &File,
    cond: &Cond,
    body: &Prog,
) -> Result<bool, NoMemory>
    requires hyps { AreInRange file.now.tests file.now.actions file.now.hyps }
    requires body { IsProgInRange file.now.tests file.now.actions file.now.vars body.now }
    requires cond { IsCondInRange file.now.tests file.now.vars (cond_tree cond.now) }
    ensures { IfOk result (λ valid. IsTrue valid ↔ IsValid file.now (negation (cond_tree cond.now)) body.now (negation (cond_tree cond.now))) }
{
    let opposite = opposite_of(alloc, cond)?;
    keeps(alloc, file, &opposite, body)
}
