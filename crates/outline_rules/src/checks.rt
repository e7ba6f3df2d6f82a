//! The checks of an outline, in the order of the program: all its conditions but the first and the last.
ghost use Rattle.std.specs.Prelude.{◌≡◌, [], ◌∷◌, ◌++◌, suc, map, IfOk, OnOk};
ghost use Rattle.while_lang.specs.Flows.{with_stmt, empty};
ghost use Rattle.while_lang.specs.FlowViews.{flow_stmt, flows_tree};
ghost use Rattle.outline_rules.specs.Places.{last_place};
ghost use Rattle.outline_rules.specs.Follows.{implies, leads, conditions_from};
ghost use Rattle.outline_rules.specs.Working.Checks.{guard_tree, condition_of, place_after, conditions_of_stmt};

use kat_model::{NoMemory, Test};
use while_lang::{Flow, Flows};

// What holds in addition to the first note.
#[derive(Clone, Copy)]
pub(crate) enum Guard<'a> {
    Always,
    Holds(&'a Test),
    Fails(&'a Test),
}

// A condition: the note at the first place and the guard imply the note at the last one, or the action leads from the
// first note to the last.
#[derive(Clone, Copy)]
pub(crate) enum Check<'a> {
    Implies(usize, Guard<'a>, usize),
    Leads(usize, usize, usize),
}

// Returns the place after this one. An overflow counts as out of memory: memory cannot hold that many places.
pub(crate) fn next_place(place: usize) -> Result<usize, NoMemory>
    ensures { IfOk result (λ next. next ≡ suc place) }
{
    place.checked_add(1).ok_or(NoMemory)
}

fn push_check<'a>(checks: &mut Vec<Check<'a>>, check: Check<'a>) -> Result<(), NoMemory>
    ensures { OnOk result (map condition_of checks.new.items ≡ map condition_of checks.old.items ++ condition_of check.entry ∷ []) }
{
    Ok(checks.push(check)?)
}

// Appends the check that the note at `from` and the guard imply the note at the place after `previous`, and returns that
// place.
fn push_implied<'a>(
    checks: &mut Vec<Check<'a>>,
    from: usize,
    guard: Guard<'a>,
    previous: usize,
) -> Result<usize, NoMemory>
    ensures place { IfOk result (λ to. to ≡ suc previous) }
    ensures checks { OnOk result (map condition_of checks.new.items
        ≡ map condition_of checks.old.items ++ implies from (guard_tree guard.entry) (suc previous) ∷ []) }
{
    let to = next_place(previous)?;
    push_check(checks, Check::Implies(from, guard, to)).and(Ok(to))
}

// Appends the check that the action leads from the note at `from` to the note at the next place, and returns that place.
fn push_led(checks: &mut Vec<Check<'_>>, from: usize, action: usize) -> Result<usize, NoMemory>
    ensures place { IfOk result (λ to. to ≡ suc from) }
    ensures checks { OnOk result (map condition_of checks.new.items
        ≡ map condition_of checks.old.items ++ leads from action (suc from) ∷ []) }
{
    let to = next_place(from)?;
    push_check(checks, Check::Leads(from, action, to)).and(Ok(to))
}

// Appends the checks of a statement that begins at `place`, and returns the place after it.
#[cycle(checks)]
fn push_stmt_checks<'a>(
    checks: &mut Vec<Check<'a>>,
    stmt: &'a Flow,
    place: usize,
) -> Result<usize, NoMemory>
    ensures place { IfOk result (λ after. after ≡ place_after (flow_stmt stmt.now) place) }
    ensures checks { OnOk result (map condition_of checks.new.items
        ≡ map condition_of checks.old.items ++ conditions_of_stmt (flow_stmt stmt.now) place) }
{
    match stmt {
        Flow::Skip => push_implied(checks, place, Guard::Always, place),
        Flow::Abort => next_place(place),
        Flow::Assert(b) => push_implied(checks, place, Guard::Holds(b), place),
        Flow::Act(a) => push_led(checks, place, *a),
        Flow::If(b, f, g) => {
            let first_end = push_block(checks, place, Guard::Holds(b), place, f)?;
            let second_end = push_block(checks, place, Guard::Fails(b), first_end, g)?;
            let joined = push_implied(checks, first_end, Guard::Always, second_end);
            joined.and(push_implied(checks, second_end, Guard::Always, second_end))
        }
        Flow::While(b, f) => {
            let invariant = push_implied(checks, place, Guard::Always, place)?;
            let body_end = push_block(checks, invariant, Guard::Holds(b), invariant, f)?;
            let again = push_check(checks, Check::Implies(body_end, Guard::Always, invariant));
            again.and(push_implied(checks, invariant, Guard::Fails(b), body_end))
        }
    }
}

// Appends the check that the note at `from` and the guard imply the first note of a block, which is at the place after
// `previous`, and the checks of the block. Returns the last place of the block.
#[cycle(checks)]
fn push_block<'a>(
    checks: &mut Vec<Check<'a>>,
    from: usize,
    guard: Guard<'a>,
    previous: usize,
    block: &'a Flows,
) -> Result<usize, NoMemory>
    ensures place { IfOk result (λ last. last ≡ last_place block.now (suc previous)) }
    ensures checks { OnOk result (map condition_of checks.new.items
        ≡ map condition_of checks.old.items ++ implies from (guard_tree guard.entry) (suc previous) ∷ conditions_from block.now (suc previous)) }
{
    let first = push_implied(checks, from, guard, previous)?;
    push_checks(checks, &block.list, first)
}

// Appends the checks of a list of statements whose first place is `place`, and returns its last place.
#[cycle(checks)]
pub(crate) fn push_checks<'a>(
    checks: &mut Vec<Check<'a>>,
    list: &'a [Flow],
    place: usize,
) -> Result<usize, NoMemory>
    ensures place { IfOk result (λ last. last ≡ last_place (flows_tree list.now) place) }
    ensures checks { OnOk result (map condition_of checks.new.items
        ≡ map condition_of checks.old.items ++ conditions_from (flows_tree list.now) place) }
{
    let mut at = place;
    for stmt in list {
        at = push_stmt_checks(checks, stmt, at)?;
    }
    Ok(at)
}
