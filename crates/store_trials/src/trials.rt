//! Trying a goal on stores.
ghost use Rattle.std.specs.Prelude.{◌≡◌, ◌↔◌, ◌≤◌, ◌^◌, true, IsTrue, IfOk, All, length};
ghost use Rattle.kat_model.specs.Expressions.{cond_tree};
ghost use Rattle.kat_model.specs.Stores.{IsStore};
ghost use Rattle.while_lang.specs.Programs.{is_concrete};
ghost use Rattle.while_lang.specs.Files.{equal, triple, prog_side};
ghost use Rattle.while_lang.specs.Trees.{goal_tree, side_tree};
ghost use Rattle.store_trials.specs.Trials.{SideEndsAs, AreDifferent, OutcomeFails, AreEnds, ShowFalse, cut_of, cuts, IsTrial, IsConcreteSide, IsConcreteGoal};

use crate::stores::copy;
use kat_model::{Cond, Items, NoMemory, Width};
use std::alloc::Global;
use std::marker::Model;
use while_lang::{Goal, Outcome, Prog, Side, Store, holds, run};

/// How a run ends, and the store that it reached.
#[derive(Drop)]
pub struct RunEnd {
    pub outcome: Outcome,
    pub store: Store,
}

impl Model for RunEnd {
    ghost use Rattle.store_trials.specs.RunEnds.{EndParts};

    ghost Value = { EndParts };

    ghost view = { λ e. record { outcome = e.outcome; store = e.store } };
}

/// What trying a goal on stores shows.
#[derive(Drop)]
pub enum Trial {
    /// The runs from this store show that the goal is false. It is the first such store; these are the ends of its runs.
    Fails(Store, Items<RunEnd>),
    /// There is no such store. This number of runs was cut short.
    NoneFails(u64),
}

// The ends of the runs from a store, whether they show that the goal is false, and how many runs were cut short.
#[derive(Drop)]
struct Tried {
    ends: Vec<RunEnd>,
    shown: bool,
    cut: u64,
}

// Runs a program from a store.
fn run_from(
    alloc: Global,
    width: Width,
    prog: &Prog,
    store: &Store,
    turns: u64,
) -> Result<RunEnd, NoMemory>
    requires concrete { is_concrete prog.now ≡ true }
    requires within { IsStore width store.now }
    ensures end { IfOk result (λ e. SideEndsAs width turns (prog_side prog.now) store.now e) }
    ensures within { IfOk result (λ e. IsStore width e.store) }
{
    let mut last = copy(alloc, store)?;
    let outcome = run(prog, width, &mut last, turns);
    Ok(RunEnd {
        outcome,
        store: last,
    })
}

// Runs a side, which is a program, from a store.
fn run_side(
    alloc: Global,
    width: Width,
    side: &Side,
    store: &Store,
    turns: u64,
) -> Result<RunEnd, NoMemory>
    requires concrete { IsConcreteSide (side_tree side.now) }
    requires within { IsStore width store.now }
    ensures end { IfOk result (λ e. SideEndsAs width turns (side_tree side.now) store.now e) }
    ensures within { IfOk result (λ e. IsStore width e.store) }
{
    match side {
        Side::Prog(prog) => run_from(alloc, width, prog, store, turns),
        Side::Term(_) => unreachable!(),
    }
}

// Whether two ends of runs from one store are different. A run that was cut short shows nothing.
fn are_different(first: &RunEnd, second: &RunEnd) -> bool
    ensures { IsTrue result ↔ AreDifferent first.now second.now }
{
    match (first.outcome, second.outcome) {
        (Outcome::Done, Outcome::Done) => {
            first.store.values.as_slice() != second.store.values.as_slice()
        }
        (Outcome::Done, Outcome::Stuck) | (Outcome::Stuck, Outcome::Done) => true,
        _ => false,
    }
}

// Whether a run ended in a store in which the condition fails.
fn fails(width: Width, cond: &Cond, end: &RunEnd) -> bool
    requires { IsStore width end.now.store }
    ensures { IsTrue result ↔ OutcomeFails width (cond_tree cond.now) end.now.outcome end.now.store }
{
    match end.outcome {
        Outcome::Done => !holds(width, cond, &end.store.values),
        Outcome::Stuck | Outcome::More => false,
    }
}

// Returns 1 if the run was cut short.
fn cut_of(end: &RunEnd) -> u64
    ensures number { result ≡ cut_of end.now.outcome }
    ensures few { result ≤ 1 }
{
    match end.outcome {
        Outcome::Done | Outcome::Stuck => 0,
        Outcome::More => 1,
    }
}

// Tries an equation of two programs on a store.
fn try_both(
    alloc: Global,
    width: Width,
    left: &Side,
    right: &Side,
    store: &Store,
    turns: u64,
) -> Result<Tried, NoMemory>
    requires left { IsConcreteSide (side_tree left.now) }
    requires right { IsConcreteSide (side_tree right.now) }
    requires within { IsStore width store.now }
    ensures ends { IfOk result (λ t. AreEnds width turns (equal (side_tree left.now) (side_tree right.now)) store.now t.ends.items) }
    ensures shown { IfOk result (λ t. IsTrue t.shown ↔ ShowFalse width (equal (side_tree left.now) (side_tree right.now)) store.now t.ends.items) }
    ensures cut { IfOk result (λ t. t.cut ≡ cuts t.ends.items) }
    ensures few { IfOk result (λ t. t.cut ≤ 2) }
{
    let first = run_side(alloc, width, left, store, turns)?;
    let second = run_side(alloc, width, right, store, turns)?;
    let shown = are_different(&first, &second);
    let cut = cut_of(&first) + cut_of(&second);
    let mut ends = Vec::new(alloc);
    ends.push(first)?;
    ends.push(second)?;
    Ok(Tried { ends, shown, cut })
}

// Tries a triple of a program on a store.
fn try_triple(
    alloc: Global,
    width: Width,
    pre: &Cond,
    body: &Side,
    post: &Cond,
    store: &Store,
    turns: u64,
) -> Result<Tried, NoMemory>
    requires body { IsConcreteSide (side_tree body.now) }
    requires within { IsStore width store.now }
    ensures ends { IfOk result (λ t. AreEnds width turns (triple (cond_tree pre.now) (side_tree body.now) (cond_tree post.now)) store.now t.ends.items) }
    ensures shown { IfOk result (λ t. IsTrue t.shown ↔ ShowFalse width (triple (cond_tree pre.now) (side_tree body.now) (cond_tree post.now)) store.now t.ends.items) }
    ensures cut { IfOk result (λ t. t.cut ≡ cuts t.ends.items) }
    ensures few { IfOk result (λ t. t.cut ≤ 2) }
{
    let end = run_side(alloc, width, body, store, turns)?;
    let shown = holds(width, pre, &store.values) && fails(width, post, &end);
    let cut = cut_of(&end);
    let mut ends = Vec::new(alloc);
    ends.push(end)?;
    Ok(Tried { ends, shown, cut })
}

// Tries a goal of concrete programs on a store.
fn try_store(
    alloc: Global,
    width: Width,
    goal: &Goal,
    store: &Store,
    turns: u64,
) -> Result<Tried, NoMemory>
    requires concrete { IsConcreteGoal (goal_tree goal.now) }
    requires within { IsStore width store.now }
    ensures ends { IfOk result (λ t. AreEnds width turns (goal_tree goal.now) store.now t.ends.items) }
    ensures shown { IfOk result (λ t. IsTrue t.shown ↔ ShowFalse width (goal_tree goal.now) store.now t.ends.items) }
    ensures cut { IfOk result (λ t. t.cut ≡ cuts t.ends.items) }
    ensures few { IfOk result (λ t. t.cut ≤ 2) }
{
    match goal {
        Goal::Equal(left, right) => try_both(alloc, width, left, right, store, turns),
        Goal::Triple(pre, body, post) => try_triple(alloc, width, pre, body, post, store, turns),
        Goal::Below(_, _) => unreachable!(),
    }
}

/// Tries a goal of concrete programs on stores, in order, each run for at most `turns` entries into loop bodies. Returns
/// the first store from which the ends of the runs show that the goal is false, with these ends: both programs ended,
/// in two stores, or one ended and the other is stuck; or the program of a triple ended in a store in which the
/// postcondition fails, from one in which the precondition holds. If there is none, returns the number of runs that
/// were cut short. Fails only when out of memory.
pub fn try_stores(
    alloc: Global,
    width: Width,
    goal: &Goal,
    stores: &[Store],
    turns: u64,
) -> Result<Trial, NoMemory>
    requires concrete { IsConcreteGoal (goal_tree goal.now) }
    requires within { All (IsStore width) stores.now }
    requires few { length stores.now ≤ 2 ^ 32 }
    ensures { IfOk result (λ trial. IsTrial width turns (goal_tree goal.now) stores.now trial) }
{
    let mut cut = 0;
    for store in stores {
        let tried = try_store(alloc, width, goal, store, turns)?;
        if tried.shown {
            let Tried { ends, .. } = tried;
            return Ok(Trial::Fails(copy(alloc, store)?, Items::of(ends)));
        }
        cut += tried.cut;
    }
    Ok(Trial::NoneFails(cut))
}
