//! The interpreter.
ghost use Rattle.std.specs.Prelude.{◌≡◌, ◌≤◌, ◌↔◌, ℕ, List, true, length};
ghost use Rattle.kat_model.specs.Stores.{IsStore};
ghost use Rattle.while_lang.specs.Programs.{is_concrete, with_stmt, empty};
ghost use Rattle.while_lang.specs.ProgramViews.{stmt_tree, list_tree};
ghost use Rattle.while_lang.specs.Runs.{HasOutcome};
ghost use Rattle.while_lang.specs.Working.Running.{ended, run_end};

use crate::outcome::Outcome;
use crate::prog::{Prog, Stmt};
use crate::store::{Store, holds, value};
use kat_model::Width;

// Runs statements in order. Deducts the turns used.
#[cycle(runs)]
fn run_list(list: &[Stmt], width: Width, store: &mut Store, turns: &mut u64) -> Outcome
    requires { IsStore width store.old }
    ensures ended { ended result store.new turns.new ≡ run_end width (list_tree list.now) store.old turns.old }
    ensures fewer { turns.new ≤ turns.old }
    ensures length { length store.new ≡ length store.old }
    ensures within { IsStore width store.new }
{
    for stmt in list {
        let outcome = run_stmt(stmt, width, store, turns);
        if outcome != Outcome::Done {
            return outcome;
        }
    }
    Outcome::Done
}

#[cycle(runs)]
fn run_stmt(stmt: &Stmt, width: Width, store: &mut Store, turns: &mut u64) -> Outcome
    requires { IsStore width store.old }
    ensures ended { ended result store.new turns.new ≡ run_end width (with_stmt (stmt_tree stmt.now) empty) store.old turns.old }
    ensures fewer { turns.new ≤ turns.old }
    ensures length { length store.new ≡ length store.old }
    ensures within { IsStore width store.new }
{
    match stmt {
        Stmt::Skip => Outcome::Done,
        Stmt::Abort | Stmt::Act(_) => Outcome::Stuck,
        Stmt::Assert(b) => {
            if holds(width, b, &store.values) {
                Outcome::Done
            } else {
                Outcome::Stuck
            }
        }
        Stmt::Assign(x, e) => {
            let number = value(width, e, &store.values);
            store.set(*x, number);
            Outcome::Done
        }
        Stmt::If(b, p, q) => {
            if holds(width, b, &store.values) {
                return run_list(&p.list, width, store, turns);
            }
            run_list(&q.list, width, store, turns)
        }
        Stmt::While(b, p) => {
            'turns: while holds(width, b, &store.values) {
                if *turns == 0 {
                    return Outcome::More;
                }
                *turns -= 1;
                let outcome = run_list(&p.list, width, store, turns);
                if outcome != Outcome::Done {
                    return outcome;
                }
            }
            Outcome::Done
        }
    }
}

/// Runs a concrete program on a store of width `width`. Enters at most `turns` loop bodies; only entering a body uses a
/// turn. Returns `Done`, `Stuck` or `More` if and only if the program ends, reaches an `abort` or an `assert` that
/// fails, or reaches a loop body with no turn left. The store then has the values reached. A variable that the store
/// does not have is 0, and is not set. Takes no memory.
pub fn run(prog: &Prog, width: Width, store: &mut Store, turns: u64) -> Outcome
    requires concrete { is_concrete prog.now ≡ true }
    requires within { IsStore width store.old }
    ensures done { (t : List ℕ) → ((result ≡ Outcome.Done) × (store.new ≡ t)) ↔ HasOutcome width prog.now store.old turns Outcome.Done t }
    ensures stuck { (t : List ℕ) → ((result ≡ Outcome.Stuck) × (store.new ≡ t)) ↔ HasOutcome width prog.now store.old turns Outcome.Stuck t }
    ensures more { (t : List ℕ) → ((result ≡ Outcome.More) × (store.new ≡ t)) ↔ HasOutcome width prog.now store.old turns Outcome.More t }
    ensures length { length store.new ≡ length store.old }
    ensures kept { IsStore width store.new }
{
    let mut left = turns;
    run_list(&prog.list, width, store, &mut left)
}
