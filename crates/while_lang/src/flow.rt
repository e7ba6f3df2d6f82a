//! While programs over named tests and actions, and their terms.
ghost use Rattle.std.specs.Prelude.{◌≡◌, [], ◌∷◌, ◌++◌, IfOk, OnOk, map};
ghost use Rattle.kat_model.specs.Trees.{complement, test, test_tree, kat_tree};
ghost use Rattle.while_lang.specs.Flows.{with_stmt, empty};
ghost use Rattle.while_lang.specs.FlowViews.{flow_stmt};
ghost use Rattle.while_lang.specs.Encoding.{branch_term, loop_term, encoded};

use kat_model::{Kat, NoMemory, Test, append, seq_of};
use std::alloc::Global;
use std::marker::Model;

/// A list of statements over tests and actions, executed in order.
#[cycle(flow)]
#[derive(Drop)]
pub struct Flows {
    pub list: Vec<Flow>,
}

/// A statement over tests and actions, which are numbered from 0.
#[cycle(flow)]
pub enum Flow {
    Skip,
    Abort,
    Assert(Test),
    Act(usize),
    /// Runs the first block if the test holds, else the second.
    If(Test, Flows, Flows),
    /// Repeats the block while the test holds.
    While(Test, Flows),
}

// Explicit, as for statements of programs.
impl Drop for Flow {
    #[cycle(flow)]
    fn drop(self) {
        match self {
            Flow::Skip => {}
            Flow::Abort => {}
            Flow::Assert(_test) => {}
            Flow::Act(_action) => {}
            Flow::If(_test, _first, _second) => {}
            Flow::While(_test, _body) => {}
        }
    }
}

impl Model for Flows {
    ghost use Rattle.while_lang.specs.Flows.{FlowTree, statements};
    ghost use Rattle.while_lang.specs.FlowCodes.{coded_flow};

    ghost Value = { FlowTree };

    ghost coded = { coded_flow };

    ghost use Rattle.while_lang.specs.FlowViews.{flows_tree};

    ghost view = { λ f. flows_tree f.list.items };

    ghost size = { statements };

    ghost use Rattle.std.proofs.Common.{arith};
    ghost use Rattle.while_lang.specs.FlowFalls.{flows_fall};

    ghost size_decreases = { λ a h. Prim.omega (arith, flows_fall a.list.items) };
}

fn opposite(alloc: Global, guard: &Test) -> Result<Kat, NoMemory>
    ensures { IfOk result (λ e. kat_tree e ≡ test (complement (test_tree guard.now))) }
{
    let copy = guard.copy(alloc)?;
    Ok(Kat::Test(Test::new_not(alloc, copy)?))
}

/// Makes the term of a branch `if b {e} else {f}` from the terms of its blocks: `b.e + !b.f`. Fails only when out of
/// memory.
pub fn branch_term(alloc: Global, guard: &Test, first: Kat, second: Kat) -> Result<Kat, NoMemory>
    ensures { IfOk result (λ e. kat_tree e ≡ branch_term (test_tree guard.now) (kat_tree first) (kat_tree second)) }
{
    let holds = Kat::Test(guard.copy(alloc)?);
    let left = Kat::new_seq(alloc, holds, first)?;
    let fails = opposite(alloc, guard)?;
    let right = Kat::new_seq(alloc, fails, second)?;
    Kat::new_sum(alloc, left, right)
}

/// Makes the term of a loop `while b {e}` from the term of its body: `(b.e)*.!b`. Fails only when out of memory.
pub fn loop_term(alloc: Global, guard: &Test, body: Kat) -> Result<Kat, NoMemory>
    ensures { IfOk result (λ e. kat_tree e ≡ loop_term (test_tree guard.now) (kat_tree body)) }
{
    let holds = Kat::Test(guard.copy(alloc)?);
    let turn = Kat::new_seq(alloc, holds, body)?;
    let turns = Kat::new_star(alloc, turn)?;
    let fails = opposite(alloc, guard)?;
    Kat::new_seq(alloc, turns, fails)
}

// Appends a term.
fn push_term(terms: &mut Vec<Kat>, term: Kat) -> Result<(), NoMemory>
    ensures { OnOk result (map kat_tree terms.new.items ≡ map kat_tree terms.old.items ++ kat_tree term ∷ []) }
{
    append(terms, term)
}

#[cycle(encodings)]
fn encode_stmt(alloc: Global, flow: &Flow) -> Result<Kat, NoMemory>
    ensures { IfOk result (λ e. kat_tree e ≡ encoded (with_stmt (flow_stmt flow.now) empty)) }
{
    match flow {
        Flow::Skip => Ok(Kat::One),
        Flow::Abort => Ok(Kat::Zero),
        Flow::Assert(b) => Ok(Kat::Test(b.copy(alloc)?)),
        Flow::Act(a) => Ok(Kat::Act(*a)),
        Flow::If(b, f, g) => {
            let first = encode(alloc, f)?;
            let second = encode(alloc, g)?;
            branch_term(alloc, b, first, second)
        }
        Flow::While(b, f) => {
            let body = encode(alloc, f)?;
            loop_term(alloc, b, body)
        }
    }
}

/// Returns the term of a flow (Kozen, *Kleene algebra with tests*, 1997): the balanced product of its statements, where
/// `skip` is 1, `abort` is 0, a test or an action is itself, `if b {e} else {f}` is `b.e + !b.f`, and `while b {e}` is
/// `(b.e)*.!b`. Fails only when out of memory.
#[cycle(encodings)]
pub fn encode(alloc: Global, flow: &Flows) -> Result<Kat, NoMemory>
    ensures { IfOk result (λ e. kat_tree e ≡ encoded flow.now) }
{
    let mut terms = Vec::new(alloc);
    for stmt in &flow.list {
        push_term(&mut terms, encode_stmt(alloc, stmt)?)?;
    }
    seq_of(alloc, terms)
}
