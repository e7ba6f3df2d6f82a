//! Finite tables, and the table of a string.
ghost use Rattle.std.specs.Prelude.{◌≡◌, ◌++◌, ◌∷◌, [], IfOk, OnOk};
ghost use Rattle.string_tables.specs.Tables.{table_of as string_table};

use crate::string::GString;
use kat_model::{Items, NoMemory, append};
use std::alloc::Global;
use std::marker::Model;

/// A move of a table: from a state, by an action, to a state.
#[derive(Clone, Copy)]
pub struct Step {
    pub from: usize,
    pub act: usize,
    pub to: usize,
}

impl Model for Step {
    ghost use Rattle.kat_model.specs.Relations.{Step as Step'};

    ghost Value = { Step' };

    ghost view = { λ s. record { from = s.from; act = s.act; to = s.to } };

    ghost inverse = { λ s. record { from = s.from; act = s.act; to = s.to } };
}

/// A finite relational model: states numbered from 0, the truth values of the tests at each, and moves.
#[derive(Drop)]
pub struct Table {
    pub states: usize,
    pub truths: Items<Items<bool>>,
    pub moves: Items<Step>,
}

impl Model for Table {
    ghost use Rattle.kat_model.specs.Relations.{Table as Table'};

    ghost Value = { Table' };

    ghost view = { λ t. record { states = t.states; truths = t.truths; moves = t.moves } };
}

// Returns a copy of the truth values.
fn copy_of(alloc: Global, atom: &Items<bool>) -> Result<Items<bool>, NoMemory>
    ensures { IfOk result (λ a. a ≡ atom.now) }
{
    let values = atom.as_slice().iter().copied().collect(alloc)?;
    Ok(Items::of(values))
}

// Appends the truth values of a state, and the move to it.
fn push_state(
    alloc: Global,
    truths: &mut Vec<Items<bool>>,
    moves: &mut Vec<Step>,
    atom: &Items<bool>,
    step: Step,
) -> Result<(), NoMemory>
    ensures truths { OnOk result (truths.new.items ≡ truths.old.items ++ atom.now ∷ []) }
    ensures moves { OnOk result (moves.new.items ≡ moves.old.items ++ step ∷ []) }
{
    append(truths, copy_of(alloc, atom)?)?;
    append(moves, step)
}

/// Returns the table of a string: its positions are the states, the truth values at each are its atom, and the only
/// moves are from each position to the next. Fails only when out of memory.
pub fn table_of(alloc: Global, string: &GString) -> Result<Table, NoMemory>
    ensures { IfOk result (λ t. t ≡ string_table string.now) }
{
    let rest = string.rest.as_slice();
    let mut truths = Vec::new(alloc);
    truths.push(copy_of(alloc, &string.first)?)?;
    let mut moves = Vec::new(alloc);
    for (k, m) in rest.iter().enumerate() {
        let step = Step {
            from: k,
            act: m.act,
            to: k + 1,
        };
        push_state(alloc, &mut truths, &mut moves, &m.atom, step)?;
    }
    Ok(Table {
        states: rest.len() + 1,
        truths: Items::of(truths),
        moves: Items::of(moves),
    })
}
