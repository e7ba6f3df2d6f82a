//! The memory in which terms are evaluated.
ghost use Rattle.std.specs.Prelude.{◌≡◌, ◌↔◌, ◌<◌, ◌≤◌, length, replicate, IfOk, IsTrue};
ghost use Rattle.kat_model.specs.Trees.{kat_tree};
ghost use Rattle.kat_model.specs.Relations.{Relates};
ghost use Rattle.string_tables.specs.Tables.{MayBeQueried};
ghost use Rattle.string_tables.specs.Working.Matrices.{sizes, widths};

use crate::following::follow;
use crate::matrix::{Matrix, Row};
use crate::table::Table;
use kat_model::{Kat, NoMemory};
use std::alloc::Global;
use std::marker::Model;

/// A matrix for the evaluated term and a row for the followed set, one of each for each level below, and a spare row.
#[derive(Drop)]
pub(crate) struct Levels {
    top: Matrix,
    below: Vec<Matrix>,
    spare: Row,
    set: Row,
    rows: Vec<Row>,
}

impl Model for Levels {
    ghost use Rattle.string_tables.specs.Working.Filled.{Filled, filled, IsEven};

    ghost Value = { Filled };

    ghost view = { λ l. filled l.top l.below.items };

    ghost invariant = { λ l. IsEven l.top l.below.items l.spare l.set l.rows.items };
}

// Returns n matrices of that size.
fn matrices(alloc: Global, n: usize, size: usize) -> Result<Vec<Matrix>, NoMemory>
    ensures length { IfOk result (λ list. length list.items ≡ n) }
    ensures sizes { IfOk result (λ list. sizes list.items ≡ replicate n size) }
{
    let mut list = Vec::new(alloc);
    for _ in 0..n {
        list.push(Matrix::new(alloc, size)?)?;
    }
    Ok(list)
}

// Returns n rows of that length.
fn rows(alloc: Global, n: usize, width: usize) -> Result<Vec<Row>, NoMemory>
    ensures { IfOk result (λ list. widths list.items ≡ replicate n width) }
{
    let mut list = Vec::new(alloc);
    for _ in 0..n {
        list.push(Row::new(alloc, width)?)?;
    }
    Ok(list)
}

impl Levels {
    /// Takes memory for terms of at most height `depth`, over tables of at most `states` states.
    pub(crate) fn new(alloc: Global, depth: usize, states: usize) -> Result<Levels, NoMemory>
        ensures depth { IfOk result (λ l. depth ≤ l.room.depth) }
        ensures states { IfOk result (λ l. l.room.states ≡ states) }
    {
        let below = depth.saturating_sub(1);
        Ok(Levels {
            top: Matrix::new(alloc, states)?,
            below: matrices(alloc, below, states)?,
            spare: Row::new(alloc, states)?,
            set: Row::new(alloc, states)?,
            rows: rows(alloc, below, states)?,
        })
    }

    /// Returns whether the term relates i to j, computed only from i. The top matrix may change.
    pub(crate) fn relates(&mut self, table: &Table, term: &Kat, i: usize, j: usize) -> bool
        requires queried { MayBeQueried self.old.room table.now (kat_tree term.now) }
        requires from { i < table.now.states }
        requires to { j < table.now.states }
        ensures relates { IsTrue result ↔ Relates table.now (kat_tree term.now) i j }
        ensures room { self.new.room ≡ self.old.room }
    {
        self.set.clear(table.states);
        self.set.mark(i);
        follow(
            table,
            term,
            &mut self.set,
            &mut self.rows,
            &mut self.top,
            &mut self.below,
            &mut self.spare,
        );
        self.set.at(j)
    }
}
