//! Evaluation of terms over small tables, in memory that is allocated in advance.
ghost use Rattle.std.specs.Prelude.{◌≡◌, ◌<◌, ◌↔◌, IfOk, IsTrue};
ghost use Rattle.kat_model.specs.Trees.{kat_tree};
ghost use Rattle.kat_model.specs.Relations.{Relates};
ghost use Rattle.string_tables.specs.Tables.{MayBeQueried};

use crate::levels::Levels;
use crate::table::Table;
use kat_model::{Kat, NoMemory};
use std::alloc::Global;
use std::marker::Model;

/// Room to evaluate terms of at most a given height over tables of at most a given number of states. Has one matrix and
/// one row for each level of a term's height, so that evaluation takes no memory. Only stars need the matrices, but a
/// bench does not know its terms in advance.
#[derive(Drop)]
pub struct Bench {
    depth: usize,
    states: usize,
    levels: Levels,
}

impl Model for Bench {
    ghost use Rattle.std.specs.Prelude.{◌≤◌};
    ghost use Rattle.string_tables.specs.Tables.{Room};

    ghost Value = { Room };

    ghost view = { λ b. record { depth = b.depth; states = b.states } };

    ghost invariant = { λ b. (b.depth ≤ b.levels.room.depth) × (b.states ≤ b.levels.room.states) };
}

impl Bench {
    /// Takes all memory for terms of at most height `depth` over tables of at most `states` states. Fails only when out
    /// of memory.
    pub fn new(alloc: Global, depth: usize, states: usize) -> Result<Bench, NoMemory>
        ensures { IfOk result (λ b. b ≡ record { depth = depth; states = states }) }
    {
        let levels = Levels::new(alloc, depth, states)?;
        Ok(Bench {
            depth,
            states,
            levels,
        })
    }

    /// Returns whether the term relates state i of the table to state j. Takes no memory and cannot fail.
    pub fn relates(&mut self, table: &Table, term: &Kat, i: usize, j: usize) -> bool
        requires queried { MayBeQueried self.old table.now (kat_tree term.now) }
        requires from { i < table.now.states }
        requires to { j < table.now.states }
        ensures relates { IsTrue result ↔ Relates table.now (kat_tree term.now) i j }
        ensures kept { self.new ≡ self.old }
    {
        self.levels.relates(table, term, i, j)
    }
}
