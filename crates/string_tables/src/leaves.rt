//! Tests and actions in a table: their matrices, and the images of sets of states under tests and actions.
ghost use Rattle.std.specs.Prelude.{◌≡◌, ◌<◌, ◌≤◌, ◌&&◌, eqb, ℕ, false, length, slice_index_or};
ghost use Rattle.std.specs.List.{list_any};
ghost use Rattle.kat_model.specs.Trees.{test_tree};
ghost use Rattle.kat_model.specs.Problems.{IsTestInRange};
ghost use Rattle.kat_model.specs.Steps.{truth};
ghost use Rattle.kat_model.specs.Relations.{atom_at};
ghost use Rattle.kat_model.specs.Working.Decided.{same_step};
ghost use Rattle.string_tables.specs.Tables.{IsWhole};
ghost use Rattle.string_tables.specs.Working.Matrices.{Represents, IsImage};

use crate::matrix::{Matrix, Row};
use crate::table::Table;
use kat_model::Test;

/// Sets the matrix to the relation of the test: each state at which the test is true, and itself.
pub(crate) fn put_test(m: &mut Matrix, table: &Table, test: &Test)
    requires whole { IsWhole table.now }
    requires tests { (i : ℕ) → i < table.now.states → IsTestInRange (length (atom_at table.now i)) (test_tree test.now) }
    requires own { table.now.states ≤ m.old.size }
    ensures given { Represents table.now.states m.new (λ i j. eqb i j && truth (test_tree test.now) (atom_at table.now i)) }
    ensures size { m.new.size ≡ m.old.size }
{
    m.clear(table.states);
    let truths = table.truths.as_slice();
    for i in 0..table.states {
        if test.truth_at(truths[i].as_slice()) {
            m.mark(i, i);
        }
    }
}

/// Sets the matrix to the relation of the action: the moves by it.
pub(crate) fn put_action(m: &mut Matrix, table: &Table, act: usize)
    requires whole { IsWhole table.now }
    requires own { table.now.states ≤ m.old.size }
    ensures given { Represents table.now.states m.new (λ i j. list_any (same_step (record { from = i; act = act; to = j })) table.now.moves) }
    ensures size { m.new.size ≡ m.old.size }
{
    m.clear(table.states);
    for step in table.moves.as_slice() {
        if step.act == act {
            m.mark(step.from, step.to);
        }
    }
}

/// Keeps the states of the row at which the test is true.
pub(crate) fn keep_true(row: &mut Row, table: &Table, test: &Test)
    requires whole { IsWhole table.now }
    requires tests { (i : ℕ) → i < table.now.states → IsTestInRange (length (atom_at table.now i)) (test_tree test.now) }
    requires own { table.now.states ≤ length row.old }
    ensures kept { (j : ℕ) → j < table.now.states → slice_index_or row.new j false ≡ (slice_index_or row.old j false && truth (test_tree test.now) (atom_at table.now j)) }
    ensures width { length row.new ≡ length row.old }
{
    let truths = table.truths.as_slice();
    for j in 0..table.states {
        if row.at(j) && !test.truth_at(truths[j].as_slice()) {
            row.unmark(j);
        }
    }
}

/// Sets `to` to the states that the action leads to from the states of the row.
pub(crate) fn follow_action(row: &Row, table: &Table, act: usize, to: &mut Row)
    requires whole { IsWhole table.now }
    requires row { table.now.states ≤ length row.now }
    requires to { table.now.states ≤ length to.old }
    ensures image { IsImage table.now.states row.now (λ i j. list_any (same_step (record { from = i; act = act; to = j })) table.now.moves) to.new }
    ensures width { length to.new ≡ length to.old }
{
    to.clear(table.states);
    for step in table.moves.as_slice() {
        if row.at(step.from) && step.act == act {
            to.mark(step.to);
        }
    }
}
