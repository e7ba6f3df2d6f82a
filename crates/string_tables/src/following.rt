//! The states that a term leads to from a set of states, computed from one row and not from a whole matrix.
ghost use Rattle.std.specs.Prelude.{◌≡◌, ◌+◌, ◌<◌, ◌≤◌, ℕ, All, length};
ghost use Rattle.kat_model.specs.Trees.{kat_tree, term_height};
ghost use Rattle.kat_model.specs.Relations.{atom_at};
ghost use Rattle.kat_model.specs.Working.Decided.{computes_relation};
ghost use Rattle.kat_model.specs.Problems.{HasTestsBelow};
ghost use Rattle.string_tables.specs.Tables.{IsWhole};
ghost use Rattle.string_tables.specs.Working.Matrices.{IsImage, sizes, widths};

use crate::evaluation::evaluate;
use crate::leaves::{follow_action, keep_true};
use crate::matrix::{Matrix, Row};
use crate::operations::{close, row_product};
use crate::table::Table;
use kat_model::Kat;

/// Sets the row, a set of states, to its image under the term. The rows and the matrices are for parts of the term.
/// Only a star is evaluated as a whole matrix, so each other node takes one pass over the states or the moves.
pub(crate) fn follow(
    table: &Table,
    term: &Kat,
    row: &mut Row,
    rows: &mut [Row],
    top: &mut Matrix,
    below: &mut [Matrix],
    spare: &mut Row,
)
    requires whole { IsWhole table.now }
    requires tests { (i : ℕ) → i < table.now.states → HasTestsBelow (length (atom_at table.now i)) (kat_tree term.now) }
    requires height { term_height (kat_tree term.now) ≤ length below.old + 1 }
    requires rows_height { term_height (kat_tree term.now) ≤ length rows.old + 1 }
    requires row { table.now.states ≤ length row.old }
    requires rows { All (λ width. table.now.states ≤ width) (widths rows.old) }
    requires top { table.now.states ≤ top.old.size }
    requires below { All (λ size. table.now.states ≤ size) (sizes below.old) }
    requires spare { table.now.states ≤ length spare.old }
    ensures image { IsImage table.now.states row.old (computes_relation table.now (kat_tree term.now)) row.new }
    ensures row { length row.new ≡ length row.old }
    ensures rows { widths rows.new ≡ widths rows.old }
    ensures size { top.new.size ≡ top.old.size }
    ensures sizes { sizes below.new ≡ sizes below.old }
    ensures width { length spare.new ≡ length spare.old }
{
    match term {
        Kat::Zero => row.clear(table.states),
        Kat::One => {}
        Kat::Test(b) => keep_true(row, table, b),
        Kat::Act(a) => {
            follow_action(row, table, *a, spare);
            row.copy_from(spare, table.states);
        }
        Kat::Sum(e, f) => {
            let (next, rest) = rows.split_at_mut(1);
            next[0].copy_from(row, table.states);
            follow(table, e, row, rest, top, below, spare);
            follow(table, f, &mut next[0], rest, top, below, spare);
            row.join(&next[0], table.states);
        }
        Kat::Seq(e, f) => {
            follow(table, e, row, rows, top, below, spare);
            follow(table, f, row, rows, top, below, spare);
        }
        Kat::Star(e) => {
            evaluate(table, e, top, below, spare);
            close(top, spare, table.states);
            row_product(row, top, spare, table.states);
            row.copy_from(spare, table.states);
        }
    }
}
