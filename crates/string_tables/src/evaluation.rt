//! Evaluation of a term over a table, from its parts to the whole.
ghost use Rattle.std.specs.Prelude.{◌≡◌, ◌+◌, ◌<◌, ◌≤◌, ℕ, All, length};
ghost use Rattle.kat_model.specs.Trees.{kat_tree, term_height};
ghost use Rattle.kat_model.specs.Relations.{atom_at};
ghost use Rattle.kat_model.specs.Working.Decided.{computes_relation};
ghost use Rattle.kat_model.specs.Problems.{HasTestsBelow};
ghost use Rattle.string_tables.specs.Tables.{IsWhole};
ghost use Rattle.string_tables.specs.Working.Matrices.{Represents, level, sizes};

use crate::leaves::{put_action, put_test};
use crate::matrix::{Matrix, Row};
use crate::operations::{close, join, multiply, put_identity};
use crate::table::Table;
use kat_model::Kat;

/// Sets the matrix to that of the term. The matrices below are for parts of the term; with this matrix there are at
/// least as many as the height of the term.
#[cycle(evaluation)]
pub(crate) fn evaluate(
    table: &Table,
    term: &Kat,
    top: &mut Matrix,
    below: &mut [Matrix],
    spare: &mut Row,
)
    requires whole { IsWhole table.now }
    requires tests { (i : ℕ) → i < table.now.states → HasTestsBelow (length (atom_at table.now i)) (kat_tree term.now) }
    requires height { term_height (kat_tree term.now) ≤ length below.old + 1 }
    requires top { table.now.states ≤ top.old.size }
    requires below { All (λ size. table.now.states ≤ size) (sizes below.old) }
    requires spare { table.now.states ≤ length spare.old }
    ensures given { Represents table.now.states top.new (computes_relation table.now (kat_tree term.now)) }
    ensures size { top.new.size ≡ top.old.size }
    ensures sizes { sizes below.new ≡ sizes below.old }
    ensures width { length spare.new ≡ length spare.old }
{
    match term {
        Kat::Zero => top.clear(table.states),
        Kat::One => put_identity(top, table.states),
        Kat::Test(b) => put_test(top, table, b),
        Kat::Act(a) => put_action(top, table, *a),
        Kat::Sum(e, f) => {
            evaluate_both(table, e, f, top, below, spare);
            join(top, &below[0], table.states);
        }
        Kat::Seq(e, f) => {
            evaluate_both(table, e, f, top, below, spare);
            multiply(top, &below[0], spare, table.states);
        }
        Kat::Star(e) => {
            evaluate(table, e, top, below, spare);
            close(top, spare, table.states);
        }
    }
}

// Sets the matrix to that of the first term, and the first of the matrices below to that of the second.
#[cycle(evaluation)]
fn evaluate_both(
    table: &Table,
    first: &Kat,
    second: &Kat,
    top: &mut Matrix,
    below: &mut [Matrix],
    spare: &mut Row,
)
    requires whole { IsWhole table.now }
    requires first_tests { (i : ℕ) → i < table.now.states → HasTestsBelow (length (atom_at table.now i)) (kat_tree first.now) }
    requires second_tests { (i : ℕ) → i < table.now.states → HasTestsBelow (length (atom_at table.now i)) (kat_tree second.now) }
    requires first_height { term_height (kat_tree first.now) ≤ length below.old }
    requires second_height { term_height (kat_tree second.now) ≤ length below.old }
    requires top { table.now.states ≤ top.old.size }
    requires below { All (λ size. table.now.states ≤ size) (sizes below.old) }
    requires spare { table.now.states ≤ length spare.old }
    ensures first { Represents table.now.states top.new (computes_relation table.now (kat_tree first.now)) }
    ensures second { Represents table.now.states (level below.new 0) (computes_relation table.now (kat_tree second.now)) }
    ensures size { top.new.size ≡ top.old.size }
    ensures sizes { sizes below.new ≡ sizes below.old }
    ensures width { length spare.new ≡ length spare.old }
{
    evaluate(table, first, top, below, spare);
    let (next, rest) = below.split_at_mut(1);
    evaluate(table, second, &mut next[0], rest, spare);
}
