//! The size of rows without their last place, before they are made.
ghost use Rattle.std.specs.Prelude.{◌≡◌, map};
ghost use Rattle.kat_model.specs.Trees.{kat_tree};
ghost use Rattle.kat_model.specs.Problems.{counted};
ghost use Rattle.flow_places.specs.Elimination.{repeated};
ghost use Rattle.flow_places.specs.Rows.{row_tree, first_step, row_without, rows_without, row_size, rows_size};
ghost use Rattle.flow_places.specs.Shapes.{shape_of, way_shape, ways_size};
ghost use Rattle.flow_places.specs.Working.Steps.{rows_over};

use crate::elimination::{Row, later_steps};
use crate::shape::{Shape, plus_shape, repeated_shape, term_shape, times_shape};
use kat_model::Kat;

fn way_size(own: &Kat, to: Shape, around: Shape, onward: &Kat) -> u64
    ensures { result ≡ (way_shape (kat_tree own.now) to around (kat_tree onward.now)).size }
{
    let back = times_shape(around, term_shape(onward));
    let way = times_shape(to, back);
    plus_shape(term_shape(own), way).size
}

fn steps_size(own: &[Kat], to: Shape, around: Shape, onward: &[Kat]) -> u64
    ensures { result ≡ ways_size to around (map kat_tree own.now) (map kat_tree onward.now) }
{
    match own {
        [] => 0,
        [term, terms @ ..] => match onward {
            [] => 0,
            [next, others @ ..] => {
                way_size(term, to, around, next).saturating_add(steps_size(
                    terms, to, around, others,
                ))
            }
        },
    }
}

// The shape of the step to the last place.
fn first_shape(steps: &[Kat]) -> Shape
    ensures { result ≡ shape_of (first_step (map kat_tree steps.now)) }
{
    match steps {
        [first, ..] => term_shape(first),
        [] => term_shape(&Kat::Zero),
    }
}

// The size of a row without the last place, whose row and the shape of whose star are given.
fn row_size_without(last: &Row, around: Shape, row: &Row) -> u64
    requires { around ≡ shape_of (repeated (first_step (map kat_tree last.now.steps.items))) }
    ensures { result ≡ counted (row_size (row_without (row_tree last.now) (row_tree row.now))) }
{
    let to = first_shape(&row.steps);
    let steps = steps_size(
        later_steps(&row.steps),
        to,
        around,
        later_steps(&last.steps),
    );
    let end = way_size(&row.end, to, around, &last.end);
    steps.saturating_add(end)
}

// The size of rows without the last place.
fn sizes_without(last: &Row, around: Shape, rows: &[Row]) -> u64
    requires { around ≡ shape_of (repeated (first_step (map kat_tree last.now.steps.items))) }
    ensures { result ≡ counted (rows_size (rows_over last.now rows.now)) }
{
    let mut total: u64 = 0;
    for row in rows {
        total = total.saturating_add(row_size_without(last, around, row));
    }
    total
}

/// Returns the size of the rows without the last place, which is the first one.
pub(crate) fn rows_size_without(rows: &[Row]) -> u64
    ensures { result ≡ counted (rows_size (rows_without (map row_tree rows.now))) }
{
    match rows {
        [] => 0,
        [last, others @ ..] => {
            let around = repeated_shape(first_shape(&last.steps));
            sizes_without(last, around, others)
        }
    }
}
