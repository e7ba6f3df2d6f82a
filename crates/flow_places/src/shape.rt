//! Sizes of sums and products of terms before they are made.
ghost use Rattle.std.specs.Prelude.{◌≡◌};
ghost use Rattle.kat_model.specs.Trees.{kat_tree};
ghost use Rattle.flow_places.specs.Shapes.{shape_of, shape_joined, shape_plus, shape_times, shape_repeated};

use crate::elimination::{is_one, is_zero};
use kat_model::Kat;

/// Whether a term is 0 or 1, and the number of its nodes, saturated at `u64::MAX`.
#[derive(Clone, Copy)]
pub(crate) struct Shape {
    pub(crate) is_zero: bool,
    pub(crate) is_one: bool,
    pub(crate) size: u64,
}

pub(crate) fn term_shape(term: &Kat) -> Shape
    ensures { result ≡ shape_of (kat_tree term.now) }
{
    let size = term.size();
    Shape {
        is_zero: is_zero(term),
        is_one: is_one(term),
        size,
    }
}

fn joined(left: Shape, right: Shape) -> Shape
    ensures { result ≡ shape_joined left right }
{
    let size = left.size.saturating_add(right.size).saturating_add(1);
    Shape {
        is_zero: false,
        is_one: false,
        size,
    }
}

/// The shape of a sum.
pub(crate) fn plus_shape(left: Shape, right: Shape) -> Shape
    ensures { result ≡ shape_plus left right }
{
    if left.is_zero {
        return right;
    }
    if right.is_zero {
        return left;
    }
    joined(left, right)
}

/// The shape of a product.
pub(crate) fn times_shape(first: Shape, second: Shape) -> Shape
    ensures { result ≡ shape_times first second }
{
    if first.is_zero || second.is_zero {
        return Shape {
            is_zero: true,
            is_one: false,
            size: 1,
        };
    }
    if first.is_one {
        return second;
    }
    if second.is_one {
        return first;
    }
    joined(first, second)
}

/// The shape of a star, or of 1 for 0.
pub(crate) fn repeated_shape(inner: Shape) -> Shape
    ensures { result ≡ shape_repeated inner }
{
    if inner.is_zero {
        return Shape {
            is_zero: false,
            is_one: true,
            size: 1,
        };
    }
    let size = inner.size.saturating_add(1);
    Shape {
        is_zero: false,
        is_one: false,
        size,
    }
}
