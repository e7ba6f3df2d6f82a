//! Sorts of values.

use kat_model::Width;

/// The sort of a value.
#[derive(Clone, Copy, PartialEq, Eq)]
pub enum Sort {
    /// The numbers below 2 to the width.
    Number(Width),
    /// A declared sort, by its number. Its values are only compared for equality.
    Opaque(usize),
}
