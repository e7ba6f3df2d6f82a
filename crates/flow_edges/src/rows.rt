//! Rows that are added to tables.
ghost use Rattle.std.specs.Prelude.{◌≡◌, ◌||◌, nat_lt, length};
ghost use Rattle.std.specs.List.{list_any};

use kat_model::{TableRow, has_row};

/// Returns whether a row is left out: the table has it already or has more than `most` rows.
pub(crate) fn is_left_out<T: TableRow>(rows: &[T], most: usize, row: &T) -> bool
    ensures { result ≡ (nat_lt most (length rows.now) || list_any (T.same row.now) rows.now) }
{
    rows.len() > most || has_row(rows, row)
}
