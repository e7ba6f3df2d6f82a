//! Tables that have each row once.
ghost use Rattle.std.specs.Prelude.{◌≡◌, ◌≤◌, ◌<◌, [], ◌∷◌, length, position, IfOk, OnOk, Ok, Err};
ghost use Rattle.std.specs.List.{list_any};
ghost use Rattle.kat_model.specs.UniqueRows.{with_new_within};

use crate::appending::append;
use crate::tree::NoMemory;

/// A row of a table.
pub trait TableRow {
    ghost use Rattle.std.specs.Prelude.{Bool};

    // Whether two rows are the same.
    ghost same: { Self → Self → Bool };

    fn is_same(&self, other: &Self) -> bool
        ensures { result ≡ same self.now other.now };
}

/// Returns the index of a row in a table.
pub fn place_of<T: TableRow>(rows: &[T], row: &T) -> Option<usize>
    ensures { result ≡ position (T.same row.now) rows.now }
{
    rows.iter().position(|x| row.is_same(x))
}

/// Whether a table has a row.
pub fn has_row<T: TableRow>(rows: &[T], row: &T) -> bool
    ensures { result ≡ list_any (T.same row.now) rows.now }
{
    place_of(rows, row).is_some()
}

/// Appends a row, unless the table has it already or has more than `most` rows.
pub fn add_row<T: TableRow + Drop>(rows: &mut Vec<T>, most: usize, row: T) -> Result<(), NoMemory>
    ensures { OnOk result (rows.new.items ≡ with_new_within most T.same rows.old.items row) }
{
    if rows.len() > most || has_row(rows, &row) {
        return Ok(());
    }
    append(rows, row)
}
