//! The term of the paths through a graph.
ghost use Rattle.std.specs.Prelude.{◌≡◌, ◌-◌, map, length, true, false, IfOk, IfErr};
ghost use Rattle.kat_model.specs.Trees.{kat_tree};
ghost use Rattle.flow_places.specs.Rows.{row_tree, only_place, rows_term, rows_fit};

use crate::elimination::{Row, first_step, repeated, rows_without, times};
use crate::sizes::rows_size_without;
use crate::term_fault::TermFault;
use kat_model::{Kat, MAX_TERM_NODES, NoMemory};
use std::alloc::Global;

// Returns the term around the only place and to the end.
fn only_place(alloc: Global, rows: &[Row]) -> Result<Kat, NoMemory>
    ensures { IfOk result (λ e. kat_tree e ≡ only_place (map row_tree rows.now)) }
{
    match rows {
        [] => Ok(Kat::Zero),
        [row, ..] => {
            let around = repeated(alloc, first_step(alloc, &row.steps)?)?;
            times(alloc, around, row.end.copy(alloc)?)
        }
    }
}

/// Returns the term of the paths from the first place to the end. The rows are those of the places, the last one first.
/// Places are eliminated from the last to the second (Kleene 1956).
pub fn eliminated(alloc: Global, rows: Vec<Row>) -> Result<Kat, TermFault>
    ensures made { IfOk result (λ e. kat_tree e ≡ rows_term (length rows.items - 1) (map row_tree rows.items)) }
    ensures fits { IfOk result (λ e. rows_fit (length rows.items - 1) (map row_tree rows.items) ≡ true) }
    ensures refused { IfErr result (λ f. f ≡ TermFault.TooLarge → rows_fit (length rows.items - 1) (map row_tree rows.items) ≡ false) }
{
    let mut rows = rows;
    while rows.len() > 1 {
        if rows_size_without(&rows) > MAX_TERM_NODES {
            return Err(TermFault::TooLarge);
        }
        rows = rows_without(alloc, &rows)?;
    }
    Ok(only_place(alloc, &rows)?)
}
