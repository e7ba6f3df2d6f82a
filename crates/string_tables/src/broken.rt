//! The hypotheses that a string breaks.
ghost use Rattle.std.specs.Prelude.{◌≡◌, ◌↔◌, All, map, IfOk, IsTrue, MatchOption};
ghost use Rattle.kat_model.specs.Trees.{kat_tree};
ghost use Rattle.kat_model.specs.Relations.{Keeps};
ghost use Rattle.string_tables.specs.Tables.{table_of, RelatesEnds};
ghost use Rattle.string_tables.specs.Parts.{MayBeRead};
ghost use Rattle.string_tables.specs.Working.Breaks.{BreaksFirst};

use crate::first_parts::{first_end, first_part};
use crate::string::GString;
use kat_model::{Kat, NoMemory};
use std::alloc::Global;

/// Returns the first hypothesis that relates some states of the string's table, and the first two states that it
/// relates.
pub(crate) fn first_broken(
    alloc: Global,
    string: &GString,
    hyps: &[Kat],
) -> Result<Option<(usize, usize, usize)>, NoMemory>
    requires { All (MayBeRead string.now) (map kat_tree hyps.now) }
    ensures { IfOk result (λ found. MatchOption found (Keeps (table_of string.now) (map kat_tree hyps.now)) (λ three. BreaksFirst (table_of string.now) (map kat_tree hyps.now) three.0 three.1 three.2)) }
{
    for (h, hyp) in hyps.iter().enumerate() {
        let part = first_part(alloc, string, hyp)?;
        if let Some((i, j)) = part {
            return Ok(Some((h, i, j)));
        }
    }
    Ok(None)
}

/// Returns whether the term relates the first state of the string's table to the last.
pub(crate) fn relates_ends(alloc: Global, string: &GString, term: &Kat) -> Result<bool, NoMemory>
    requires { MayBeRead string.now (kat_tree term.now) }
    ensures { IfOk result (λ shown. IsTrue shown ↔ RelatesEnds string.now (kat_tree term.now)) }
{
    let last = string.rest.as_slice().len();
    let end = first_end(alloc, string, term, 0, 1, last)?;
    Ok(end.is_some())
}
