//! Copies of lists, without room for more.
ghost use Rattle.std.specs.Prelude.{◌≡◌, IfOk};

use crate::literal::Literal;
use kat_model::NoMemory;
use std::alloc::Global;

pub(crate) fn copy_of_literals(
    alloc: Global,
    literals: &[Literal],
) -> Result<Vec<Literal>, NoMemory>
    ensures { IfOk result (λ copy. copy.items ≡ literals.now) }
{
    Ok(literals.to_vec(alloc)?)
}

pub(crate) fn copy_of_ids(alloc: Global, ids: &[u64]) -> Result<Vec<u64>, NoMemory>
    ensures { IfOk result (λ copy. copy.items ≡ ids.now) }
{
    Ok(ids.to_vec(alloc)?)
}
