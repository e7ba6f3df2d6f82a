//! The name of a form's counter.
ghost use Rattle.std.specs.Prelude.{IfOk, OnOk, string_bytes};
ghost use Rattle.text_parser.specs.ScopeParts.{IsWellFormed};
ghost use Rattle.tool_programs.specs.OneLoop.{IsCounterName};

use kat_model::NoMemory;
use std::alloc::Global;
use text_parser::Scope;

/// Returns `pc` and the fewest `_` such that the scope does not declare this name.
pub(crate) fn counter_name(alloc: Global, scope: &Scope) -> Result<String, NoMemory>
    ensures name { IfOk result (λ name. IsCounterName scope.now (string_bytes name)) }
    ensures well_formed { OnOk result (IsWellFormed scope.now) }
{
    let mut name = String::from_str(alloc, "pc")?;
    while scope.find(name.as_str()).is_some() {
        name.push_str("_")?;
    }
    Ok(name)
}
