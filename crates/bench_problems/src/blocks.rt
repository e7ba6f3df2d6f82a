//! Programs built from statements and from other programs.
ghost use Rattle.std.specs.Prelude.{◌≡◌, [], ◌∷◌, ◌++◌, map, IfOk, OnOk};
ghost use Rattle.while_lang.specs.Flows.{empty, with_stmt};
ghost use Rattle.while_lang.specs.FlowViews.{flow_stmt};
ghost use Rattle.bench_problems.specs.Generator.{followed_by};

use kat_model::NoMemory;
use std::alloc::Global;
use while_lang::{Flow, Flows};

// Appends a statement.
pub(crate) fn push_stmt(list: &mut Vec<Flow>, stmt: Flow) -> Result<(), NoMemory>
    ensures { OnOk result (map flow_stmt list.new.items ≡ map flow_stmt list.old.items ++ flow_stmt stmt ∷ []) }
{
    Ok(list.push(stmt)?)
}

// Builds the program of one statement.
pub(crate) fn one_stmt(alloc: Global, stmt: Flow) -> Result<Flows, NoMemory>
    ensures { IfOk result (λ f. f ≡ with_stmt (flow_stmt stmt) empty) }
{
    let mut list = Vec::new(alloc);
    list.push(stmt)?;
    Ok(Flows { list })
}

// Appends the statements of the second program to the first.
pub(crate) fn join(first: Flows, second: Flows) -> Result<Flows, NoMemory>
    ensures { IfOk result (λ f. f ≡ followed_by first second) }
{
    let Flows { mut list } = first;
    let Flows { list: mut rest } = second;
    list.append(&mut rest)?;
    Ok(Flows { list })
}
