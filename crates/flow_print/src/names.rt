//! The names with which comments are written.
ghost use Rattle.std.specs.Prelude.{◌≡◌};
ghost use Rattle.flow_print.specs.NameTables.{variable_text, function_text, variable_width, sort_width as width_of_sort};
ghost use Rattle.flow_print.specs.Working.Written.{Writes, names_in};

use flow_model::Sort;
use kat_model::{NoMemory, Width};
use std::alloc::Global;
use text_print::{put_numbered, put_word};

/// The names of the variables and functions of a flow file, and the sorts of the variables, each in the order of their
/// numbers. A number without a name is written as `variable7` or `function7`; a variable without a sort counts as one of
/// 64 bits.
#[derive(Clone, Copy)]
pub struct FlowNames<'a> {
    pub variables: &'a [String],
    pub sorts: &'a [Sort],
    pub functions: &'a [String],
}

/// Appends the name of a variable.
#[tactic(auto, using(crate::proofs::NamedNumbers::named, crate::proofs::NamedNumbers::unnamed))]
pub(crate) fn put_variable(
    alloc: Global,
    out: &mut Vec<u8>,
    names: &FlowNames,
    number: usize,
) -> Result<(), NoMemory>
    ensures { Writes result out.old out.new (variable_text (names_in names.now) number) }
{
    let variables = names.variables;
    match variables.get(number) {
        Some(name) => put_word(out, name.as_str()),
        None => put_numbered(alloc, out, "variable", number),
    }
}

/// Appends the name of a function.
#[tactic(auto, using(crate::proofs::NamedNumbers::named, crate::proofs::NamedNumbers::unnamed))]
pub(crate) fn put_function(
    alloc: Global,
    out: &mut Vec<u8>,
    names: &FlowNames,
    number: usize,
) -> Result<(), NoMemory>
    ensures { Writes result out.old out.new (function_text (names_in names.now) number) }
{
    let functions = names.functions;
    match functions.get(number) {
        Some(name) => put_word(out, name.as_str()),
        None => put_numbered(alloc, out, "function", number),
    }
}

/// Returns the width of the numbers of a sort, and 64 bits for an opaque sort.
pub(crate) fn sort_width(sort: Sort) -> Width
    ensures { result ≡ width_of_sort sort }
{
    match sort {
        Sort::Number(width) => width,
        Sort::Opaque(_) => Width::W64,
    }
}

/// Returns the width of a variable.
pub(crate) fn variable_width(names: &FlowNames, number: usize) -> Width
    ensures { result ≡ variable_width (names_in names.now) number }
{
    let sorts = names.sorts;
    match sorts.get(number) {
        Some(sort) => sort_width(*sort),
        None => Width::W64,
    }
}
