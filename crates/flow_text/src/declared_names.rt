//! The names that a file declares.
ghost use Rattle.std.specs.Prelude.{◌≡◌, ◌∷◌, ◌++◌, [], map, IfOk, OnOk, string_bytes};
ghost use Rattle.text_parser.specs.TokenParts.{bytes_of};
ghost use Rattle.flow_syntax.specs.SyntaxViews.{tokens_syntax, item_syntax, items_syntax};
ghost use Rattle.flow_text.specs.DeclaredNames.{variables_in, functions_in, variable_names, function_names};

use flow_syntax::Item;
use kat_model::{NoMemory, append};
use std::alloc::Global;
use text_parser::Token;

/// The names of the variables and of the functions that a file declares, in the order of their declarations.
pub(crate) struct DeclaredNames {
    pub(crate) variables: Vec<String>,
    pub(crate) functions: Vec<String>,
}

// Explicit, so that it is proved once and not at each end of each function that owns the names.
impl Drop for DeclaredNames {
    fn drop(self) {
        let DeclaredNames {
            variables: _variables,
            functions: _functions,
        } = self;
    }
}

impl DeclaredNames {
    /// Returns the names of the variables and those of the functions.
    pub(crate) fn into_lists(self) -> (Vec<String>, Vec<String>)
        ensures variables { result.0 ≡ self.variables }
        ensures functions { result.1 ≡ self.functions }
    {
        let DeclaredNames {
            variables,
            functions,
        } = self;
        (variables, functions)
    }
}

// Adds a name.
fn push_name(alloc: Global, names: &mut Vec<String>, token: &Token) -> Result<(), NoMemory>
    ensures { OnOk result (map string_bytes names.new.items ≡ map string_bytes names.old.items ++ token.now.text.now ∷ []) }
{
    let name = String::from_str(alloc, token.text)?;
    append(names, name)
}

// Adds the names of tokens, which are from the last to the first.
fn push_names(alloc: Global, names: &mut Vec<String>, tokens: &[Token]) -> Result<(), NoMemory>
    ensures { OnOk result (map string_bytes names.new.items ≡ map string_bytes names.old.items ++ map bytes_of (tokens_syntax tokens.now)) }
{
    let mut rest = tokens;
    'tokens: while let Some((token, _)) = rest.split_last() {
        push_name(alloc, names, token)?;
        rest = &rest[..rest.len() - 1];
    }
    Ok(())
}

// Adds the names of the variables that an item declares.
fn push_variables(alloc: Global, names: &mut Vec<String>, item: &Item) -> Result<(), NoMemory>
    ensures { OnOk result (map string_bytes names.new.items ≡ map string_bytes names.old.items ++ variables_in (item_syntax item.now)) }
{
    match item {
        Item::Variables(_, _, tokens) => push_names(alloc, names, tokens),
        Item::Sorts(_, _) => Ok(()),
        Item::Function(_, _, _, _) => Ok(()),
        Item::Graph(_, _, _) => Ok(()),
        Item::Rounds(_, _) => Ok(()),
        Item::Split(_) => Ok(()),
        Item::Equal(_, _, _) => Ok(()),
        Item::Match(_, _) => Ok(()),
    }
}

// Adds the names of the functions that an item declares.
fn push_functions(alloc: Global, names: &mut Vec<String>, item: &Item) -> Result<(), NoMemory>
    ensures { OnOk result (map string_bytes names.new.items ≡ map string_bytes names.old.items ++ functions_in (item_syntax item.now)) }
{
    match item {
        Item::Function(_, _, name, _) => push_name(alloc, names, name),
        Item::Sorts(_, _) => Ok(()),
        Item::Variables(_, _, _) => Ok(()),
        Item::Graph(_, _, _) => Ok(()),
        Item::Rounds(_, _) => Ok(()),
        Item::Split(_) => Ok(()),
        Item::Equal(_, _, _) => Ok(()),
        Item::Match(_, _) => Ok(()),
    }
}

fn variable_names(alloc: Global, items: &[Item]) -> Result<Vec<String>, NoMemory>
    ensures { IfOk result (λ v. map string_bytes v.items ≡ variable_names (items_syntax items.now)) }
{
    let mut names = Vec::new(alloc);
    let mut rest = items;
    'items: while let Some((item, _)) = rest.split_last() {
        push_variables(alloc, &mut names, item)?;
        rest = &rest[..rest.len() - 1];
    }
    Ok(names)
}

fn function_names(alloc: Global, items: &[Item]) -> Result<Vec<String>, NoMemory>
    ensures { IfOk result (λ v. map string_bytes v.items ≡ function_names (items_syntax items.now)) }
{
    let mut names = Vec::new(alloc);
    let mut rest = items;
    'items: while let Some((item, _)) = rest.split_last() {
        push_functions(alloc, &mut names, item)?;
        rest = &rest[..rest.len() - 1];
    }
    Ok(names)
}

/// Returns the names that items declare, which are from the last to the first.
pub(crate) fn declared_names(alloc: Global, items: &[Item]) -> Result<DeclaredNames, NoMemory>
    ensures variables { IfOk result (λ n. map string_bytes n.variables.items ≡ variable_names (items_syntax items.now)) }
    ensures functions { IfOk result (λ n. map string_bytes n.functions.items ≡ function_names (items_syntax items.now)) }
{
    let variables = variable_names(alloc, items)?;
    let functions = function_names(alloc, items)?;
    Ok(DeclaredNames {
        variables,
        functions,
    })
}
