//! What productions make of names and sorts.
ghost use Rattle.std.specs.Prelude.{◌≡◌, ◌∷◌, OnOk};
ghost use Rattle.flow_syntax.specs.Actions.{names_done};
ghost use Rattle.flow_syntax.specs.SyntaxViews.{stack_syntax};

use crate::action::NameAction;
use crate::stack::{push, skip, take_token_list};
use crate::value::Value;
use kat_model::NoMemory;
use std::alloc::Global;

#[tactic(auto, using(crate::proofs::Stacked::pushes))]
fn no_tokens(alloc: Global, stack: &mut Vec<Value>) -> Result<(), NoMemory>
    ensures { OnOk result (stack_syntax stack.new.items ≡ names_done NameAction.NoTokens (stack_syntax stack.old.items)) }
{
    push(stack, Value::Tokens(Vec::new(alloc)))
}

#[tactic(auto, using(crate::proofs::Stacked::pushes))]
fn one_token(alloc: Global, stack: &mut Vec<Value>) -> Result<(), NoMemory>
    ensures { OnOk result (stack_syntax stack.new.items ≡ names_done NameAction.OneToken (stack_syntax stack.old.items)) }
{
    let tokens = take_token_list(alloc, stack)?;
    push(stack, Value::Tokens(tokens))
}

#[tactic(auto, using(crate::proofs::Stacked::pushes))]
fn next_token(alloc: Global, stack: &mut Vec<Value>) -> Result<(), NoMemory>
    ensures { OnOk result (stack_syntax stack.new.items ≡ names_done NameAction.NextToken (stack_syntax stack.old.items)) }
{
    skip(stack);
    one_token(alloc, stack)
}

#[tactic(auto, using(crate::proofs::Stacked::pushes))]
fn no_parameters(alloc: Global, stack: &mut Vec<Value>) -> Result<(), NoMemory>
    ensures { OnOk result (stack_syntax stack.new.items ≡ names_done NameAction.NoParameters (stack_syntax stack.old.items)) }
{
    skip(stack);
    no_tokens(alloc, stack)
}

#[tactic(auto, using(crate::proofs::Stacked::pushes))]
fn some_parameters(alloc: Global, stack: &mut Vec<Value>) -> Result<(), NoMemory>
    ensures { OnOk result (stack_syntax stack.new.items ≡ names_done NameAction.SomeParameters (stack_syntax stack.old.items)) }
{
    let tokens = take_token_list(alloc, stack)?;
    skip(stack);
    push(stack, Value::Tokens(tokens))
}

/// Replaces the values of the parts by that of the phrase. Fails only when out of memory.
pub(crate) fn make_names(
    alloc: Global,
    action: NameAction,
    stack: &mut Vec<Value>,
) -> Result<(), NoMemory>
    ensures { OnOk result (stack_syntax stack.new.items ≡ names_done action (stack_syntax stack.old.items)) }
{
    match action {
        NameAction::Keep => Ok(()),
        NameAction::NoTokens => no_tokens(alloc, stack),
        NameAction::OneToken => one_token(alloc, stack),
        NameAction::NextToken => next_token(alloc, stack),
        NameAction::NoParameters => no_parameters(alloc, stack),
        NameAction::SomeParameters => some_parameters(alloc, stack),
    }
}
