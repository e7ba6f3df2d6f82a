//! What productions make of items.
ghost use Rattle.std.specs.Prelude.{◌≡◌, ◌∷◌, OnOk};
ghost use Rattle.flow_syntax.specs.Actions.{items, first, rest, items_in, items_done};
ghost use Rattle.flow_syntax.specs.SyntaxViews.{stack_syntax, item_syntax};

use crate::action::ItemAction;
use crate::stack::{push, skip, take_blocks, take_items, take_match, take_token, take_tokens};
use crate::value::Value;
use crate::written::Item;
use kat_model::{NoMemory, append};
use std::alloc::Global;

// Puts an item before those on top of the stack.
#[tactic(auto, using(crate::proofs::Stacked::pushes))]
fn add_item<'a>(alloc: Global, stack: &mut Vec<Value<'a>>, item: Item<'a>) -> Result<(), NoMemory>
    ensures { OnOk result (stack_syntax stack.new.items ≡ items (item_syntax item.entry ∷ items_in (first (stack_syntax stack.old.items))) ∷ rest (stack_syntax stack.old.items)) }
{
    let mut list = take_items(alloc, stack);
    append(&mut list, item)?;
    push(stack, Value::Items(list))
}

#[tactic(auto, using(crate::proofs::Stacked::pushes))]
fn sorts_item(alloc: Global, stack: &mut Vec<Value>) -> Result<(), NoMemory>
    ensures { OnOk result (stack_syntax stack.new.items ≡ items_done ItemAction.SortsItem (stack_syntax stack.old.items)) }
{
    let word = take_token(stack);
    let names = take_tokens(alloc, stack);
    skip(stack);
    add_item(alloc, stack, Item::Sorts(word, names))
}

#[tactic(auto, using(crate::proofs::Stacked::pushes))]
fn function_item(alloc: Global, stack: &mut Vec<Value>) -> Result<(), NoMemory>
    ensures { OnOk result (stack_syntax stack.new.items ≡ items_done ItemAction.FunctionItem (stack_syntax stack.old.items)) }
{
    let word = take_token(stack);
    let result_sort = take_token(stack);
    let name = take_token(stack);
    skip(stack);
    let parameters = take_tokens(alloc, stack);
    skip(stack);
    add_item(
        alloc,
        stack,
        Item::Function(word, result_sort, name, parameters),
    )
}

#[tactic(auto, using(crate::proofs::Stacked::pushes))]
fn variables_item(alloc: Global, stack: &mut Vec<Value>) -> Result<(), NoMemory>
    ensures { OnOk result (stack_syntax stack.new.items ≡ items_done ItemAction.VariablesItem (stack_syntax stack.old.items)) }
{
    let word = take_token(stack);
    let sort = take_token(stack);
    let names = take_tokens(alloc, stack);
    skip(stack);
    add_item(alloc, stack, Item::Variables(word, sort, names))
}

#[tactic(auto, using(crate::proofs::Stacked::pushes, crate::proofs::Reversed::blocks_append))]
fn graph_item(alloc: Global, stack: &mut Vec<Value>) -> Result<(), NoMemory>
    ensures { OnOk result (stack_syntax stack.new.items ≡ items_done ItemAction.GraphItem (stack_syntax stack.old.items)) }
{
    let word = take_token(stack);
    let name = take_token(stack);
    skip(stack);
    let mut first = take_blocks(alloc, stack);
    let mut blocks = take_blocks(alloc, stack);
    blocks.append(&mut first)?;
    skip(stack);
    add_item(alloc, stack, Item::Graph(word, name, blocks))
}

#[tactic(auto, using(crate::proofs::Stacked::pushes))]
fn rounds_item(alloc: Global, stack: &mut Vec<Value>) -> Result<(), NoMemory>
    ensures { OnOk result (stack_syntax stack.new.items ≡ items_done ItemAction.RoundsItem (stack_syntax stack.old.items)) }
{
    let word = take_token(stack);
    let number = take_token(stack);
    skip(stack);
    add_item(alloc, stack, Item::Rounds(word, number))
}

#[tactic(auto, using(crate::proofs::Stacked::pushes))]
fn split_item(alloc: Global, stack: &mut Vec<Value>) -> Result<(), NoMemory>
    ensures { OnOk result (stack_syntax stack.new.items ≡ items_done ItemAction.SplitItem (stack_syntax stack.old.items)) }
{
    let word = take_token(stack);
    skip(stack);
    add_item(alloc, stack, Item::Split(word))
}

#[tactic(auto, using(crate::proofs::Stacked::pushes))]
fn equal_item(alloc: Global, stack: &mut Vec<Value>) -> Result<(), NoMemory>
    ensures { OnOk result (stack_syntax stack.new.items ≡ items_done ItemAction.EqualItem (stack_syntax stack.old.items)) }
{
    let word = take_token(stack);
    let before = take_token(stack);
    skip(stack);
    let after = take_token(stack);
    skip(stack);
    add_item(alloc, stack, Item::Equal(word, before, after))
}

#[tactic(auto, using(crate::proofs::Stacked::pushes))]
fn match_item(alloc: Global, stack: &mut Vec<Value>) -> Result<(), NoMemory>
    ensures { OnOk result (stack_syntax stack.new.items ≡ items_done ItemAction.MatchItem (stack_syntax stack.old.items)) }
{
    let word = take_token(stack);
    let matched = take_match(stack);
    add_item(alloc, stack, Item::Match(word, matched))
}

/// Replaces the values of the parts by that of the phrase. Fails only when out of memory.
#[tactic(auto, using(crate::proofs::Stacked::pushes))]
pub(crate) fn make_items(
    alloc: Global,
    action: ItemAction,
    stack: &mut Vec<Value>,
) -> Result<(), NoMemory>
    ensures { OnOk result (stack_syntax stack.new.items ≡ items_done action (stack_syntax stack.old.items)) }
{
    match action {
        ItemAction::NoItems => push(stack, Value::Items(Vec::new(alloc))),
        ItemAction::SortsItem => sorts_item(alloc, stack),
        ItemAction::FunctionItem => function_item(alloc, stack),
        ItemAction::VariablesItem => variables_item(alloc, stack),
        ItemAction::GraphItem => graph_item(alloc, stack),
        ItemAction::RoundsItem => rounds_item(alloc, stack),
        ItemAction::SplitItem => split_item(alloc, stack),
        ItemAction::EqualItem => equal_item(alloc, stack),
        ItemAction::MatchItem => match_item(alloc, stack),
    }
}
