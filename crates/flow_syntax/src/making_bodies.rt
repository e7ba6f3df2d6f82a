//! What productions make of statements, jumps and blocks.
ghost use Rattle.std.specs.Prelude.{◌≡◌, ◌∷◌, [], OnOk};
ghost use Rattle.flow_syntax.specs.Actions.{body, blocks, first, third, rest, past_four, token_in, statements_in, jump_in, blocks_in, bodies_done};
ghost use Rattle.flow_syntax.specs.Syntax.{a_block};
ghost use Rattle.flow_syntax.specs.SyntaxViews.{stack_syntax, statement_syntax, jump_syntax, block_syntax};

use crate::action::BodyAction;
use crate::lists::append_block;
use crate::stack::{
    push, skip, take_blocks, take_body, take_cond, take_expr_list, take_exprs, take_token,
    take_token_list,
};
use crate::value::Value;
use crate::written::{Block, Jump, Statement};
use kat_model::{NoMemory, append};
use std::alloc::Global;

// Puts a statement before those of the body on top of the stack.
#[tactic(auto, using(crate::proofs::Stacked::pushes))]
fn add_statement<'a>(
    alloc: Global,
    stack: &mut Vec<Value<'a>>,
    statement: Statement<'a>,
) -> Result<(), NoMemory>
    ensures { OnOk result (stack_syntax stack.new.items ≡ body (statement_syntax statement.entry ∷ statements_in (first (stack_syntax stack.old.items))) (jump_in (first (stack_syntax stack.old.items))) ∷ rest (stack_syntax stack.old.items)) }
{
    let (mut statements, jump) = take_body(alloc, stack);
    append(&mut statements, statement)?;
    push(stack, Value::Body(statements, jump))
}

#[tactic(auto, using(crate::proofs::Stacked::pushes))]
fn assigning(alloc: Global, stack: &mut Vec<Value>) -> Result<(), NoMemory>
    ensures { OnOk result (stack_syntax stack.new.items ≡ bodies_done BodyAction.Assigning (stack_syntax stack.old.items)) }
{
    let targets = take_token_list(alloc, stack)?;
    let becomes = take_token(stack);
    let values = take_expr_list(alloc, stack)?;
    skip(stack);
    add_statement(alloc, stack, Statement::Assign(targets, becomes, values))
}

#[tactic(auto, using(crate::proofs::Stacked::pushes))]
fn asserting(alloc: Global, stack: &mut Vec<Value>) -> Result<(), NoMemory>
    ensures { OnOk result (stack_syntax stack.new.items ≡ bodies_done BodyAction.Asserting (stack_syntax stack.old.items)) }
{
    skip(stack);
    let cond = take_cond(alloc, stack);
    skip(stack);
    add_statement(alloc, stack, Statement::Claim(cond))
}

#[tactic(auto, using(crate::proofs::Stacked::pushes))]
fn push_jump<'a>(alloc: Global, stack: &mut Vec<Value<'a>>, jump: Jump<'a>) -> Result<(), NoMemory>
    ensures { OnOk result (stack_syntax stack.new.items ≡ body [] (jump_syntax jump.entry) ∷ stack_syntax stack.old.items) }
{
    push(stack, Value::Body(Vec::new(alloc), jump))
}

#[tactic(auto, using(crate::proofs::Stacked::pushes))]
fn going(alloc: Global, stack: &mut Vec<Value>) -> Result<(), NoMemory>
    ensures { OnOk result (stack_syntax stack.new.items ≡ bodies_done BodyAction.Going (stack_syntax stack.old.items)) }
{
    skip(stack);
    let block = take_token(stack);
    skip(stack);
    push_jump(alloc, stack, Jump::Goto(block))
}

#[tactic(auto, using(crate::proofs::Stacked::pushes))]
fn branching(alloc: Global, stack: &mut Vec<Value>) -> Result<(), NoMemory>
    ensures { OnOk result (stack_syntax stack.new.items ≡ bodies_done BodyAction.Branching (stack_syntax stack.old.items)) }
{
    skip(stack);
    let cond = take_cond(alloc, stack);
    skip(stack);
    let block = take_token(stack);
    skip(stack);
    let other = take_token(stack);
    skip(stack);
    push_jump(alloc, stack, Jump::Branch(cond, block, other))
}

#[tactic(auto, using(crate::proofs::Stacked::pushes))]
fn returning(alloc: Global, stack: &mut Vec<Value>) -> Result<(), NoMemory>
    ensures { OnOk result (stack_syntax stack.new.items ≡ bodies_done BodyAction.Returning (stack_syntax stack.old.items)) }
{
    let word = take_token(stack);
    let values = take_exprs(alloc, stack);
    push_jump(alloc, stack, Jump::Return(word, values))
}

#[tactic(auto, using(crate::proofs::Stacked::pushes))]
fn aborting(alloc: Global, stack: &mut Vec<Value>) -> Result<(), NoMemory>
    ensures { OnOk result (stack_syntax stack.new.items ≡ bodies_done BodyAction.Aborting (stack_syntax stack.old.items)) }
{
    skip(stack);
    skip(stack);
    push_jump(alloc, stack, Jump::Abort)
}

// Takes the name and the body of a block off the stack.
#[tactic(auto, using(crate::proofs::Stacked::pushes))]
fn take_block<'a>(alloc: Global, stack: &mut Vec<Value<'a>>, is_cut: bool) -> Block<'a>
    ensures value { block_syntax result ≡ a_block is_cut (token_in (first (stack_syntax stack.old.items))) (statements_in (third (stack_syntax stack.old.items))) (jump_in (third (stack_syntax stack.old.items))) }
    ensures rest { stack_syntax stack.new.items ≡ past_four (stack_syntax stack.old.items) }
{
    let name = take_token(stack);
    skip(stack);
    let (statements, jump) = take_body(alloc, stack);
    skip(stack);
    Block {
        is_cut,
        name,
        statements,
        jump,
    }
}

// Puts a block before those on top of the stack.
#[tactic(auto, using(crate::proofs::Stacked::pushes))]
fn add_block<'a>(
    alloc: Global,
    stack: &mut Vec<Value<'a>>,
    block: Block<'a>,
) -> Result<(), NoMemory>
    ensures { OnOk result (stack_syntax stack.new.items ≡ blocks (block_syntax block.entry ∷ blocks_in (first (stack_syntax stack.old.items))) ∷ rest (stack_syntax stack.old.items)) }
{
    let mut list = take_blocks(alloc, stack);
    append_block(&mut list, block)?;
    push(stack, Value::Blocks(list))
}

// Puts a block on the stack.
#[tactic(auto, using(crate::proofs::Stacked::pushes))]
fn push_block<'a>(
    alloc: Global,
    stack: &mut Vec<Value<'a>>,
    block: Block<'a>,
) -> Result<(), NoMemory>
    ensures { OnOk result (stack_syntax stack.new.items ≡ blocks (block_syntax block.entry ∷ []) ∷ stack_syntax stack.old.items) }
{
    let mut list = Vec::new(alloc);
    append_block(&mut list, block)?;
    push(stack, Value::Blocks(list))
}

#[tactic(auto, using(crate::proofs::Stacked::pushes))]
fn next_plain_block(alloc: Global, stack: &mut Vec<Value>) -> Result<(), NoMemory>
    ensures { OnOk result (stack_syntax stack.new.items ≡ bodies_done BodyAction.NextPlainBlock (stack_syntax stack.old.items)) }
{
    skip(stack);
    let block = take_block(alloc, stack, false);
    add_block(alloc, stack, block)
}

#[tactic(auto, using(crate::proofs::Stacked::pushes))]
fn next_cut_block(alloc: Global, stack: &mut Vec<Value>) -> Result<(), NoMemory>
    ensures { OnOk result (stack_syntax stack.new.items ≡ bodies_done BodyAction.NextCutBlock (stack_syntax stack.old.items)) }
{
    skip(stack);
    skip(stack);
    let block = take_block(alloc, stack, true);
    add_block(alloc, stack, block)
}

#[tactic(auto, using(crate::proofs::Stacked::pushes))]
fn plain_block(alloc: Global, stack: &mut Vec<Value>) -> Result<(), NoMemory>
    ensures { OnOk result (stack_syntax stack.new.items ≡ bodies_done BodyAction.PlainBlock (stack_syntax stack.old.items)) }
{
    skip(stack);
    let block = take_block(alloc, stack, false);
    push_block(alloc, stack, block)
}

#[tactic(auto, using(crate::proofs::Stacked::pushes))]
fn cut_block(alloc: Global, stack: &mut Vec<Value>) -> Result<(), NoMemory>
    ensures { OnOk result (stack_syntax stack.new.items ≡ bodies_done BodyAction.CutBlock (stack_syntax stack.old.items)) }
{
    skip(stack);
    skip(stack);
    let block = take_block(alloc, stack, true);
    push_block(alloc, stack, block)
}

/// Replaces the values of the parts by that of the phrase. Fails only when out of memory.
#[tactic(auto, using(crate::proofs::Stacked::pushes))]
pub(crate) fn make_bodies(
    alloc: Global,
    action: BodyAction,
    stack: &mut Vec<Value>,
) -> Result<(), NoMemory>
    ensures { OnOk result (stack_syntax stack.new.items ≡ bodies_done action (stack_syntax stack.old.items)) }
{
    match action {
        BodyAction::Assigning => assigning(alloc, stack),
        BodyAction::Asserting => asserting(alloc, stack),
        BodyAction::Going => going(alloc, stack),
        BodyAction::Branching => branching(alloc, stack),
        BodyAction::Returning => returning(alloc, stack),
        BodyAction::Aborting => aborting(alloc, stack),
        BodyAction::CutBlock => cut_block(alloc, stack),
        BodyAction::PlainBlock => plain_block(alloc, stack),
        BodyAction::NoBlocks => push(stack, Value::Blocks(Vec::new(alloc))),
        BodyAction::NextCutBlock => next_cut_block(alloc, stack),
        BodyAction::NextPlainBlock => next_plain_block(alloc, stack),
    }
}
