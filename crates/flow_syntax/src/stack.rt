//! The stack of values, whose last is the value of the first part. Each function takes a value off it, or one that is
//! empty if the last value is of another kind.
ghost use Rattle.std.specs.Prelude.{◌≡◌, ◌∷◌, IfOk, OnOk};
ghost use Rattle.std.specs.Option.{option_map};
ghost use Rattle.text_parser.specs.TokenParts.{parts_of_token};
ghost use Rattle.flow_syntax.specs.Actions.{first, second, rest, past_two, is_no_call, given_token, is_given, token_in, tokens_in, expr_in, exprs_in, operators_in, operands_in, cond_in, statements_in, jump_in, blocks_in, equations_in, match_in, items_in};
ghost use Rattle.flow_syntax.specs.SyntaxViews.{tokens_syntax, expr_syntax, exprs_syntax, cond_syntax, statements_syntax, jump_syntax, blocks_syntax, equations_syntax, match_syntax, items_syntax, value_syntax, stack_syntax};

use crate::lists::{append_expr, append_token};
use crate::value::Value;
use crate::written::{Block, CondNode, Equation, Item, Jump, Match, Node, Statement};
use kat_model::{NoMemory, append};
use std::alloc::Global;
use text_parser::Token;

#[tactic(auto, using(crate::proofs::Stacked::pushes))]
pub(crate) fn push<'a>(stack: &mut Vec<Value<'a>>, value: Value<'a>) -> Result<(), NoMemory>
    ensures { OnOk result (stack_syntax stack.new.items ≡ value_syntax value.entry ∷ stack_syntax stack.old.items) }
{
    append(stack, value)
}

/// Takes a value off the stack, or `NoCall` if it is empty.
#[tactic(auto, using(crate::proofs::Stacked::pushes))]
pub(crate) fn pop<'a>(stack: &mut Vec<Value<'a>>) -> Value<'a>
    ensures value { value_syntax result ≡ first (stack_syntax stack.old.items) }
    ensures rest { stack_syntax stack.new.items ≡ rest (stack_syntax stack.old.items) }
{
    match stack.pop() {
        Some(value) => value,
        None => Value::NoCall,
    }
}

/// Whether the value is that of no call.
pub(crate) fn is_no_call(value: &Value) -> bool
    ensures { result ≡ is_no_call (value_syntax value.now) }
{
    match value {
        Value::NoCall => true,
        _ => false,
    }
}

/// Takes a value off the stack and drops it.
pub(crate) fn skip(stack: &mut Vec<Value>)
    ensures { stack_syntax stack.new.items ≡ rest (stack_syntax stack.old.items) }
{
    let _ = pop(stack);
}

pub(crate) fn take_token<'a>(stack: &mut Vec<Value<'a>>) -> Token<'a>
    ensures value { parts_of_token result ≡ token_in (first (stack_syntax stack.old.items)) }
    ensures rest { stack_syntax stack.new.items ≡ rest (stack_syntax stack.old.items) }
{
    let value = pop(stack);
    value.into_token()
}

pub(crate) fn take_tokens<'a>(alloc: Global, stack: &mut Vec<Value<'a>>) -> Vec<Token<'a>>
    ensures value { tokens_syntax result.items ≡ tokens_in (first (stack_syntax stack.old.items)) }
    ensures rest { stack_syntax stack.new.items ≡ rest (stack_syntax stack.old.items) }
{
    let value = pop(stack);
    value.into_tokens(alloc)
}

pub(crate) fn take_expr<'a>(alloc: Global, stack: &mut Vec<Value<'a>>) -> Vec<Node<'a>>
    ensures value { expr_syntax result.items ≡ expr_in (first (stack_syntax stack.old.items)) }
    ensures rest { stack_syntax stack.new.items ≡ rest (stack_syntax stack.old.items) }
{
    let value = pop(stack);
    value.into_expr(alloc)
}

pub(crate) fn take_exprs<'a>(alloc: Global, stack: &mut Vec<Value<'a>>) -> Vec<Vec<Node<'a>>>
    ensures value { exprs_syntax result.items ≡ exprs_in (first (stack_syntax stack.old.items)) }
    ensures rest { stack_syntax stack.new.items ≡ rest (stack_syntax stack.old.items) }
{
    let value = pop(stack);
    value.into_exprs(alloc)
}

/// Takes a token and the tokens after it off the stack.
#[tactic(auto, using(crate::proofs::Stacked::pushes))]
pub(crate) fn take_token_list<'a>(
    alloc: Global,
    stack: &mut Vec<Value<'a>>,
) -> Result<Vec<Token<'a>>, NoMemory>
    ensures value { IfOk result (λ list. tokens_syntax list.items ≡ token_in (first (stack_syntax stack.old.items)) ∷ tokens_in (second (stack_syntax stack.old.items))) }
    ensures rest { stack_syntax stack.new.items ≡ past_two (stack_syntax stack.old.items) }
{
    let token = take_token(stack);
    let mut list = take_tokens(alloc, stack);
    append_token(&mut list, token)?;
    Ok(list)
}

/// Takes an expression and the expressions after it off the stack.
#[tactic(auto, using(crate::proofs::Stacked::pushes))]
pub(crate) fn take_expr_list<'a>(
    alloc: Global,
    stack: &mut Vec<Value<'a>>,
) -> Result<Vec<Vec<Node<'a>>>, NoMemory>
    ensures value { IfOk result (λ list. exprs_syntax list.items ≡ expr_in (first (stack_syntax stack.old.items)) ∷ exprs_in (second (stack_syntax stack.old.items))) }
    ensures rest { stack_syntax stack.new.items ≡ past_two (stack_syntax stack.old.items) }
{
    let expr = take_expr(alloc, stack);
    let mut list = take_exprs(alloc, stack);
    append_expr(&mut list, expr)?;
    Ok(list)
}

pub(crate) fn take_cond<'a>(alloc: Global, stack: &mut Vec<Value<'a>>) -> Vec<CondNode<'a>>
    ensures value { cond_syntax result.items ≡ cond_in (first (stack_syntax stack.old.items)) }
    ensures rest { stack_syntax stack.new.items ≡ rest (stack_syntax stack.old.items) }
{
    let value = pop(stack);
    value.into_cond(alloc)
}

pub(crate) fn take_blocks<'a>(alloc: Global, stack: &mut Vec<Value<'a>>) -> Vec<Block<'a>>
    ensures value { blocks_syntax result.items ≡ blocks_in (first (stack_syntax stack.old.items)) }
    ensures rest { stack_syntax stack.new.items ≡ rest (stack_syntax stack.old.items) }
{
    let value = pop(stack);
    value.into_blocks(alloc)
}

pub(crate) fn take_equations<'a>(alloc: Global, stack: &mut Vec<Value<'a>>) -> Vec<Equation<'a>>
    ensures value { equations_syntax result.items ≡ equations_in (first (stack_syntax stack.old.items)) }
    ensures rest { stack_syntax stack.new.items ≡ rest (stack_syntax stack.old.items) }
{
    let value = pop(stack);
    value.into_equations(alloc)
}

pub(crate) fn take_match<'a>(stack: &mut Vec<Value<'a>>) -> Match<'a>
    ensures value { match_syntax result ≡ match_in (first (stack_syntax stack.old.items)) }
    ensures rest { stack_syntax stack.new.items ≡ rest (stack_syntax stack.old.items) }
{
    let value = pop(stack);
    value.into_match()
}

// Returns the first of tokens.
#[tactic(auto, using(crate::proofs::Stacked::pushes))]
fn first_token<'a>(mut tokens: Vec<Token<'a>>) -> Option<Token<'a>>
    ensures { option_map parts_of_token result ≡ given_token (tokens_syntax tokens.entry.items) }
{
    tokens.pop()
}

/// Takes tokens off the stack and returns the first of them.
pub(crate) fn take_given<'a>(alloc: Global, stack: &mut Vec<Value<'a>>) -> Option<Token<'a>>
    ensures value { option_map parts_of_token result ≡ given_token (tokens_in (first (stack_syntax stack.old.items))) }
    ensures rest { stack_syntax stack.new.items ≡ rest (stack_syntax stack.old.items) }
{
    let tokens = take_tokens(alloc, stack);
    first_token(tokens)
}

/// Takes tokens off the stack and returns whether there are any.
pub(crate) fn take_flag(alloc: Global, stack: &mut Vec<Value>) -> bool
    ensures value { result ≡ is_given (given_token (tokens_in (first (stack_syntax stack.old.items)))) }
    ensures rest { stack_syntax stack.new.items ≡ rest (stack_syntax stack.old.items) }
{
    match take_given(alloc, stack) {
        Some(_) => true,
        None => false,
    }
}

pub(crate) fn take_items<'a>(alloc: Global, stack: &mut Vec<Value<'a>>) -> Vec<Item<'a>>
    ensures value { items_syntax result.items ≡ items_in (first (stack_syntax stack.old.items)) }
    ensures rest { stack_syntax stack.new.items ≡ rest (stack_syntax stack.old.items) }
{
    let value = pop(stack);
    value.into_items(alloc)
}

pub(crate) fn take_operations<'a>(
    alloc: Global,
    stack: &mut Vec<Value<'a>>,
) -> (Vec<Token<'a>>, Vec<Node<'a>>)
    ensures operators { tokens_syntax result.0.items ≡ operators_in (first (stack_syntax stack.old.items)) }
    ensures operands { expr_syntax result.1.items ≡ operands_in (first (stack_syntax stack.old.items)) }
    ensures rest { stack_syntax stack.new.items ≡ rest (stack_syntax stack.old.items) }
{
    let value = pop(stack);
    value.into_operations(alloc)
}

pub(crate) fn take_body<'a>(
    alloc: Global,
    stack: &mut Vec<Value<'a>>,
) -> (Vec<Statement<'a>>, Jump<'a>)
    ensures statements { statements_syntax result.0.items ≡ statements_in (first (stack_syntax stack.old.items)) }
    ensures jump { jump_syntax result.1 ≡ jump_in (first (stack_syntax stack.old.items)) }
    ensures rest { stack_syntax stack.new.items ≡ rest (stack_syntax stack.old.items) }
{
    let value = pop(stack);
    value.into_body(alloc)
}
