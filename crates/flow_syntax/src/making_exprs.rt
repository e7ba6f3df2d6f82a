//! What productions make of expressions.
ghost use Rattle.std.specs.Prelude.{◌≡◌, ◌∷◌, ◌++◌, length, IfOk, OnOk};
ghost use Rattle.text_parser.specs.TokenParts.{parts_of_token};
ghost use Rattle.flow_syntax.specs.Syntax.{converted};
ghost use Rattle.flow_syntax.specs.Actions.{exprs_done, call_node, call_of, joined, all_nodes, name_of, first_of, first_name};
ghost use Rattle.flow_syntax.specs.SyntaxViews.{stack_syntax, tokens_syntax, node_syntax, expr_syntax, exprs_syntax, first_syntax, value_syntax};

use crate::action::ExprAction;
use crate::lists::{append_node, append_token};
use crate::stack::{
    is_no_call, pop, push, skip, take_expr, take_expr_list, take_exprs, take_operations, take_token,
};
use crate::value::Value;
use crate::written::{FirstName, Node};
use kat_model::NoMemory;
use std::alloc::Global;
use text_parser::Token;

#[tactic(auto, using(crate::proofs::Stacked::pushes))]
fn no_exprs(alloc: Global, stack: &mut Vec<Value>) -> Result<(), NoMemory>
    ensures { OnOk result (stack_syntax stack.new.items ≡ exprs_done ExprAction.NoExprs (stack_syntax stack.old.items)) }
{
    push(stack, Value::Exprs(Vec::new(alloc)))
}

#[tactic(auto, using(crate::proofs::Stacked::pushes))]
fn next_expr(alloc: Global, stack: &mut Vec<Value>) -> Result<(), NoMemory>
    ensures { OnOk result (stack_syntax stack.new.items ≡ exprs_done ExprAction.NextExpr (stack_syntax stack.old.items)) }
{
    skip(stack);
    let exprs = take_expr_list(alloc, stack)?;
    push(stack, Value::Exprs(exprs))
}

#[tactic(auto, using(crate::proofs::Stacked::pushes))]
fn ended_at_once(alloc: Global, stack: &mut Vec<Value>) -> Result<(), NoMemory>
    ensures { OnOk result (stack_syntax stack.new.items ≡ exprs_done ExprAction.EndedAtOnce (stack_syntax stack.old.items)) }
{
    skip(stack);
    no_exprs(alloc, stack)
}

#[tactic(auto, using(crate::proofs::Stacked::pushes))]
fn ended_list(alloc: Global, stack: &mut Vec<Value>) -> Result<(), NoMemory>
    ensures { OnOk result (stack_syntax stack.new.items ≡ exprs_done ExprAction.EndedList (stack_syntax stack.old.items)) }
{
    let exprs = take_expr_list(alloc, stack)?;
    skip(stack);
    push(stack, Value::Exprs(exprs))
}

// Appends the nodes of an expression to those that follow it.
#[tactic(auto, using(crate::proofs::Stacked::pushes, crate::proofs::Reversed::expr_append))]
fn before<'a>(expr: Vec<Node<'a>>, mut others: Vec<Node<'a>>) -> Result<Vec<Node<'a>>, NoMemory>
    ensures { IfOk result (λ all. expr_syntax all.items ≡ expr_syntax expr.entry.items ++ expr_syntax others.entry.items) }
{
    if others.is_empty() {
        return Ok(expr);
    }
    others.extend_from_slice(&expr)?;
    Ok(others)
}

#[tactic(auto, using(crate::proofs::Stacked::pushes))]
fn next_operation(alloc: Global, stack: &mut Vec<Value>) -> Result<(), NoMemory>
    ensures { OnOk result (stack_syntax stack.new.items ≡ exprs_done ExprAction.NextOperation (stack_syntax stack.old.items)) }
{
    let operator = take_token(stack);
    let operand = take_expr(alloc, stack);
    let (mut operators, operands) = take_operations(alloc, stack);
    append_token(&mut operators, operator)?;
    let operands = before(operand, operands)?;
    push(stack, Value::Operations(operators, operands))
}

// Puts the operators before an expression, the first operator last.
#[tactic(auto, using(crate::proofs::Stacked::pushes, crate::proofs::NodeLists::joined_more))]
fn join_nodes<'a>(operators: &mut Vec<Token<'a>>, nodes: &mut Vec<Node<'a>>) -> Result<(), NoMemory>
    ensures { OnOk result (expr_syntax nodes.new.items ≡ joined (tokens_syntax operators.old.items) (expr_syntax nodes.old.items)) }
{
    'operators: while let Some(operator) = operators.pop() {
        append_node(nodes, Node::Operation(operator))?;
    }
    Ok(())
}

#[tactic(auto, using(crate::proofs::Stacked::pushes))]
fn join(alloc: Global, stack: &mut Vec<Value>) -> Result<(), NoMemory>
    ensures { OnOk result (stack_syntax stack.new.items ≡ exprs_done ExprAction.Join (stack_syntax stack.old.items)) }
{
    let expr = take_expr(alloc, stack);
    let (mut operators, operands) = take_operations(alloc, stack);
    let mut nodes = before(expr, operands)?;
    join_nodes(&mut operators, &mut nodes)?;
    push(stack, Value::Expr(nodes))
}

#[tactic(auto, using(crate::proofs::Stacked::pushes))]
fn numeral(alloc: Global, stack: &mut Vec<Value>) -> Result<(), NoMemory>
    ensures { OnOk result (stack_syntax stack.new.items ≡ exprs_done ExprAction.Numeral (stack_syntax stack.old.items)) }
{
    let token = take_token(stack);
    let mut nodes = Vec::new(alloc);
    append_node(&mut nodes, Node::Numeral(token))?;
    push(stack, Value::Expr(nodes))
}

// Returns the nodes of all expressions.
#[tactic(auto, using(crate::proofs::Stacked::pushes, crate::proofs::Reversed::expr_append, crate::proofs::NodeLists::all_more))]
fn all_nodes<'a>(alloc: Global, exprs: &[Vec<Node<'a>>]) -> Result<Vec<Node<'a>>, NoMemory>
    ensures { IfOk result (λ all. expr_syntax all.items ≡ all_nodes (exprs_syntax exprs.now)) }
{
    let mut nodes = Vec::new(alloc);
    for expr in exprs {
        nodes.extend_from_slice(expr)?;
    }
    Ok(nodes)
}

// The node of a name, or of its call with `count` arguments.
fn call_node<'a>(name: Token<'a>, is_no_call: bool, count: usize) -> Node<'a>
    ensures { node_syntax result ≡ call_node (parts_of_token name.entry) is_no_call count }
{
    if is_no_call {
        return Node::Named(name);
    }
    Node::Called(name, count)
}

// Returns the nodes of a name, or of its call with these arguments.
#[tactic(auto, using(crate::proofs::Stacked::pushes, crate::proofs::NodeLists::exprs_length))]
fn call_nodes<'a>(
    alloc: Global,
    name: Token<'a>,
    is_no_call: bool,
    exprs: &[Vec<Node<'a>>],
) -> Result<Vec<Node<'a>>, NoMemory>
    ensures { IfOk result (λ all. expr_syntax all.items ≡ call_node (parts_of_token name.entry) is_no_call (length (exprs_syntax exprs.now)) ∷ all_nodes (exprs_syntax exprs.now)) }
{
    let mut nodes = all_nodes(alloc, exprs)?;
    append_node(&mut nodes, call_node(name, is_no_call, exprs.len()))?;
    Ok(nodes)
}

// Returns the nodes of a name, or of its call with the arguments of a value.
fn nodes_with_arguments<'a>(
    alloc: Global,
    name: Token<'a>,
    arguments: Value<'a>,
) -> Result<Vec<Node<'a>>, NoMemory>
    ensures { IfOk result (λ all. expr_syntax all.items ≡ call_of (parts_of_token name.entry) (value_syntax arguments.entry)) }
{
    let no_call = is_no_call(&arguments);
    let exprs = arguments.into_exprs(alloc);
    call_nodes(alloc, name, no_call, &exprs)
}

#[tactic(auto, using(crate::proofs::Stacked::pushes))]
fn name_or_call(alloc: Global, stack: &mut Vec<Value>) -> Result<(), NoMemory>
    ensures { OnOk result (stack_syntax stack.new.items ≡ exprs_done ExprAction.NameOrCall (stack_syntax stack.old.items)) }
{
    let name = take_token(stack);
    let arguments = pop(stack);
    let nodes = nodes_with_arguments(alloc, name, arguments)?;
    push(stack, Value::Expr(nodes))
}

#[tactic(auto, using(crate::proofs::Stacked::pushes))]
fn call_list(alloc: Global, stack: &mut Vec<Value>) -> Result<(), NoMemory>
    ensures { OnOk result (stack_syntax stack.new.items ≡ exprs_done ExprAction.CallList (stack_syntax stack.old.items)) }
{
    skip(stack);
    let exprs = take_exprs(alloc, stack);
    push(stack, Value::Exprs(exprs))
}

// The first name or conversion that a node is, if it is one.
fn name_of<'a>(node: &Node<'a>) -> FirstName<'a>
    ensures { first_syntax result ≡ name_of (node_syntax node.now) }
{
    match *node {
        Node::Numeral(_) => FirstName::NoName,
        Node::Named(name) => FirstName::Name(name),
        Node::Called(name, _) => FirstName::Name(name),
        Node::Converted(word, _) => FirstName::Word(word),
        Node::Operation(_) => FirstName::NoName,
    }
}

/// Returns the first of two, if there is one.
pub fn first_of<'a>(first: FirstName<'a>, second: FirstName<'a>) -> FirstName<'a>
    ensures { first_syntax result ≡ first_of (first_syntax first.entry) (first_syntax second.entry) }
{
    match first {
        FirstName::NoName => second,
        FirstName::Name(name) => FirstName::Name(name),
        FirstName::Word(word) => FirstName::Word(word),
    }
}

/// Returns the first name or conversion in an expression that is in no argument and under no conversion.
#[tactic(auto, using(crate::proofs::Stacked::pushes))]
pub fn first_name<'a>(nodes: &[Node<'a>]) -> FirstName<'a>
    ensures { first_syntax result ≡ first_name (expr_syntax nodes.now) }
{
    let mut first = FirstName::NoName;
    for node in nodes {
        first = first_of(name_of(node), first);
    }
    first
}

// Appends the conversion of an expression to its nodes.
#[tactic(auto, using(crate::proofs::Stacked::pushes))]
fn push_conversion<'a>(nodes: &mut Vec<Node<'a>>, word: Token<'a>) -> Result<(), NoMemory>
    ensures { OnOk result (expr_syntax nodes.new.items ≡ converted (parts_of_token word.entry) (first_name (expr_syntax nodes.old.items)) ∷ expr_syntax nodes.old.items) }
{
    let first = first_name(nodes);
    append_node(nodes, Node::Converted(word, first))
}

#[tactic(auto, using(crate::proofs::Stacked::pushes))]
fn convert(alloc: Global, stack: &mut Vec<Value>) -> Result<(), NoMemory>
    ensures { OnOk result (stack_syntax stack.new.items ≡ exprs_done ExprAction.Convert (stack_syntax stack.old.items)) }
{
    let word = take_token(stack);
    skip(stack);
    let mut nodes = take_expr(alloc, stack);
    skip(stack);
    push_conversion(&mut nodes, word)?;
    push(stack, Value::Expr(nodes))
}

#[tactic(auto, using(crate::proofs::Stacked::pushes))]
fn enclosed_expr(alloc: Global, stack: &mut Vec<Value>) -> Result<(), NoMemory>
    ensures { OnOk result (stack_syntax stack.new.items ≡ exprs_done ExprAction.EnclosedExpr (stack_syntax stack.old.items)) }
{
    skip(stack);
    let nodes = take_expr(alloc, stack);
    skip(stack);
    push(stack, Value::Expr(nodes))
}

/// Replaces the values of the parts by that of the phrase. Fails only when out of memory.
#[tactic(auto, using(crate::proofs::Stacked::pushes))]
pub(crate) fn make_exprs(
    alloc: Global,
    action: ExprAction,
    stack: &mut Vec<Value>,
) -> Result<(), NoMemory>
    ensures { OnOk result (stack_syntax stack.new.items ≡ exprs_done action (stack_syntax stack.old.items)) }
{
    match action {
        ExprAction::NoExprs => no_exprs(alloc, stack),
        ExprAction::NextExpr => next_expr(alloc, stack),
        ExprAction::EndedAtOnce => ended_at_once(alloc, stack),
        ExprAction::EndedList => ended_list(alloc, stack),
        ExprAction::NoOperations => {
            push(stack, Value::Operations(Vec::new(alloc), Vec::new(alloc)))
        }
        ExprAction::NextOperation => next_operation(alloc, stack),
        ExprAction::Join => join(alloc, stack),
        ExprAction::Numeral => numeral(alloc, stack),
        ExprAction::NameOrCall => name_or_call(alloc, stack),
        ExprAction::CallNothing => push(stack, Value::NoCall),
        ExprAction::CallList => call_list(alloc, stack),
        ExprAction::Convert => convert(alloc, stack),
        ExprAction::EnclosedExpr => enclosed_expr(alloc, stack),
    }
}
