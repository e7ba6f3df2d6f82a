//! Expressions with their names resolved and their sorts checked.
ghost use Rattle.std.specs.Prelude.{◌≡◌, [], ◌∷◌, ◌++◌, map, Ok, Some, IfSome, IfNone, OnOk};
ghost use Rattle.text_parser.specs.TokenParts.{parts_of_token};
ghost use Rattle.text_parser.specs.Parsed.{Makes};
ghost use Rattle.flow_text.specs.Resolving.{operand, second_operand, number_in, number_of_width, with_expected_sort, application_of, function_in, variable_in, conversion_in, operator_on, operator_in, with_parameters, with_operand, node_in, sort_expected, next_node, resolved};
ghost use Rattle.flow_text.specs.Scopes.{meaning_in, width_named};
ghost use Rattle.flow_text.specs.ScopeViews.{function_of, sight_parts};
ghost use Rattle.flow_syntax.specs.SyntaxViews.{node_syntax, expr_syntax};
ghost use Rattle.flow_text.specs.Working.Wanting.{expected_syntax, expected_stack, Gives};

use crate::faults::{name_fault, sort_fault, width_fault};
use crate::meaning::Meaning;
use crate::scope::Function;
use crate::visible_names::{VisibleNames, function_at, sort_at, sort_or_u64, width_named};
use flow_model::{ExprNode, Sort};
use flow_syntax::{Node, spelled_number};
use kat_model::{NoMemory, Width, append};
use std::alloc::Global;
use text_parser::{TextFault, Token};

/// What is wanted next: an operand of a sort, which is the second one of an operator, or not.
#[derive(Clone, Copy)]
pub(crate) enum Expected<'a> {
    Operand(Sort),
    SecondOperand(Token<'a>, Sort),
}

#[tactic(auto, using(crate::proofs::ExpectedStacks::expects))]
fn push_expected<'a>(stack: &mut Vec<Expected<'a>>, expected: Expected<'a>) -> Result<(), NoMemory>
    ensures { OnOk result (expected_stack stack.new.items ≡ expected_syntax expected.entry ∷ expected_stack stack.old.items) }
{
    append(stack, expected)
}

fn push_operand(stack: &mut Vec<Expected>, sort: Sort) -> Result<(), NoMemory>
    ensures { OnOk result (expected_stack stack.new.items ≡ operand sort ∷ expected_stack stack.old.items) }
{
    push_expected(stack, Expected::Operand(sort))
}

#[tactic(auto, using(crate::proofs::ExpectedStacks::expects))]
fn pop_expected<'a>(stack: &mut Vec<Expected<'a>>) -> Option<Expected<'a>>
    ensures some { IfSome result (λ expected. expected_stack stack.old.items ≡ expected_syntax expected ∷ expected_stack stack.new.items) }
    ensures none { IfNone result (expected_stack stack.old.items ≡ []) }
{
    stack.pop()
}

// Pushes operands of these sorts, of which the first is wanted next.
fn push_operands(stack: &mut Vec<Expected>, sorts: &[Sort]) -> Result<(), NoMemory>
    ensures { OnOk result (expected_stack stack.new.items ≡ map operand sorts.now ++ expected_stack stack.old.items) }
{
    let mut left = sorts.len();
    'sorts: while left > 0 {
        left -= 1;
        push_operand(stack, sorts[left])?;
    }
    Ok(())
}

fn sort_expected(expected: Expected) -> Result<Sort, TextFault>
    ensures { result ≡ sort_expected (expected_syntax expected.entry) }
{
    match expected {
        Expected::Operand(sort) => Ok(sort),
        Expected::SecondOperand(operator, sort) => match sort {
            Sort::Opaque(_) => sort_fault(&operator),
            Sort::Number(width) => Ok(Sort::Number(width)),
        },
    }
}

fn number_of_width(width: Width, token: &Token, number: Option<u64>) -> Result<ExprNode, TextFault>
    ensures { result ≡ number_of_width width (parts_of_token token.now) number }
{
    match number {
        None => width_fault(token),
        Some(n) => {
            if n <= width.greatest() {
                Ok(ExprNode::Number(width, n))
            } else {
                width_fault(token)
            }
        }
    }
}

fn number_in(expected: Sort, token: &Token) -> Result<ExprNode, TextFault>
    ensures { result ≡ number_in expected (parts_of_token token.now) }
{
    match expected {
        Sort::Opaque(_) => sort_fault(token),
        Sort::Number(width) => number_of_width(width, token, spelled_number(token)),
    }
}

// Returns a variable, which has a sort if it is declared.
fn with_expected_sort(
    expected: Sort,
    token: &Token,
    variable: usize,
    sort: Option<Sort>,
) -> Result<ExprNode, TextFault>
    ensures { result ≡ with_expected_sort expected (parts_of_token token.now) (ExprNode.Variable variable) sort }
{
    match sort {
        None => name_fault(token),
        Some(sort) => {
            if sort == expected {
                Ok(ExprNode::Variable(variable))
            } else {
                sort_fault(token)
            }
        }
    }
}

fn variable_in(
    visible_names: &VisibleNames,
    expected: Sort,
    token: &Token,
) -> Result<ExprNode, TextFault>
    ensures { result ≡ variable_in (sight_parts visible_names.now) expected (parts_of_token token.now) (meaning_in (sight_parts visible_names.now) (parts_of_token token.now)) }
{
    match visible_names.meaning(token) {
        None => name_fault(token),
        Some(meaning) => match meaning {
            Meaning::Variable(k) => with_expected_sort(
                expected,
                token,
                k,
                sort_at(visible_names.variables, k),
            ),
            Meaning::SortName(_) => sort_fault(token),
            Meaning::Function(_) => sort_fault(token),
            Meaning::GraphName(_) => sort_fault(token),
        },
    }
}

// Returns the call of a function with `count` arguments, and pushes its parameters.
fn apply_function(
    expected: Sort,
    token: &Token,
    count: usize,
    k: usize,
    function: &Function,
    stack: &mut Vec<Expected>,
) -> Result<ExprNode, TextFault>
    ensures { Gives result (expected_stack stack.new.items) (with_parameters (expected_stack stack.old.items) (application_of expected (parts_of_token token.now) count k (Some (function_of function.now)))) }
{
    if function.result_sort == expected && count == function.parameters.len() {
        push_operands(stack, &function.parameters)?;
        return Ok(ExprNode::Applied(k, function.result_sort, count));
    }
    sort_fault(token)
}

fn function_in(
    visible_names: &VisibleNames,
    expected: Sort,
    token: &Token,
    count: usize,
    stack: &mut Vec<Expected>,
) -> Result<ExprNode, TextFault>
    ensures { Gives result (expected_stack stack.new.items) (with_parameters (expected_stack stack.old.items) (function_in (sight_parts visible_names.now) expected (parts_of_token token.now) count (meaning_in (sight_parts visible_names.now) (parts_of_token token.now)))) }
{
    match visible_names.meaning(token) {
        None => name_fault(token),
        Some(meaning) => match meaning {
            Meaning::Function(k) => match function_at(visible_names.functions, k) {
                None => name_fault(token),
                Some(function) => apply_function(expected, token, count, k, function, stack),
            },
            Meaning::SortName(_) => sort_fault(token),
            Meaning::Variable(_) => sort_fault(token),
            Meaning::GraphName(_) => sort_fault(token),
        },
    }
}

// Returns the conversion and the width of its operand.
fn conversion_in(
    expected: Sort,
    token: &Token,
    word: Option<(bool, Width)>,
    operand: Sort,
) -> Result<(ExprNode, Width), TextFault>
    ensures { result ≡ conversion_in expected (parts_of_token token.now) word operand }
{
    match word {
        None => sort_fault(token),
        Some((signed, to)) => match operand {
            Sort::Opaque(_) => sort_fault(token),
            Sort::Number(from) => {
                if Sort::Number(to) == expected {
                    Ok((ExprNode::Converted(signed, from, to), from))
                } else {
                    sort_fault(token)
                }
            }
        },
    }
}

fn operator_on(width: Width, text: &str) -> ExprNode
    ensures { result ≡ operator_on width text.now }
{
    match text.as_bytes() {
        b"+" => ExprNode::Plus(width),
        b"-" => ExprNode::Minus(width),
        _ => ExprNode::Times(width),
    }
}

fn operator_in(expected: Sort, text: &str) -> ExprNode
    ensures { result ≡ operator_in expected text.now }
{
    match expected {
        Sort::Number(width) => operator_on(width, text),
        Sort::Opaque(_) => operator_on(Width::W64, text),
    }
}

// Returns the conversion of an operand of this sort, and pushes the operand.
fn convert(
    expected: Sort,
    word: &Token,
    sort: Sort,
    stack: &mut Vec<Expected>,
) -> Result<ExprNode, TextFault>
    ensures { Gives result (expected_stack stack.new.items) (with_operand (expected_stack stack.old.items) (conversion_in expected (parts_of_token word.now) (width_named word.now.text.now) sort)) }
{
    let (made, from) = conversion_in(expected, word, width_named(word.text), sort)?;
    push_operand(stack, Sort::Number(from))?;
    Ok(made)
}

// Returns the operator, and pushes its operands.
fn operate<'a>(
    expected: Sort,
    operator: &Token<'a>,
    stack: &mut Vec<Expected<'a>>,
) -> Result<ExprNode, TextFault>
    ensures { Gives result (expected_stack stack.new.items) (Ok (operator_in expected operator.now.text.now, operand expected ∷ second_operand (parts_of_token operator.now) expected ∷ expected_stack stack.old.items)) }
{
    push_expected(stack, Expected::SecondOperand(*operator, expected))?;
    push_operand(stack, expected)?;
    Ok(operator_in(expected, operator.text))
}

// Returns the node where a sort is wanted, and pushes what is wanted of its operands.
fn node_in<'a>(
    visible_names: &VisibleNames,
    expected: Sort,
    node: &Node<'a>,
    stack: &mut Vec<Expected<'a>>,
) -> Result<ExprNode, TextFault>
    ensures { Gives result (expected_stack stack.new.items) (node_in (sight_parts visible_names.now) expected (expected_stack stack.old.items) (node_syntax node.now)) }
{
    match node {
        Node::Numeral(token) => number_in(expected, token),
        Node::Named(name) => variable_in(visible_names, expected, name),
        Node::Called(name, count) => function_in(visible_names, expected, name, *count, stack),
        Node::Converted(word, first) => {
            let sort = sort_or_u64(visible_names.sort_of_first(first));
            convert(expected, word, sort, stack)
        }
        Node::Operation(operator) => operate(expected, operator, stack),
    }
}

fn next_node<'a>(
    visible_names: &VisibleNames,
    expected: Expected<'a>,
    node: &Node<'a>,
    stack: &mut Vec<Expected<'a>>,
) -> Result<ExprNode, TextFault>
    ensures { Gives result (expected_stack stack.new.items) (next_node (sight_parts visible_names.now) (expected_syntax expected.entry) (expected_stack stack.old.items) (node_syntax node.now)) }
{
    let sort = sort_expected(expected)?;
    node_in(visible_names, sort, node, stack)
}

/// Returns the expression with its names resolved, where a sort is wanted, or its first fault in text order.
#[tactic(auto, using(flow_syntax::proofs::Stacked::pushes, crate::proofs::ExpectedStacks::expects, crate::proofs::ResolvedSteps::steps, crate::proofs::LastTaken::last))]
pub(crate) fn resolve<'a>(
    alloc: Global,
    visible_names: &VisibleNames,
    expected: Sort,
    expr: &[Node<'a>],
) -> Result<Vec<ExprNode>, TextFault>
    ensures { Makes (Unit {0}) (λ v. v.items) result (resolved (sight_parts visible_names.now) expected (expr_syntax expr.now)) }
{
    let mut stack = Vec::new(alloc);
    push_operand(&mut stack, expected)?;
    let mut nodes = Vec::new(alloc);
    let mut rest = expr;
    'nodes: while let Some((node, _)) = rest.split_last() {
        let Some(next) = pop_expected(&mut stack) else {
            return Ok(nodes);
        };
        let made = next_node(visible_names, next, node, &mut stack)?;
        append(&mut nodes, made)?;
        rest = &rest[..rest.len() - 1];
    }
    Ok(nodes)
}
