//! What productions make of the parts of a `match`.
ghost use Rattle.std.specs.Prelude.{◌≡◌, OnOk};
ghost use Rattle.flow_syntax.specs.Actions.{matches_done};
ghost use Rattle.flow_syntax.specs.SyntaxViews.{stack_syntax};

use crate::action::MatchAction;
use crate::lists::{append_equation, append_token};
use crate::stack::{
    push, skip, take_cond, take_equations, take_expr, take_flag, take_given, take_token,
};
use crate::value::Value;
use crate::written::{BlockMatch, Equation, Match};
use kat_model::NoMemory;
use std::alloc::Global;

// Puts a variable, the expression after the next token and the equations after it on the stack, as equations.
#[tactic(auto, using(crate::proofs::Stacked::pushes))]
fn first_equation(alloc: Global, stack: &mut Vec<Value>) -> Result<(), NoMemory>
    ensures { OnOk result (stack_syntax stack.new.items ≡ matches_done MatchAction.FirstEquation (stack_syntax stack.old.items)) }
{
    let variable = take_token(stack);
    skip(stack);
    let value = take_expr(alloc, stack);
    let mut list = take_equations(alloc, stack);
    append_equation(&mut list, Equation { variable, value })?;
    push(stack, Value::Equations(list))
}

#[tactic(auto, using(crate::proofs::Stacked::pushes))]
fn next_equation(alloc: Global, stack: &mut Vec<Value>) -> Result<(), NoMemory>
    ensures { OnOk result (stack_syntax stack.new.items ≡ matches_done MatchAction.NextEquation (stack_syntax stack.old.items)) }
{
    skip(stack);
    first_equation(alloc, stack)
}

#[tactic(auto, using(crate::proofs::Stacked::pushes))]
fn given_equations(alloc: Global, stack: &mut Vec<Value>) -> Result<(), NoMemory>
    ensures { OnOk result (stack_syntax stack.new.items ≡ matches_done MatchAction.GivenEquations (stack_syntax stack.old.items)) }
{
    skip(stack);
    let list = take_equations(alloc, stack);
    push(stack, Value::Equations(list))
}

#[tactic(auto, using(crate::proofs::Stacked::pushes))]
fn given_condition(alloc: Global, stack: &mut Vec<Value>) -> Result<(), NoMemory>
    ensures { OnOk result (stack_syntax stack.new.items ≡ matches_done MatchAction.GivenCondition (stack_syntax stack.old.items)) }
{
    skip(stack);
    let cond = take_cond(alloc, stack);
    push(stack, Value::Cond(cond))
}

#[tactic(auto, using(crate::proofs::Stacked::pushes))]
fn given_word(alloc: Global, stack: &mut Vec<Value>) -> Result<(), NoMemory>
    ensures { OnOk result (stack_syntax stack.new.items ≡ matches_done MatchAction.GivenWord (stack_syntax stack.old.items)) }
{
    let token = take_token(stack);
    let mut list = Vec::new(alloc);
    append_token(&mut list, token)?;
    push(stack, Value::Tokens(list))
}

#[tactic(auto, using(crate::proofs::Stacked::pushes))]
fn given_number(alloc: Global, stack: &mut Vec<Value>) -> Result<(), NoMemory>
    ensures { OnOk result (stack_syntax stack.new.items ≡ matches_done MatchAction.GivenNumber (stack_syntax stack.old.items)) }
{
    skip(stack);
    given_word(alloc, stack)
}

#[tactic(auto, using(crate::proofs::Stacked::pushes))]
fn match_names(stack: &mut Vec<Value>) -> Result<(), NoMemory>
    ensures { OnOk result (stack_syntax stack.new.items ≡ matches_done MatchAction.MatchNames (stack_syntax stack.old.items)) }
{
    skip(stack);
    skip(stack);
    push(stack, Value::Match(Match::SameNames))
}

#[tactic(auto, using(crate::proofs::Stacked::pushes))]
fn match_blocks(alloc: Global, stack: &mut Vec<Value>) -> Result<(), NoMemory>
    ensures { OnOk result (stack_syntax stack.new.items ≡ matches_done MatchAction.MatchBlocks (stack_syntax stack.old.items)) }
{
    let before = take_token(stack);
    skip(stack);
    let after = take_token(stack);
    let forth = take_equations(alloc, stack);
    let back = take_equations(alloc, stack);
    let keeping = take_equations(alloc, stack);
    let condition = take_cond(alloc, stack);
    let rounds = take_given(alloc, stack);
    let splits = take_flag(alloc, stack);
    skip(stack);
    let blocks = BlockMatch {
        before,
        after,
        forth,
        back,
        keeping,
        condition,
        rounds,
        splits,
    };
    push(stack, Value::Match(Match::TwoBlocks(blocks)))
}

/// Replaces the values of the parts by that of the phrase. Fails only when out of memory.
#[tactic(auto, using(crate::proofs::Stacked::pushes))]
pub(crate) fn make_matches(
    alloc: Global,
    action: MatchAction,
    stack: &mut Vec<Value>,
) -> Result<(), NoMemory>
    ensures { OnOk result (stack_syntax stack.new.items ≡ matches_done action (stack_syntax stack.old.items)) }
{
    match action {
        MatchAction::NoEquations => push(stack, Value::Equations(Vec::new(alloc))),
        MatchAction::NextEquation => next_equation(alloc, stack),
        MatchAction::FirstEquation => first_equation(alloc, stack),
        MatchAction::GivenEquations => given_equations(alloc, stack),
        MatchAction::GivenCondition => given_condition(alloc, stack),
        MatchAction::GivenNumber => given_number(alloc, stack),
        MatchAction::GivenWord => given_word(alloc, stack),
        MatchAction::MatchNames => match_names(stack),
        MatchAction::MatchBlocks => match_blocks(alloc, stack),
    }
}
