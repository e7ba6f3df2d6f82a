//! Values of derivations.
ghost use Rattle.std.specs.Prelude.{◌≡◌, ◌≤◌, ◌<◌, ◌+◌, List, [], ◌∷◌, length, drop, IfOk, OnOk};
ghost use Rattle.text_parser.specs.TokenParts.{parts_of_token, parts_of_tokens};
ghost use Rattle.flow_syntax.specs.Values.{Actions, taken_by, count_taken, with_leaf, step_values, values};

use crate::rule::Step;
use kat_model::NoMemory;
use text_parser::Token;

/// A stack of values that the actions of a grammar change. Contracts see it as a list through `stack`, the first part
/// first, and the actions as `actions`.
pub trait Building<'a> {
    ghost V: { Type 0 };

    ghost stack: { Self → List V };

    ghost actions: { Actions V };

    /// Pushes the value of a token. Fails only when out of memory.
    fn shift(&mut self, token: &Token<'a>) -> Result<(), NoMemory>
        ensures { OnOk result (stack self.new ≡ (actions).leaf (parts_of_token token.now) ∷ stack self.old) };

    /// Replaces the values of the parts of a rule, which are the first of the stack, by the value of its phrase. Fails
    /// only when out of memory.
    fn apply(&mut self, rule: usize) -> Result<(), NoMemory>
        ensures { OnOk result (stack self.new ≡ (actions).apply rule (stack self.old)) };
}

// Pushes the value of the token at index `i`.
fn shift_at<'a, B: Building<'a>>(
    building: &mut B,
    toks: &[Token<'a>],
    i: usize,
) -> Result<(), NoMemory>
    requires { i < length toks.now }
    ensures { OnOk result (B.stack building.new ≡ with_leaf B.actions (drop i (parts_of_tokens toks.now)) (B.stack building.old)) }
{
    building.shift(&toks[i])?;
    Ok(())
}

// Makes the values of one more step. Its token, if it takes one, is the last before index `at`. Returns the index of the
// first token of the steps so far.
fn take_back<'a, B: Building<'a>>(
    building: &mut B,
    step: Step,
    toks: &[Token<'a>],
    at: usize,
) -> Result<usize, NoMemory>
    requires taken { taken_by step ≤ at }
    requires within { at ≤ length toks.now }
    ensures place { IfOk result (λ from. from + taken_by step ≡ at) }
    ensures value { IfOk result (λ from. B.stack building.new ≡ step_values B.actions step (drop from (parts_of_tokens toks.now)) (B.stack building.old)) }
{
    match step {
        Step::Close => Ok(at),
        Step::Apply(rule) => {
            building.apply(rule)?;
            Ok(at)
        }
        Step::Match => {
            shift_at(building, toks, at - 1)?;
            Ok(at - 1)
        }
        Step::Shift(rule) => {
            shift_at(building, toks, at - 1)?;
            building.apply(rule)?;
            Ok(at - 1)
        }
    }
}

/// Makes the values of the parts that the steps derive from the tokens, by the actions, from the last step to the first.
/// The steps must take all tokens. Fails only when out of memory; the stack must not be used then.
pub fn build<'a, B: Building<'a>>(
    building: &mut B,
    steps: &[Step],
    toks: &[Token<'a>],
) -> Result<(), NoMemory>
    requires empty { B.stack building.old ≡ [] }
    requires taken { count_taken steps.now ≡ length toks.now }
    ensures { OnOk result (B.stack building.new ≡ values B.actions steps.now (parts_of_tokens toks.now)) }
{
    let mut at = toks.len();
    let mut left = steps.len();
    'steps: while left > 0 {
        left -= 1;
        at = take_back(building, steps[left], toks, at)?;
    }
    Ok(())
}
