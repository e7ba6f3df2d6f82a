//! Makes the items of a text from its derivation.
ghost use Rattle.std.specs.Prelude.{◌≡◌, OnOk, slice_get};
ghost use Rattle.flow_syntax.specs.Actions.{done};
ghost use Rattle.flow_syntax.specs.Productions.{act};
ghost use Rattle.flow_syntax.specs.SyntaxViews.{stack_syntax};

use crate::action::Action;
use crate::building::Building;
use crate::listing::ACTIONS;
use crate::making_bodies::make_bodies;
use crate::making_conds::make_conds;
use crate::making_exprs::make_exprs;
use crate::making_items::make_items;
use crate::making_matches::make_matches;
use crate::making_names::make_names;
use crate::stack::push;
use crate::value::Value;
use kat_model::NoMemory;
use std::alloc::Global;
use text_parser::Token;

fn make(alloc: Global, action: Action, stack: &mut Vec<Value>) -> Result<(), NoMemory>
    ensures { OnOk result (stack_syntax stack.new.items ≡ done action (stack_syntax stack.old.items)) }
{
    match action {
        Action::Names(names) => make_names(alloc, names, stack),
        Action::Exprs(exprs) => make_exprs(alloc, exprs, stack),
        Action::Conds(conds) => make_conds(alloc, conds, stack),
        Action::Bodies(bodies) => make_bodies(alloc, bodies, stack),
        Action::Matches(matches) => make_matches(alloc, matches, stack),
        Action::Items(items) => make_items(alloc, items, stack),
    }
}

// Does the action of a rule; `actions` are those of all rules.
#[tactic(auto, using(std::proofs::lemmas::Option::slice_get_read))]
fn apply_rule(
    alloc: Global,
    actions: &[Action],
    rule: usize,
    stack: &mut Vec<Value>,
) -> Result<(), NoMemory>
    ensures { OnOk result (stack_syntax stack.new.items ≡ act (slice_get actions.now rule) (stack_syntax stack.old.items)) }
{
    match actions.get(rule) {
        Some(action) => make(alloc, *action, stack),
        None => Ok(()),
    }
}

/// The values of the parts so far, the first part last.
#[derive(Drop)]
pub(crate) struct Parts<'a> {
    pub(crate) alloc: Global,
    pub(crate) values: Vec<Value<'a>>,
}

impl<'a> Building<'a> for Parts<'a> {
    ghost use Rattle.flow_syntax.specs.Actions.{ValueSyntax};
    ghost use Rattle.flow_syntax.specs.Productions.{actions};
    ghost use Rattle.flow_syntax.specs.SyntaxViews.{stack_syntax};

    ghost V = { ValueSyntax };

    ghost stack = { λ p. stack_syntax p.values.items };

    ghost actions = { actions };

    #[tactic(auto, using(crate::proofs::Stacked::pushes))]
    fn shift(&mut self, token: &Token<'a>) -> Result<(), NoMemory> {
        push(&mut self.values, Value::Token(*token))
    }

    #[tactic(auto, using(crate::proofs::GrammarExamples::actions_listed))]
    fn apply(&mut self, rule: usize) -> Result<(), NoMemory> {
        apply_rule(self.alloc, &ACTIONS, rule, &mut self.values)
    }
}
