//! Conditions of forms, with what is known left out.
ghost use Rattle.std.specs.Prelude.{◌≡◌, ◌∷◌, IfOk, map};
ghost use Rattle.flow_forms.specs.Comparisons.{comparison_tree, literal_tree, is_same_comparison};
ghost use Rattle.flow_ways.specs.Conditions.{negation, both, either, of_literal as cond_of_literal, opposite_cond, is_true as is_true_cond, is_false as is_false_cond, both_conds as both_of, either_cond as either_of, value_known as known_value, known_or as cond_known_or, simplified as simplified_cond};
ghost use Rattle.flow_ways.specs.CondTrees.{cond_tree, known_fact};

use flow_forms::{FlowComparison, FlowLiteral, same_comparison};
use kat_model::NoMemory;
use std::alloc::Global;

/// A condition: a truth value, a comparison, or a negation, conjunction or disjunction.
pub enum FlowCond {
    Constantly(bool),
    Atom(FlowComparison),
    Negation(Box<FlowCond>),
    Both(Box<FlowCond>, Box<FlowCond>),
    Either(Box<FlowCond>, Box<FlowCond>),
}

// A loop, since a row of operands is a long chain.
impl Drop for FlowCond {
    fn drop(mut self) {
        loop {
            match self {
                FlowCond::Constantly(_holds) => return,
                FlowCond::Atom(_comparison) => return,
                FlowCond::Negation(cond) => self = Box::into_inner(cond),
                FlowCond::Both(_left, right) => self = Box::into_inner(right),
                FlowCond::Either(_left, right) => self = Box::into_inner(right),
            }
        }
    }
}

impl FlowCond {
    /// Returns a copy of the condition. Fails only when out of memory.
    pub fn copy(&self, alloc: Global) -> Result<FlowCond, NoMemory>
        ensures { IfOk result (λ c. cond_tree c ≡ cond_tree self.now) }
    {
        match self {
            FlowCond::Constantly(holds) => Ok(FlowCond::Constantly(*holds)),
            FlowCond::Atom(comparison) => Ok(FlowCond::Atom(comparison.copy(alloc)?)),
            FlowCond::Negation(cond) => {
                let cond = cond.copy(alloc)?;
                new_negation(alloc, cond)
            }
            FlowCond::Both(left, right) => {
                let left = left.copy(alloc)?;
                let right = right.copy(alloc)?;
                new_both(alloc, left, right)
            }
            FlowCond::Either(left, right) => {
                let left = left.copy(alloc)?;
                let right = right.copy(alloc)?;
                new_either(alloc, left, right)
            }
        }
    }

    /// Returns the opposite condition. Fails only when out of memory.
    pub fn opposite(self, alloc: Global) -> Result<FlowCond, NoMemory>
        ensures { IfOk result (λ c. cond_tree c ≡ opposite_cond (cond_tree self)) }
    {
        match self {
            FlowCond::Constantly(holds) => Ok(FlowCond::Constantly(!holds)),
            FlowCond::Negation(cond) => Ok(Box::into_inner(cond)),
            other => new_negation(alloc, other),
        }
    }
}

/// A comparison and whether it holds.
#[derive(Drop)]
pub(crate) struct Known {
    pub comparison: FlowComparison,
    pub holds: bool,
}

// Not inlined, so that what goes down a row of operands has a small frame.
#[inline(never)]
fn new_negation(alloc: Global, cond: FlowCond) -> Result<FlowCond, NoMemory>
    ensures { IfOk result (λ c. cond_tree c ≡ negation (cond_tree cond)) }
{
    Ok(FlowCond::Negation(Box::new(alloc, cond)?))
}

// Not inlined, so that what goes down a row of operands has a small frame.
#[inline(never)]
fn new_both(alloc: Global, left: FlowCond, right: FlowCond) -> Result<FlowCond, NoMemory>
    ensures { IfOk result (λ c. cond_tree c ≡ both (cond_tree left) (cond_tree right)) }
{
    let left = Box::new(alloc, left)?;
    let right = Box::new(alloc, right)?;
    Ok(FlowCond::Both(left, right))
}

// Not inlined, so that what goes down a row of operands has a small frame.
#[inline(never)]
fn new_either(alloc: Global, left: FlowCond, right: FlowCond) -> Result<FlowCond, NoMemory>
    ensures { IfOk result (λ c. cond_tree c ≡ either (cond_tree left) (cond_tree right)) }
{
    let left = Box::new(alloc, left)?;
    let right = Box::new(alloc, right)?;
    Ok(FlowCond::Either(left, right))
}

/// Returns the condition that a literal is. Fails only when out of memory.
pub(crate) fn of_literal(alloc: Global, literal: FlowLiteral) -> Result<FlowCond, NoMemory>
    ensures { IfOk result (λ c. cond_tree c ≡ cond_of_literal (literal_tree literal)) }
{
    match literal {
        FlowLiteral::Decided(holds) => Ok(FlowCond::Constantly(holds)),
        FlowLiteral::Holds(comparison) => Ok(FlowCond::Atom(comparison)),
        FlowLiteral::Fails(comparison) => new_negation(alloc, FlowCond::Atom(comparison)),
    }
}

/// Whether a condition is the constant that holds.
pub(crate) fn is_true(cond: &FlowCond) -> bool
    ensures { result ≡ is_true_cond (cond_tree cond.now) }
{
    match cond {
        FlowCond::Constantly(holds) => *holds,
        _ => false,
    }
}

/// Whether a condition is the constant that does not hold.
pub(crate) fn is_false(cond: &FlowCond) -> bool
    ensures { result ≡ is_false_cond (cond_tree cond.now) }
{
    match cond {
        FlowCond::Constantly(holds) => !*holds,
        _ => false,
    }
}

/// Returns the conjunction of two conditions, with truth values left out. Fails only when out of memory.
pub(crate) fn both_conds(
    alloc: Global,
    left: FlowCond,
    right: FlowCond,
) -> Result<FlowCond, NoMemory>
    ensures { IfOk result (λ c. cond_tree c ≡ both_of (cond_tree left) (cond_tree right)) }
{
    if is_true(&left) {
        return Ok(right);
    }
    if is_false(&left) {
        return Ok(FlowCond::Constantly(false));
    }
    if is_true(&right) {
        return Ok(left);
    }
    if is_false(&right) {
        return Ok(FlowCond::Constantly(false));
    }
    new_both(alloc, left, right)
}

/// Returns the disjunction of two conditions, with truth values left out. Fails only when out of memory.
pub(crate) fn either_cond(
    alloc: Global,
    left: FlowCond,
    right: FlowCond,
) -> Result<FlowCond, NoMemory>
    ensures { IfOk result (λ c. cond_tree c ≡ either_of (cond_tree left) (cond_tree right)) }
{
    if is_false(&left) {
        return Ok(right);
    }
    if is_true(&left) {
        return Ok(FlowCond::Constantly(true));
    }
    if is_false(&right) {
        return Ok(left);
    }
    if is_true(&right) {
        return Ok(FlowCond::Constantly(true));
    }
    new_either(alloc, left, right)
}

fn is_same(left: &FlowComparison, right: &FlowComparison) -> bool
    ensures { result ≡ is_same_comparison (comparison_tree left.now) (comparison_tree right.now) }
{
    same_comparison(left, right)
}

/// Returns what the first fact of a comparison says, if there is one.
#[cycle(value_known)]
pub(crate) fn value_known(facts: &[Known], comparison: &FlowComparison) -> Option<bool>
    ensures { result ≡ known_value (map known_fact facts.now) (comparison_tree comparison.now) }
{
    match facts {
        [] => None,
        [known, rest @ ..] => value_known_from(known, rest, comparison),
    }
}

#[cycle(value_known)]
fn value_known_from(known: &Known, rest: &[Known], comparison: &FlowComparison) -> Option<bool>
    ensures { result ≡ known_value (known_fact known.now ∷ map known_fact rest.now) (comparison_tree comparison.now) }
{
    if is_same(&known.comparison, comparison) {
        return Some(known.holds);
    }
    value_known(rest, comparison)
}

// Not inlined, so that what goes down a row of operands has a small frame.
#[inline(never)]
fn known_or(
    alloc: Global,
    comparison: &FlowComparison,
    known: Option<bool>,
) -> Result<FlowCond, NoMemory>
    ensures { IfOk result (λ c. cond_tree c ≡ cond_known_or (comparison_tree comparison.now) known) }
{
    match known {
        None => Ok(FlowCond::Atom(comparison.copy(alloc)?)),
        Some(holds) => Ok(FlowCond::Constantly(holds)),
    }
}

/// Returns a condition with the comparisons that are known decided. Fails only when out of memory.
pub(crate) fn simplified(
    alloc: Global,
    facts: &[Known],
    cond: &FlowCond,
) -> Result<FlowCond, NoMemory>
    ensures { IfOk result (λ c. cond_tree c ≡ simplified_cond (map known_fact facts.now) (cond_tree cond.now)) }
{
    match cond {
        FlowCond::Constantly(holds) => Ok(FlowCond::Constantly(*holds)),
        FlowCond::Atom(comparison) => {
            known_or(alloc, comparison, value_known(facts, comparison))
        }
        FlowCond::Negation(cond) => {
            let cond = simplified(alloc, facts, cond)?;
            cond.opposite(alloc)
        }
        FlowCond::Both(left, right) => {
            let left = simplified(alloc, facts, left)?;
            let right = simplified(alloc, facts, right)?;
            both_conds(alloc, left, right)
        }
        FlowCond::Either(left, right) => {
            let left = simplified(alloc, facts, left)?;
            let right = simplified(alloc, facts, right)?;
            either_cond(alloc, left, right)
        }
    }
}
