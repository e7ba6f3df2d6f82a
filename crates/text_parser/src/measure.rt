//! The faults of the names of a phrase, and the size and nesting of the phrase.
ghost use Rattle.std.specs.Prelude.{◌≡◌, slice_get};
ghost use Rattle.text_parser.specs.Parsed.{Makes};
ghost use Rattle.text_parser.specs.ScopeParts.{meaning};
ghost use Rattle.text_parser.specs.Measuring.{number_extent, variable_extent, condition_extent, defined_extent, name_extent, extents};

use crate::extent::{Extent, cut_extent};
use crate::fault::TextFault;
use crate::meaning::Meaning;
use crate::reading::{Context, Operator, Reading};
use crate::scope::Scope;
use kat_model::{MAX_OPEN, Rel};

// The actions that measure a phrase and reject what is not allowed in it.
#[derive(Clone, Copy)]
pub(crate) struct Measure<'a> {
    pub(crate) scope: &'a Scope,
}

fn of_number(context: Context, at: usize) -> Result<Extent, TextFault>
    ensures { result ≡ number_extent context at }
{
    if !context.compares {
        return Err(TextFault::Sort(at));
    }
    Ok(cut_extent(1, 0, 0))
}

fn of_variable(context: Context, at: usize, meaning: Option<Meaning>) -> Result<Extent, TextFault>
    ensures { result ≡ variable_extent context at meaning }
{
    match meaning {
        None => Err(TextFault::UnknownName(at)),
        Some(Meaning::Var(_)) => of_number(context, at),
        Some(_) => Err(TextFault::Sort(at)),
    }
}

fn of_condition(at: usize, meaning: Option<Meaning>) -> Result<Extent, TextFault>
    ensures { result ≡ condition_extent at meaning }
{
    match meaning {
        None => Err(TextFault::UnknownName(at)),
        Some(Meaning::Test(_)) => Ok(cut_extent(1, 1, 0)),
        Some(_) => Err(TextFault::Sort(at)),
    }
}

fn of_definition(scope: &Scope, context: Context, at: usize, i: usize) -> Result<Extent, TextFault>
    ensures { result ≡ defined_extent context at (slice_get scope.now.terms i) }
{
    let Some(definition) = scope.definition(i) else {
        return Ok(cut_extent(1, 1, 0));
    };
    if context.negated && !definition.testable {
        return Err(TextFault::Sort(at));
    }
    if context.depth.saturating_add(definition.nesting) > MAX_OPEN {
        return Err(TextFault::TooDeep(at));
    }
    Ok(definition.extent)
}

fn of_name(
    scope: &Scope,
    context: Context,
    at: usize,
    meaning: Option<Meaning>,
) -> Result<Extent, TextFault>
    ensures { result ≡ name_extent scope.now context at meaning }
{
    match meaning {
        None => Err(TextFault::UnknownName(at)),
        Some(Meaning::Test(_)) => Ok(cut_extent(2, 1, 0)),
        Some(Meaning::Action(_)) => {
            if context.negated {
                return Err(TextFault::Sort(at));
            }
            Ok(cut_extent(1, 1, 0))
        }
        Some(Meaning::Term(i)) => of_definition(scope, context, at, i),
        Some(_) => Err(TextFault::Sort(at)),
    }
}

impl Reading for Measure<'_> {
    type Expr = Extent;

    type Cond = Extent;

    type Conds = Extent;

    type Term = Extent;

    type Terms = Extent;

    ghost use Rattle.text_parser.specs.declared.extent.Extent.{Extent};

    ghost E = { Extent };

    ghost B = { Extent };

    ghost L = { Extent };

    ghost T = { Extent };

    ghost M = { Extent };

    ghost memory = { ⊥ };

    ghost expr = { λ m. m };

    ghost cond = { λ m. m };

    ghost conds = { λ m. m };

    ghost term = { λ m. m };

    ghost terms = { λ m. m };

    ghost actions = { λ s. extents s.scope.now };

    fn number(&self, context: Context, at: usize, _: u64) -> Result<Extent, TextFault> {
        of_number(context, at)
    }

    fn variable(&self, context: Context, at: usize, name: &str) -> Result<Extent, TextFault> {
        of_variable(context, at, self.scope.find(name))
    }

    fn join(&self, _: Operator, left: Extent, right: Extent) -> Result<Extent, TextFault> {
        Ok(left.link(right))
    }

    fn enclosed_expr(&self, inside: Extent) -> Extent {
        inside.deepen()
    }

    fn always(&self) -> Extent {
        cut_extent(1, 1, 0)
    }

    fn never(&self) -> Extent {
        cut_extent(1, 1, 0)
    }

    fn named_cond(&self, _: Context, at: usize, name: &str) -> Result<Extent, TextFault> {
        of_condition(at, self.scope.find(name))
    }

    fn compare(&self, _: Rel, left: Extent, right: Extent) -> Extent {
        left.compare(right)
    }

    fn negated_cond(&self, operand: Extent) -> Result<Extent, TextFault> {
        Ok(operand.add_node().deepen())
    }

    fn enclosed_cond(&self, inside: Extent) -> Extent {
        inside.deepen()
    }

    fn one_cond(&self, first: Extent) -> Result<Extent, TextFault> {
        Ok(first)
    }

    fn more_conds(&self, list: Extent, next: Extent) -> Result<Extent, TextFault> {
        Ok(list.link(next))
    }

    fn all(&self, list: Extent) -> Result<Extent, TextFault> {
        Ok(list)
    }

    fn any(&self, list: Extent) -> Result<Extent, TextFault> {
        Ok(list)
    }

    fn zero(&self) -> Extent {
        cut_extent(1, 1, 0)
    }

    fn one(&self) -> Extent {
        cut_extent(1, 1, 0)
    }

    fn named_term(&self, context: Context, at: usize, name: &str) -> Result<Extent, TextFault> {
        of_name(self.scope, context, at, self.scope.find(name))
    }

    fn negated_term(&self, operand: Extent) -> Result<Extent, TextFault> {
        Ok(operand.negated())
    }

    fn tested(&self, inside: Extent) -> Result<Extent, TextFault> {
        Ok(inside.tested())
    }

    fn enclosed_term(&self, inside: Extent) -> Extent {
        inside.deepen()
    }

    fn starred(&self, context: Context, at: usize, operand: Extent) -> Result<Extent, TextFault> {
        if context.negated {
            return Err(TextFault::Sort(at));
        }
        Ok(operand.add_node())
    }

    fn one_term(&self, first: Extent) -> Result<Extent, TextFault> {
        Ok(first)
    }

    fn more_terms(&self, list: Extent, next: Extent) -> Result<Extent, TextFault> {
        Ok(list.link(next))
    }

    fn sum(&self, list: Extent) -> Result<Extent, TextFault> {
        Ok(list)
    }

    fn product(&self, list: Extent) -> Result<Extent, TextFault> {
        Ok(list)
    }
}
