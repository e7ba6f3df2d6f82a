//! Comparisons of forms.
ghost use Rattle.std.specs.Prelude.{◌≡◌, ◌↔◌, IfOk, IsTrue};
ghost use Rattle.flow_forms.specs.Forms.{form_tree};
ghost use Rattle.flow_forms.specs.Comparisons.{comparison_tree, literal_tree, opposite as opposite_literal};

use crate::form::{FlowForm, copy_both};
use crate::order::{bits, same_form};
use kat_model::{NoMemory, TableRow, Width};
use std::alloc::Global;

/// A comparison: that a form of a width is 0, that the first form of a width is less than the second as unsigned
/// numbers, or that two opaque values are the same.
pub enum FlowComparison {
    Zero(Width, FlowForm),
    Less(Width, FlowForm, FlowForm),
    Same(FlowForm, FlowForm),
}

// Explicit, so that it is proved once and not at each end of each function that owns a comparison.
impl Drop for FlowComparison {
    fn drop(self) {
        match self {
            FlowComparison::Zero(_width, _form) => {}
            FlowComparison::Less(_width, _left, _right) => {}
            FlowComparison::Same(_left, _right) => {}
        }
    }
}

/// The normal form of a condition that compares two values: a truth value, a comparison, or the negation of a
/// comparison.
#[derive(Drop)]
pub enum FlowLiteral {
    Decided(bool),
    Holds(FlowComparison),
    Fails(FlowComparison),
}

impl FlowComparison {
    /// Returns a copy of the comparison. Fails only when out of memory.
    pub fn copy(&self, alloc: Global) -> Result<FlowComparison, NoMemory>
        ensures { IfOk result (λ c. comparison_tree c ≡ comparison_tree self.now) }
    {
        match self {
            FlowComparison::Zero(width, f) => Ok(FlowComparison::Zero(*width, f.copy(alloc)?)),
            FlowComparison::Less(width, f, g) => {
                let (left, right) = copy_both(alloc, f, g)?;
                Ok(FlowComparison::Less(*width, left, right))
            }
            FlowComparison::Same(f, g) => {
                let (left, right) = copy_both(alloc, f, g)?;
                Ok(FlowComparison::Same(left, right))
            }
        }
    }
}

fn same_width(left: Width, right: Width) -> bool
    ensures { IsTrue result ↔ (left ≡ right) }
{
    bits(left) == bits(right)
}

/// Returns whether two comparisons are the same tree. Takes no memory.
pub fn same_comparison(left: &FlowComparison, right: &FlowComparison) -> bool
    ensures { IsTrue result ↔ (comparison_tree left.now ≡ comparison_tree right.now) }
{
    match (left, right) {
        (FlowComparison::Zero(v, d), FlowComparison::Zero(w, f)) => {
            same_width(*v, *w) && same_form(d, f)
        }
        (FlowComparison::Less(v, d, e), FlowComparison::Less(w, f, g)) => {
            same_width(*v, *w) && same_form(d, f) && same_form(e, g)
        }
        (FlowComparison::Same(d, e), FlowComparison::Same(f, g)) => {
            same_form(d, f) && same_form(e, g)
        }
        _ => false,
    }
}

impl TableRow for FlowComparison {
    ghost use Rattle.flow_forms.specs.Comparisons.{comparison_tree, is_same_comparison};

    ghost same = { λ c d. is_same_comparison (comparison_tree c) (comparison_tree d) };

    fn is_same(&self, other: &FlowComparison) -> bool {
        same_comparison(self, other)
    }
}

/// Returns the opposite condition.
pub fn opposite(literal: FlowLiteral) -> FlowLiteral
    ensures { literal_tree result ≡ opposite_literal (literal_tree literal) }
{
    match literal {
        FlowLiteral::Decided(holds) => FlowLiteral::Decided(!holds),
        FlowLiteral::Holds(comparison) => FlowLiteral::Fails(comparison),
        FlowLiteral::Fails(comparison) => FlowLiteral::Holds(comparison),
    }
}
