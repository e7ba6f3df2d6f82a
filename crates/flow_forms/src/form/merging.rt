//! Merging of sums and of products, which are kept in order. Here forms are taken apart.
ghost use Rattle.std.specs.Prelude.{◌≡◌, IfOk};
ghost use Rattle.kat_model.specs.Stores.{modulus};
ghost use Rattle.flow_forms.specs.Forms.{term, one, factor, form_tree};
ghost use Rattle.flow_forms.specs.Arithmetic.{nonzero_term as term_unless_zero, plus_constant as with_constant, form_sum, multiple as form_multiple, joined as joined_products};

use super::FlowForm;
use crate::order::cmp_form;
use kat_model::{NoMemory, Width};
use std::alloc::Global;
use std::cmp::Ordering;

/// Returns a term before a sum, or only the sum if the coefficient is 0.
pub(crate) fn nonzero_term(
    alloc: Global,
    times: u64,
    product: FlowForm,
    rest: FlowForm,
) -> Result<FlowForm, NoMemory>
    ensures { IfOk result (λ f. form_tree f ≡ term_unless_zero times (form_tree product) (form_tree rest)) }
{
    if times == 0 {
        return Ok(rest);
    }
    FlowForm::new_term(alloc, times, product, rest)
}

/// Returns the product that is one cell.
pub(crate) fn one_cell(alloc: Global, cell: FlowForm) -> Result<FlowForm, NoMemory>
    ensures { IfOk result (λ f. form_tree f ≡ factor (form_tree cell) one) }
{
    FlowForm::new_factor(alloc, cell, FlowForm::One)
}

impl FlowForm {
    // Adds a number to a sum.
    fn plus_constant(self, alloc: Global, width: Width, number: u64) -> Result<FlowForm, NoMemory>
        ensures { IfOk result (λ f. form_tree f ≡ with_constant (modulus width) number (form_tree self)) }
    {
        match self {
            FlowForm::Constant(d) => Ok(FlowForm::Constant(width.add(number, d))),
            FlowForm::Term(t, product, rest) => {
                let rest = Box::into_inner(rest).plus_constant(alloc, width, number)?;
                FlowForm::new_term(alloc, t, Box::into_inner(product), rest)
            }
            cell => {
                let product = one_cell(alloc, cell)?;
                FlowForm::new_term(alloc, 1, product, FlowForm::Constant(width.residue(number)))
            }
        }
    }

    /// Returns the sum of two forms.
    #[cycle(sums)]
    pub(crate) fn plus(
        self,
        alloc: Global,
        width: Width,
        right: FlowForm,
    ) -> Result<FlowForm, NoMemory>
        ensures { IfOk result (λ f. form_tree f ≡ form_sum (modulus width) (form_tree self) (form_tree right)) }
    {
        match self {
            FlowForm::Constant(c) => right.plus_constant(alloc, width, c),
            FlowForm::Term(t, product, rest) => {
                let product = Box::into_inner(product);
                right.plus_term(alloc, width, t, product, Box::into_inner(rest))
            }
            cell => {
                let product = one_cell(alloc, cell)?;
                right.plus_term(alloc, width, 1, product, FlowForm::Constant(0))
            }
        }
    }

    // Returns the sum of a term before a sum, and this sum.
    #[cycle(sums)]
    fn plus_term(
        self,
        alloc: Global,
        width: Width,
        times: u64,
        product: FlowForm,
        rest: FlowForm,
    ) -> Result<FlowForm, NoMemory>
        ensures { IfOk result (λ f. form_tree f ≡ form_sum (modulus width) (term times (form_tree product) (form_tree rest)) (form_tree self)) }
    {
        match self {
            FlowForm::Term(u, other, others) => {
                let other = Box::into_inner(other);
                let others = Box::into_inner(others);
                match cmp_form(&product, &other) {
                    Ordering::Less => {
                        let right = FlowForm::new_term(alloc, u, other, others)?;
                        let rest = rest.plus(alloc, width, right)?;
                        FlowForm::new_term(alloc, times, product, rest)
                    }
                    Ordering::Equal => {
                        let rest = rest.plus(alloc, width, others)?;
                        nonzero_term(alloc, width.add(times, u), product, rest)
                    }
                    Ordering::Greater => {
                        let rest = others.plus_term(alloc, width, times, product, rest)?;
                        FlowForm::new_term(alloc, u, other, rest)
                    }
                }
            }
            other => {
                let rest = rest.plus(alloc, width, other)?;
                FlowForm::new_term(alloc, times, product, rest)
            }
        }
    }

    /// Returns the form multiplied by a number.
    pub(crate) fn times(
        self,
        alloc: Global,
        width: Width,
        number: u64,
    ) -> Result<FlowForm, NoMemory>
        ensures { IfOk result (λ f. form_tree f ≡ form_multiple (modulus width) number (form_tree self)) }
    {
        match self {
            FlowForm::Constant(c) => Ok(FlowForm::Constant(width.mul(number, c))),
            FlowForm::Term(t, product, rest) => {
                let rest = Box::into_inner(rest).times(alloc, width, number)?;
                nonzero_term(alloc, width.mul(number, t), Box::into_inner(product), rest)
            }
            cell => {
                let product = one_cell(alloc, cell)?;
                nonzero_term(alloc, width.residue(number), product, FlowForm::Constant(0))
            }
        }
    }

    /// Returns the product of two products.
    #[cycle(products)]
    pub(crate) fn joined(self, alloc: Global, right: FlowForm) -> Result<FlowForm, NoMemory>
        ensures { IfOk result (λ f. form_tree f ≡ joined_products (form_tree self) (form_tree right)) }
    {
        match self {
            FlowForm::One => Ok(right),
            FlowForm::Factor(cell, rest) => {
                right.joined_before(alloc, Box::into_inner(cell), Box::into_inner(rest))
            }
            cell => right.joined_before(alloc, cell, FlowForm::One),
        }
    }

    // Returns the product of a cell before a product, and this product.
    #[cycle(products)]
    fn joined_before(
        self,
        alloc: Global,
        cell: FlowForm,
        rest: FlowForm,
    ) -> Result<FlowForm, NoMemory>
        ensures { IfOk result (λ f. form_tree f ≡ joined_products (factor (form_tree cell) (form_tree rest)) (form_tree self)) }
    {
        match self {
            FlowForm::Factor(other, others) => {
                let other = Box::into_inner(other);
                let others = Box::into_inner(others);
                match cmp_form(&cell, &other) {
                    Ordering::Less | Ordering::Equal => {
                        let right = FlowForm::new_factor(alloc, other, others)?;
                        let rest = rest.joined(alloc, right)?;
                        FlowForm::new_factor(alloc, cell, rest)
                    }
                    Ordering::Greater => {
                        let rest = others.joined_before(alloc, cell, rest)?;
                        FlowForm::new_factor(alloc, other, rest)
                    }
                }
            }
            other => {
                let rest = rest.joined(alloc, other)?;
                FlowForm::new_factor(alloc, cell, rest)
            }
        }
    }
}
