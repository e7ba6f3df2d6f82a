//! Forms, their copies and their sizes.
ghost use Rattle.std.specs.Prelude.{◌≡◌, IfOk};
ghost use Rattle.kat_model.specs.Problems.{counted};
ghost use Rattle.flow_forms.specs.Forms.{term, factor, applied, converted, argument, form_tree, cell_form, form_nodes};

pub(crate) mod merging;
pub(crate) mod stack;

use flow_model::Sort;
use kat_model::{NoMemory, Width};
use std::alloc::Global;

/// A node of a form. The form of a number is a sum of terms and a constant: `Constant`, or `Term` before a sum. A term
/// is a coefficient and a product of cells: `One`, or `Factor` before a product. A cell is a variable, an application
/// of a function, or a conversion. The form of an opaque value is a cell.
///
/// The operations of this crate put the products of a sum and the cells of a product in ascending order, and leave out
/// terms whose coefficient becomes 0. That a value has only one form is not proved.
pub enum FlowForm {
    /// A number: the end of a sum.
    Constant(u64),
    /// A coefficient, its product, and the rest of the sum.
    Term(u64, Box<FlowForm>, Box<FlowForm>),
    /// The end of a product.
    One,
    /// A cell and the rest of the product.
    Factor(Box<FlowForm>, Box<FlowForm>),
    /// A variable, by its number.
    Variable(usize),
    /// A function, by its number, the sort of its result, and its arguments.
    Applied(usize, Sort, Box<FlowForm>),
    /// A conversion, signed or not, from a width to another, of a form.
    Converted(bool, Width, Width, Box<FlowForm>),
    /// The end of the arguments of a function.
    NoArguments,
    /// An argument's sort and form, and the rest of the arguments.
    Argument(Sort, Box<FlowForm>, Box<FlowForm>),
}

// Explicit, so that it is proved once and not at each end of each function that owns a form.
impl Drop for FlowForm {
    fn drop(self) {
        match self {
            FlowForm::Constant(_number) => {}
            FlowForm::Term(_times, _product, _rest) => {}
            FlowForm::One => {}
            FlowForm::Factor(_cell, _rest) => {}
            FlowForm::Variable(_number) => {}
            FlowForm::Applied(_function, _sort, _arguments) => {}
            FlowForm::Converted(_signed, _from, _to, _form) => {}
            FlowForm::NoArguments => {}
            FlowForm::Argument(_sort, _form, _rest) => {}
        }
    }
}

// Moves both forms to boxes. If there is no memory for the second box, the first is dropped.
fn boxed_pair(
    alloc: Global,
    left: FlowForm,
    right: FlowForm,
) -> Result<(Box<FlowForm>, Box<FlowForm>), NoMemory>
    ensures { IfOk result (λ both. (form_tree both.0.value ≡ form_tree left) × (form_tree both.1.value ≡ form_tree right)) }
{
    let left = Box::new(alloc, left)?;
    let right = Box::new(alloc, right)?;
    Ok((left, right))
}

/// Returns copies of both forms. Fails only when out of memory.
pub(crate) fn copy_both(
    alloc: Global,
    left: &FlowForm,
    right: &FlowForm,
) -> Result<(FlowForm, FlowForm), NoMemory>
    ensures { IfOk result (λ both. (form_tree both.0 ≡ form_tree left.now) × (form_tree both.1 ≡ form_tree right.now)) }
{
    let left = left.copy(alloc)?;
    let right = right.copy(alloc)?;
    Ok((left, right))
}

impl FlowForm {
    /// Returns `Term` over a product and a sum. Fails only when out of memory; the parts are dropped then.
    pub fn new_term(
        alloc: Global,
        coefficient: u64,
        product: FlowForm,
        rest: FlowForm,
    ) -> Result<Self, NoMemory>
        ensures { IfOk result (λ f. form_tree f ≡ term coefficient (form_tree product) (form_tree rest)) }
    {
        let (product, rest) = boxed_pair(alloc, product, rest)?;
        Ok(FlowForm::Term(coefficient, product, rest))
    }

    /// Returns `Factor` over a cell and a product. Fails only when out of memory; the parts are dropped then.
    pub fn new_factor(alloc: Global, cell: FlowForm, rest: FlowForm) -> Result<Self, NoMemory>
        ensures { IfOk result (λ f. form_tree f ≡ factor (form_tree cell) (form_tree rest)) }
    {
        let (cell, rest) = boxed_pair(alloc, cell, rest)?;
        Ok(FlowForm::Factor(cell, rest))
    }

    /// Returns `Applied` over arguments. Fails only when out of memory; the arguments are dropped then.
    pub fn new_applied(
        alloc: Global,
        function: usize,
        sort: Sort,
        arguments: FlowForm,
    ) -> Result<Self, NoMemory>
        ensures { IfOk result (λ f. form_tree f ≡ applied function sort (form_tree arguments)) }
    {
        Ok(FlowForm::Applied(function, sort, Box::new(alloc, arguments)?))
    }

    /// Returns `Converted` over a form. Fails only when out of memory; the form is dropped then.
    pub fn new_converted(
        alloc: Global,
        signed: bool,
        from: Width,
        to: Width,
        form: FlowForm,
    ) -> Result<Self, NoMemory>
        ensures { IfOk result (λ f. form_tree f ≡ converted signed from to (form_tree form)) }
    {
        Ok(FlowForm::Converted(signed, from, to, Box::new(alloc, form)?))
    }

    /// Returns `Argument` over a form and arguments. Fails only when out of memory; the parts are dropped then.
    pub fn new_argument(
        alloc: Global,
        sort: Sort,
        form: FlowForm,
        rest: FlowForm,
    ) -> Result<Self, NoMemory>
        ensures { IfOk result (λ f. form_tree f ≡ argument sort (form_tree form) (form_tree rest)) }
    {
        let (form, rest) = boxed_pair(alloc, form, rest)?;
        Ok(FlowForm::Argument(sort, form, rest))
    }

    /// Returns the sum that is one cell. Fails only when out of memory; the cell is dropped then.
    pub fn of_cell(alloc: Global, cell: FlowForm) -> Result<Self, NoMemory>
        ensures { IfOk result (λ f. form_tree f ≡ cell_form (form_tree cell)) }
    {
        let product = FlowForm::new_factor(alloc, cell, FlowForm::One)?;
        FlowForm::new_term(alloc, 1, product, FlowForm::Constant(0))
    }

    /// Returns a copy of the tree. Fails only when out of memory.
    #[cycle(copies)]
    pub fn copy(&self, alloc: Global) -> Result<FlowForm, NoMemory>
        ensures { IfOk result (λ f. form_tree f ≡ form_tree self.now) }
    {
        match self {
            FlowForm::Constant(c) => Ok(FlowForm::Constant(*c)),
            FlowForm::Term(t, product, rest) => {
                let (product, rest) = FlowForm::boxed_copies(alloc, product, rest)?;
                Ok(FlowForm::Term(*t, product, rest))
            }
            FlowForm::One => Ok(FlowForm::One),
            FlowForm::Factor(cell, rest) => {
                let (cell, rest) = FlowForm::boxed_copies(alloc, cell, rest)?;
                Ok(FlowForm::Factor(cell, rest))
            }
            FlowForm::Variable(k) => Ok(FlowForm::Variable(*k)),
            FlowForm::Applied(f, sort, arguments) => {
                let arguments = arguments.copy(alloc)?;
                FlowForm::new_applied(alloc, *f, *sort, arguments)
            }
            FlowForm::Converted(signed, from, to, form) => {
                let form = form.copy(alloc)?;
                FlowForm::new_converted(alloc, *signed, *from, *to, form)
            }
            FlowForm::NoArguments => Ok(FlowForm::NoArguments),
            FlowForm::Argument(sort, form, rest) => {
                let (form, rest) = FlowForm::boxed_copies(alloc, form, rest)?;
                Ok(FlowForm::Argument(*sort, form, rest))
            }
        }
    }

    // Returns copies of both forms, each in its own box.
    #[cycle(copies)]
    fn boxed_copies(
        alloc: Global,
        left: &FlowForm,
        right: &FlowForm,
    ) -> Result<(Box<FlowForm>, Box<FlowForm>), NoMemory>
        ensures { IfOk result (λ both. (form_tree both.0.value ≡ form_tree left.now) × (form_tree both.1.value ≡ form_tree right.now)) }
    {
        let left = left.copy(alloc)?;
        let right = right.copy(alloc)?;
        boxed_pair(alloc, left, right)
    }

    /// Returns the number of nodes of a form, saturated at `u64::MAX`: one for each constant and each cell, those in
    /// cells included.
    pub fn size(&self) -> u64
        ensures { result ≡ counted (form_nodes (form_tree self.now)) }
    {
        match self {
            FlowForm::Constant(_) | FlowForm::Variable(_) => 1,
            FlowForm::One | FlowForm::NoArguments => 0,
            FlowForm::Term(_, part, rest) => part.size().saturating_add(rest.size()),
            FlowForm::Factor(part, rest) => part.size().saturating_add(rest.size()),
            FlowForm::Argument(_, part, rest) => part.size().saturating_add(rest.size()),
            FlowForm::Applied(_, _, arguments) => arguments.size().saturating_add(1),
            FlowForm::Converted(_, _, _, form) => form.size().saturating_add(1),
        }
    }
}
