//! Stacks of forms with their sorts: the arguments of a function are one.
ghost use Rattle.std.specs.Prelude.{◌≡◌};
ghost use Rattle.flow_forms.specs.Forms.{form_tree};
ghost use Rattle.flow_forms.specs.Evaluation.{top_sort, top_form, below as below_top};

use super::FlowForm;
use flow_model::Sort;
use kat_model::Width;

/// The first form of a stack with its sort, and the stack below it.
#[derive(Drop)]
pub(crate) struct Top {
    pub(crate) sort: Sort,
    pub(crate) form: FlowForm,
    pub(crate) rest: FlowForm,
}

impl FlowForm {
    /// Takes the first form off a stack.
    pub(crate) fn popped(self) -> Top
        ensures sort { result.sort ≡ top_sort (form_tree self) }
        ensures form { form_tree result.form ≡ top_form (form_tree self) }
        ensures rest { form_tree result.rest ≡ below_top (form_tree self) }
    {
        match self {
            FlowForm::Argument(sort, form, rest) => Top {
                sort,
                form: Box::into_inner(form),
                rest: Box::into_inner(rest),
            },
            _ => Top {
                sort: Sort::Number(Width::W64),
                form: FlowForm::NoArguments,
                rest: FlowForm::NoArguments,
            },
        }
    }
}
