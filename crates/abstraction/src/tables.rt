//! The tables of an abstraction: the comparisons that are its tests, and the assignments that are its actions.
ghost use Rattle.std.specs.Prelude.{◌≡◌, option_map};

use kat_model::{TableRow, Width, place_of};
use linear_forms::{Atomic, Form, same_form};
use std::marker::Model;

/// An assignment of a form to a variable, by its number.
pub(crate) struct AssignedForm {
    pub var: usize,
    pub form: Form,
}

// Explicit, so that it is proved once and not at each end of each function that owns one.
impl Drop for AssignedForm {
    fn drop(self) {
        let AssignedForm {
            var: _,
            form: _form,
        } = self;
    }
}

impl Model for AssignedForm {
    ghost use Rattle.std.specs.Coded.{codes};
    ghost use Rattle.linear_forms.specs.Codes.{coded_form};
    ghost use Rattle.abstraction.specs.Comparisons.{Assignment};

    ghost Value = { Assignment };

    ghost coded = { Prim.hlevel (codes, coded_form) };

    ghost view = { λ a. record { var = a.var; form = a.form } };
}

impl AssignedForm {
    ghost use Rattle.abstraction.specs.Tables.{is_same_assignment};

    /// Returns the variable and the form.
    pub fn into_parts(self) -> (usize, Form)
        ensures { result ≡ (self.var, self.form) }
    {
        let AssignedForm { var, form } = self;
        (var, form)
    }

    /// Whether it assigns this form to this variable.
    pub fn assigns(&self, var: usize, form: &Form) -> bool
        ensures { result ≡ is_same_assignment self.now (record { var = var; form = form.now }) }
    {
        self.var == var && same_form(&self.form, form)
    }
}

impl TableRow for AssignedForm {
    ghost use Rattle.abstraction.specs.Tables.{is_same_assignment};

    ghost same = { is_same_assignment };

    fn is_same(&self, other: &AssignedForm) -> bool {
        self.assigns(other.var, &other.form)
    }
}

/// Tables with which conditions and programs are read.
pub(crate) trait Numbering {
    ghost use Rattle.abstraction.specs.Tables.{Tables};
    ghost use Rattle.abstraction.specs.Tests.{test_number, action_number};

    // The tables.
    ghost tables: { Self → Tables };

    /// Returns the width of numbers.
    fn width(&self) -> Width
        ensures { result ≡ (tables self.now).width };

    /// Returns the number of a comparison among the tests.
    fn test_number(&self, atomic: &Atomic) -> Option<usize>
        ensures { result ≡ test_number (tables self.now) atomic.now };

    /// Returns the number of an assignment among the actions.
    fn action_number(&self, assignment: &AssignedForm) -> Option<usize>
        ensures { result ≡ action_number (tables self.now) assignment.now };
}

/// The tables of an abstraction under construction: the numbers of declared tests and actions, and the comparisons and
/// the assignments that are the tests and actions after the declared ones.
#[derive(Drop)]
pub(crate) struct RowTables {
    pub tests: usize,
    pub actions: usize,
    pub comparisons: Vec<Atomic>,
    pub assignments: Vec<AssignedForm>,
    pub width: Width,
}

impl Model for RowTables {
    ghost use Rattle.std.specs.Prelude.{ℕ, ◌+◌, ◌^◌, ◌<◌, length};
    ghost use Rattle.std.specs.Coded.{codes};
    ghost use Rattle.linear_forms.specs.Codes.{coded_form};
    ghost use Rattle.abstraction.specs.Tables.{Tables};

    ghost Value = { Tables };

    ghost coded = { Prim.hlevel (codes, coded_form) };

    ghost view = { λ t. record {
      tests = t.tests;
      actions = t.actions;
      comparisons = t.comparisons.items;
      assignments = t.assignments.items;
      width = t.width;
    } };

    ghost invariant = { λ t. (t.tests + length t.comparisons.items < 2 ^ 64) × (t.actions + length t.assignments.items < 2 ^ 64) };
}

impl Numbering for RowTables {
    ghost tables = { λ t. t };

    fn width(&self) -> Width {
        self.width
    }

    fn test_number(&self, atomic: &Atomic) -> Option<usize> {
        match place_of(&self.comparisons, atomic) {
            Some(k) => Some(self.tests + k),
            None => None,
        }
    }

    fn action_number(&self, assignment: &AssignedForm) -> Option<usize> {
        match place_of(&self.assignments, assignment) {
            Some(k) => Some(self.actions + k),
            None => None,
        }
    }
}
