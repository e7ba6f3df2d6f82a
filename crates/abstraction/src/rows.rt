//! The meanings of the tests and actions of an abstraction.
use linear_forms::{Atomic, Form};

/// The meaning of an action.
pub enum ActionRow {
    /// A declared action, by its number in the file.
    Named(usize),
    /// The assignment of a form to a variable.
    Assign(usize, Form),
}

// Explicit, so that it is proved once and not at each end of each function that owns a row.
impl Drop for ActionRow {
    fn drop(self) {
        match self {
            ActionRow::Named(_) => {}
            ActionRow::Assign(_, _form) => {}
        }
    }
}

/// The meaning of a test.
pub enum TestRow {
    /// A declared test, by its number in the file.
    Named(usize),
    /// A comparison of forms.
    Compare(Atomic),
}

// Explicit, as for the meaning of an action.
impl Drop for TestRow {
    fn drop(self) {
        match self {
            TestRow::Named(_) => {}
            TestRow::Compare(_atomic) => {}
        }
    }
}
