//! Meanings of names.

/// What a name denotes, by its number within its kind.
#[derive(Clone, Copy, PartialEq, Eq, PartialOrd, Ord)]
pub enum Meaning {
    /// A primitive test.
    Test(usize),
    /// A primitive action.
    Action(usize),
    /// A variable of the store.
    Var(usize),
    /// A defined term.
    Term(usize),
    /// A program.
    Prog(usize),
}
