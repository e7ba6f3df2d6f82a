//! What a name means.

/// What a name of a flow file means. Sorts, functions, variables and graphs are numbered in the order of their
/// declarations.
#[derive(Clone, Copy)]
pub enum Meaning {
    SortName(usize),
    Function(usize),
    Variable(usize),
    GraphName(usize),
}
