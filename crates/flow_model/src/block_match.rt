//! Matches of blocks of two graphs, as programs hold them.

use crate::graph::{CondNode, ExprNode};

/// A variable, by its number, and an expression for its value.
pub struct Equation {
    pub variable: usize,
    pub expression: Vec<ExprNode>,
}

// Explicit, so that it is proved once and not at each end of each function that owns one.
impl Drop for Equation {
    fn drop(self) {
        let Equation {
            variable: _,
            expression: _expression,
        } = self;
    }
}

/// A match of a block of each graph, by their numbers. States there are related by equations of three kinds: `forth`
/// gives variables of the second graph over the state of the first, `back` variables of the first over the state of the
/// second, and `keeping` variables of the first over its own state, which also satisfies the condition.
pub struct BlockMatch {
    pub before: usize,
    pub after: usize,
    pub forth: Vec<Equation>,
    pub back: Vec<Equation>,
    pub keeping: Vec<Equation>,
    pub condition: Vec<CondNode>,
}

// Explicit, so that it is proved once and not at each end of each function that owns one.
impl Drop for BlockMatch {
    fn drop(self) {
        let BlockMatch {
            before: _,
            after: _,
            forth: _forth,
            back: _back,
            keeping: _keeping,
            condition: _condition,
        } = self;
    }
}
