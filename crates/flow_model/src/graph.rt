//! Graphs as programs hold them: expressions and conditions are in Polish notation, each node before its operands.

use crate::sort::Sort;
use kat_model::{Rel, Width};

/// A node of an expression.
#[derive(Clone, Copy)]
pub enum ExprNode {
    /// A number below 2 to the width.
    Number(Width, u64),
    /// A variable, by its number.
    Variable(usize),
    Plus(Width),
    Minus(Width),
    Times(Width),
    /// A conversion, signed or not, from a width to another.
    Converted(bool, Width, Width),
    /// A function, by its number, with the sort of its result and the number of its arguments.
    Applied(usize, Sort, usize),
}

/// A node of a condition. A comparison has both expressions.
pub enum CondNode {
    Always,
    Never,
    Compared(Rel, Vec<ExprNode>, Vec<ExprNode>),
    ComparedSigned(Rel, Width, Vec<ExprNode>, Vec<ExprNode>),
    Negation,
    Both,
    Either,
}

// Explicit, so that it is proved once and not at each end of each function that owns one.
impl Drop for CondNode {
    fn drop(self) {
        match self {
            CondNode::Always => {}
            CondNode::Never => {}
            CondNode::Compared(_, _vec_1, _vec_2) => {}
            CondNode::ComparedSigned(_, _, _vec_2, _vec_3) => {}
            CondNode::Negation => {}
            CondNode::Both => {}
            CondNode::Either => {}
        }
    }
}

/// A statement of a block.
pub enum Statement {
    /// The variables that are set at once, and their values.
    Assign(Vec<usize>, Vec<Vec<ExprNode>>),
    Claim(Vec<CondNode>),
}

// Explicit, so that it is proved once and not at each end of each function that owns one.
impl Drop for Statement {
    fn drop(self) {
        match self {
            Statement::Assign(_vec_0, _vec_1) => {}
            Statement::Claim(_vec) => {}
        }
    }
}

/// How a block ends. Blocks are numbered in the order of the graph.
pub enum Jump {
    Goto(usize),
    Branch(Vec<CondNode>, usize, usize),
    Return(Vec<Vec<ExprNode>>),
    Abort,
}

// Explicit, so that it is proved once and not at each end of each function that owns one.
impl Drop for Jump {
    fn drop(self) {
        match self {
            Jump::Goto(_) => {}
            Jump::Branch(_vec_0, _, _) => {}
            Jump::Return(_vec) => {}
            Jump::Abort => {}
        }
    }
}

/// A block, with its mark as a cut.
pub struct Block {
    pub is_cut: bool,
    pub statements: Vec<Statement>,
    pub jump: Jump,
}

// Explicit, so that it is proved once and not at each end of each function that owns one.
impl Drop for Block {
    fn drop(self) {
        let Block {
            is_cut: _,
            statements: _statements,
            jump: _jump,
        } = self;
    }
}
