//! The result of a step on a list of statements.
use while_lang::Stmt;

/// The number of a step, and the list after it.
#[derive(Drop)]
pub(crate) struct Made {
    pub step: u8,
    pub list: Vec<Stmt>,
}
