//! The contents of a text of GKAT.
use crate::gkat::Gkat;
use text_parser::Scope;

/// The contents of a text of GKAT: its names, the numbers of tests and actions that it declares, and the two
/// expressions to compare.
pub struct GkatFile {
    pub scope: Scope,
    pub tests: usize,
    pub actions: usize,
    pub left: Gkat,
    pub right: Gkat,
}

// Explicit, so that it is proved once and not at each end of each function that owns one.
impl Drop for GkatFile {
    fn drop(self) {
        let GkatFile {
            scope: _scope,
            tests: _,
            actions: _,
            left: _left,
            right: _right,
        } = self;
    }
}
