//! A task of an outline.
use kat_model::Test;
use while_lang::Flows;

/// The Hoare triple of a program (partial correctness): from the atoms at which `pre` is true, `flow` leads only to
/// atoms at which `post` is true.
pub struct Task {
    pub pre: Test,
    pub flow: Flows,
    pub post: Test,
}

// Explicit, so that it is proved once and not at each end of each function that owns one.
impl Drop for Task {
    fn drop(self) {
        let Task {
            pre: _pre,
            flow: _flow,
            post: _post,
        } = self;
    }
}
