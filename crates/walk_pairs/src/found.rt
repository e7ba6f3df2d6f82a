//! What a walk finds at a listed pair.
use partial_derivs::Steps;

/// The steps of both sets of a pair.
pub struct BothSteps {
    pub left: Steps,
    pub right: Steps,
}

// Explicit, so that it is proved once and not at each end of each function that owns one.
impl Drop for BothSteps {
    fn drop(self) {
        let BothSteps {
            left: _left,
            right: _right,
        } = self;
    }
}

/// An atom that exactly one of the sets of the listed pair at `place` accepts.
#[derive(Drop)]
pub struct Difference {
    pub place: usize,
    pub atom: Vec<bool>,
}
