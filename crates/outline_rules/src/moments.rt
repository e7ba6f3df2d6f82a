//! The two moments of a step.

/// Before a step or after it.
#[derive(Clone, Copy)]
pub enum Moment {
    Before,
    After,
}
