//! Measured phrases of an item.

// The measure of a phrase, and the index at which the phrase begins.
#[derive(Clone, Copy)]
pub(crate) struct Measured<M> {
    pub(crate) measure: M,
    pub(crate) from: usize,
}

// The sides of a goal.
#[derive(Clone, Copy)]
pub(crate) struct MeasuredSides<M> {
    pub(crate) left: Measured<M>,
    pub(crate) right: Measured<M>,
}

// The phrases of a triple.
#[derive(Clone, Copy)]
pub(crate) struct MeasuredTriple<M> {
    pub(crate) pre: Measured<M>,
    pub(crate) body: Measured<M>,
    pub(crate) post: Measured<M>,
}
