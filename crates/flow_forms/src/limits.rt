//! Limits of forms.

/// The greatest number of nodes of a form.
pub const MAX_FORM_NODES: u64 = 1000;

/// The greatest number of parts of sums that are written to multiply out a product or to give a form fewer bits.
pub const MAX_FORM_PARTS: u64 = 4096;
