//! Limits of comments.

/// The greatest number of nodes of an application that a comment writes with its arguments.
pub const MAX_SHOWN_NODES: u64 = 60;
