//! Limits of the format.

/// The most sorts that a text may declare.
pub const MAX_SORTS: usize = 64;
/// The most functions.
pub const MAX_FUNCTIONS: usize = 256;
/// The most parameters of a function.
pub const MAX_PARAMETERS: usize = 16;
/// The most variables.
pub const MAX_VARIABLES: usize = 256;
/// The most matches, with that of the entries.
pub const MAX_MATCHES: usize = 4096;
/// The most blocks of a graph.
pub const MAX_BLOCKS: usize = 1000;
