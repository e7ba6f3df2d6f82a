//! The limits of problems and of the texts that state them.

/// The maximum number of tests of a problem.
pub const MAX_TESTS: usize = 48;

/// The maximum number of actions of a problem.
pub const MAX_ACTIONS: usize = 48;

/// The maximum number of variables of a text.
pub const MAX_VARS: usize = 64;

/// The maximum number of rounds that a text may ask for.
pub const MAX_ROUNDS: u64 = 16;

/// The maximum number of goals of a text.
pub const MAX_GOALS: usize = 64;

/// The maximum number of nodes of a problem, hypotheses and sides together; in a text, also of an item and of a part of
/// a goal.
pub const MAX_TERM_NODES: u64 = 100_000;

/// The maximum number of nodes of an expression in a text.
pub const MAX_EXPR_NODES: u64 = 1_000;

/// The maximum number of nodes of a text, all items together.
pub const MAX_TEXT_NODES: u64 = 1_000_000;

/// The maximum number of hypotheses of a text.
pub const MAX_HYPS: usize = 8_192;

/// The maximum number of constructs that may be open at one place of a text.
pub const MAX_OPEN: usize = 200;

/// The maximum number of bytes of a text: 1 MiB.
pub const MAX_TEXT_BYTES: usize = 1_048_576;
