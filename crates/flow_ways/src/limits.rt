//! Limits of ways.

/// The greatest number of ways from one place to all next ones, those that abort included.
pub const MAX_WAYS: u64 = 1000;
