//! The ways that are found.
ghost use Rattle.std.specs.Prelude.{◌≤◌};

use crate::way::Way;

/// The ways that are found, and their number with those that abort.
#[derive(Drop)]
pub(crate) struct Found {
    pub(crate) ways: Vec<Way>,
    pub(crate) count: u64,
    ghost few: { count ≤ 1000 },
}
