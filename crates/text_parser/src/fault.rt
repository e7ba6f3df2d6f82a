//! Faults of texts.
ghost use Rattle.std.specs.Prelude.{◌≡◌};
ghost use Rattle.text_parser.specs.declared.fault.TextFault.TheVariants as fault;

use kat_model::NoMemory;
use std::alloc::AllocFailed;

/// Why a reader rejects a text. A number is a place: the offset of the cause in bytes.
#[derive(Clone, Copy, Debug, PartialEq, Eq)]
pub enum TextFault {
    /// Out of memory.
    NoMemory,
    /// The text has more than [`crate::MAX_LEN`] bytes.
    TooLong,
    /// The bytes are not UTF-8. The place is the length of the longest prefix that is UTF-8.
    NotUtf8(usize),
    /// The place is the first where no token begins.
    BadToken(usize),
    /// The token at the place is not allowed there. At the end of the text the place is the text's length.
    Syntax(usize),
    /// More than `MAX_OPEN` levels of nesting are open at the token at the place.
    TooDeep(usize),
    /// The number at the place does not fit: it is 2^64 or more, or 2^w or more in an item of width w.
    NumberTooWide(usize),
    /// The name at the place is not declared before it.
    UnknownName(usize),
    /// The name or item at the place repeats an earlier one.
    DoubleName(usize),
    /// The token at the place denotes something of a sort that is not allowed there.
    Sort(usize),
    /// The item or phrase at the place has too many nodes.
    TooLarge(usize),
    /// The name, item or number at the place exceeds a limit of the format.
    TooMany(usize),
    /// No item of the text is a goal.
    NoGoal,
    /// The goal at the place is the second one.
    TwoGoals(usize),
}

impl From<NoMemory> for TextFault {
    ghost from_gives = { λ _ e. e ≡ fault.NoMemory };

    fn from(_: NoMemory) -> Self {
        TextFault::NoMemory
    }
}

impl<T: Drop> From<AllocFailed<T>> for TextFault {
    ghost from_gives = { λ _ e. e ≡ fault.NoMemory };

    fn from(_: AllocFailed<T>) -> Self {
        TextFault::NoMemory
    }
}
