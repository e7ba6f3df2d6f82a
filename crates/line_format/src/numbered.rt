//! Reads the lines of a text of numbered lines.
ghost use Rattle.std.specs.Prelude.{◌≡◌, ◌+◌, ◌<◌, ◌^◌, ℕ, List, Option, Some, Result, Err, length};
ghost use Rattle.line_format.specs.Lines.{parts_of};
ghost use Rattle.line_format.specs.NumberedLines.{LineFormat, lines_from, Answers, AddsTo};

use crate::lines::first_line;
use std::alloc::Global;

/// The lines so far of a text of numbered lines.
///
/// `format` is the format of the lines, `parts` the lines that a value holds, and `Keeps` the rules that it keeps. A
/// fault `f` states P by `unless f P`, or nothing if memory ran out.
pub trait LineDraft: Drop {
    type Value: Drop;

    type Fault: Drop;

    ghost L: { Type 0 };

    ghost D: { Type 0 };

    ghost format: { LineFormat L D Self.Value Self.Fault };

    ghost unless: { Self.Fault → Type 0 → Type 0 };

    ghost parts: { Self → D };

    ghost Keeps: { Self → Type 0 };

    /// Adds the content of line `number`. After a fault the value must not be used.
    fn add(&mut self, alloc: Global, line: &[u8], number: u64) -> Result<(), Self::Fault>
        requires { Keeps self.old }
        ensures { AddsTo format unless Keeps parts self.old number ((format).read line.now) self.new result };

    /// Returns what the lines spell.
    fn finish(self) -> Self::Value
        requires { Keeps self }
        ensures { result ≡ (format).value (parts self) };

    /// Returns the fault of a text that ends too early.
    fn truncated() -> Self::Fault
        ensures { result ≡ (format).faults.truncated };

    /// Returns the fault of a text that continues after the line `end`, in line `number`.
    fn trailing(number: u64) -> Self::Fault
        ensures { result ≡ (format).faults.trailing number };

    ghost is_given: { (fault : Self.Fault) (given : Result Self.Value Self.Fault) → given ≡ Err fault → unless fault (given ≡ Err fault) };

    ghost is_passed_on: { (fault : Self.Fault) (o : Option Self.Fault) (given : Result Self.Value Self.Fault) → unless fault (o ≡ Some fault) → (o ≡ Some fault → given ≡ Err fault) → unless fault (given ≡ Err fault) };
}

/// Reads lines from line `first` on, after those of `draft`, up to the line `end`, after which the text must end.
pub fn read_lines<T: LineDraft>(
    alloc: Global,
    draft: T,
    first: u64,
    bytes: &[u8],
) -> Result<T::Value, T::Fault>
    requires draft { T.Keeps draft }
    requires count { first + length bytes.now + 2 < 2 ^ 64 }
    ensures { Answers T.unless (lines_from T.format (T.parts draft) first (parts_of bytes.now)) result }
{
    let mut draft = draft;
    let mut number = first;
    let mut rest = bytes;
    loop {
        let Some((line, after)) = first_line(rest) else {
            return Err(T::truncated());
        };
        if line == b"end".as_slice() {
            let value = draft.finish();
            if after.is_empty() {
                return Ok(value);
            }
            return Err(T::trailing(number + 1));
        }
        match draft.add(alloc, line, number) {
            Ok(()) => {}
            Err(fault) => return Err(fault),
        }
        number += 1;
        rest = after;
    }
}
