//! Commands on the question of a text and a second file. Their replies to the bytes of two texts and to two files of the
//! shelf follow from the reply to a question and bytes.
ghost use Rattle.std.specs.Prelude.{◌≡◌, ℕ, List, length, Option, IfOk};
ghost use Rattle.kat_io.specs.Gets.{IsPast};
ghost use Rattle.tool_inputs.specs.Steps.{shelf_use, PosesFor};
ghost use Rattle.tool_inputs.specs.FileReplies.{OfTwoFiles};
ghost use Rattle.tool_inputs.specs.ReplySpecs.{RepliesWith, KeepsFaultCount};

use crate::getting::{file_bytes, file_text};
use crate::reply::{EarlyEnd, Reply, into_reply};
use crate::text_question::TextQuestion;
use kat_io::Shelf;
use kat_model::NoMemory;
use std::alloc::Global;

/// A command on the question that a text poses and the bytes of a second file. `steps` are its possible replies to a
/// question and bytes, and `replies` those to a text and bytes.
pub trait PairCommand {
    type Question: TextQuestion;

    ghost steps: { Self → Self.Question → List ℕ → ℕ → List ℕ → Type 0 };

    ghost replies: { Self → List ℕ → List ℕ → ℕ → List ℕ → Type 0 };

    ghost limit: { Self → Option ℕ };

    ghost long_line: { Self → List ℕ };

    /// Returns the maximum number of bytes of the second file, if there is one.
    fn limit(&self) -> Option<u64>
        ensures { result ≡ limit self.now };

    /// Returns the line for a longer second file.
    fn long_line(&self) -> &'static [u8]
        ensures { result.now ≡ long_line self.now };

    /// Returns the reply to the question of some text, and bytes.
    fn bytes_reply(
        &self,
        alloc: Global,
        question: &Self::Question,
        bytes: &[u8],
    ) -> Result<Reply, EarlyEnd>
        requires { (text : List ℕ) × Self.Question.poses text question.now }
        ensures { RepliesWith (steps self.now question.now bytes.now) result };

    /// More bytes than the limit are refused with their line.
    ghost refuses_long: { (command : Self) (q : Self.Question) (bytes : List ℕ) → IsPast (length bytes) (limit command) → steps command q bytes 2 (long_line command) };

    /// A text that poses no question is refused, and any other text is replied to as its question.
    ghost is_reply: { (command : Self) (text bytes : List ℕ) (status : ℕ) (output : List ℕ) → PosesFor (Self.Question.declines text) (Self.Question.poses text) (λ q. steps command q bytes) status output → replies command text bytes status output };
}

// Finds the question of a text, and returns the reply.
fn texts_reply<C: PairCommand>(
    alloc: Global,
    command: &C,
    text: &[u8],
    bytes: &[u8],
) -> Result<Reply, EarlyEnd>
    ensures { RepliesWith (C.replies command.now text.now bytes.now) result }
{
    let question = C::Question::of_text(alloc, text)?;
    command.bytes_reply(alloc, &question, bytes)
}

/// Returns the reply of a command to the bytes of a text and of a second file. Fails only when out of memory.
pub fn reply_to_pair<C: PairCommand>(
    alloc: Global,
    command: &C,
    text: &[u8],
    bytes: &[u8],
) -> Result<Reply, NoMemory>
    ensures { IfOk result (λ r. C.replies command.now text.now bytes.now r.status r.output.items) }
{
    into_reply(texts_reply(alloc, command, text, bytes))
}

/// Replies to two files of the shelf as the command does to their bytes. If one cannot be read or is refused, the reply
/// is returned as an `EarlyEnd`. The second file is read only after the text is accepted, so a refused text does not
/// need it. The content of the shelf is unchanged.
pub fn reply_to_files<C: PairCommand, S: Shelf>(
    alloc: Global,
    command: &C,
    file: &str,
    other: &str,
    shelf: &mut S,
) -> Result<Reply, EarlyEnd>
    ensures replied { RepliesWith (OfTwoFiles (shelf_use (S.content shelf.old) (S.faults shelf.old) (S.faults shelf.new) (S.last_failed shelf.new)) file.now other.now C.Question.accepts (C.replies command.now)) result }
    ensures counts { KeepsFaultCount (S.faults shelf.old) (S.faults shelf.new) result }
    ensures kept { (name : List ℕ) → S.content shelf.new name ≡ S.content shelf.old name }
{
    let text = file_text(alloc, file, shelf)?;
    let question = C::Question::of_text(alloc, &text)?;
    let bytes = file_bytes(alloc, other, shelf, command.limit(), command.long_line())?;
    command.bytes_reply(alloc, &question, &bytes)
}
