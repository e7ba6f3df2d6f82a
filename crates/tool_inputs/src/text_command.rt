//! Commands on one text. Their replies to the bytes of a text and to a file of the shelf follow from the reply to a text.
ghost use Rattle.std.specs.Prelude.{◌≡◌, ◌<◌, ℕ, List, length, IfOk};
ghost use Rattle.kat_model.specs.declared.limits.TheConstants.{MAX_TEXT_BYTES};
ghost use Rattle.kat_report.specs.InputLines.{too_long_line};
ghost use Rattle.tool_inputs.specs.Steps.{shelf_use};
ghost use Rattle.tool_inputs.specs.FileReplies.{OfFile};
ghost use Rattle.tool_inputs.specs.ReplySpecs.{RepliesWith, KeepsFaultCount};

use crate::getting::file_text;
use crate::reply::{EarlyEnd, Reply, into_reply};
use kat_io::Shelf;
use kat_model::NoMemory;
use std::alloc::Global;

/// A command on one text, with the words after its file. `replies` are its possible replies to the bytes of a text.
pub trait TextCommand {
    ghost replies: { Self → List ℕ → ℕ → List ℕ → Type 0 };

    /// Returns the reply to a text.
    fn text_reply(&self, alloc: Global, text: &[u8]) -> Result<Reply, EarlyEnd>
        ensures { RepliesWith (replies self.now text.now) result };

    /// A text that is too long is refused with its line.
    ghost refuses_long: { (command : Self) (text : List ℕ) → MAX_TEXT_BYTES < length text → replies command text 2 too_long_line };
}

/// Returns the reply of a command to the bytes of a text. Fails only when out of memory.
pub fn reply_to_text<C: TextCommand>(
    alloc: Global,
    command: &C,
    text: &[u8],
) -> Result<Reply, NoMemory>
    ensures { IfOk result (λ r. C.replies command.now text.now r.status r.output.items) }
{
    into_reply(command.text_reply(alloc, text))
}

/// Replies to a file of the shelf as the command does to its bytes. If the file cannot be read, the error reply is
/// returned as an `EarlyEnd`. The content of the shelf is unchanged.
pub fn reply_to_text_file<C: TextCommand, S: Shelf>(
    alloc: Global,
    command: &C,
    file: &str,
    shelf: &mut S,
) -> Result<Reply, EarlyEnd>
    ensures replied { RepliesWith (OfFile (shelf_use (S.content shelf.old) (S.faults shelf.old) (S.faults shelf.new) (S.last_failed shelf.new)) file.now (C.replies command.now)) result }
    ensures counts { KeepsFaultCount (S.faults shelf.old) (S.faults shelf.new) result }
    ensures kept { (name : List ℕ) → S.content shelf.new name ≡ S.content shelf.old name }
{
    let text = file_text(alloc, file, shelf)?;
    Ok(reply_to_text(alloc, command, &text)?)
}
