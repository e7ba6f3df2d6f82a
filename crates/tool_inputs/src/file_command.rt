//! Commands on the file that a text is read as. Their replies to the bytes of a text and to a file of the shelf follow
//! from the reply to what is read.
ghost use Rattle.std.specs.Prelude.{◌≡◌, ℕ, List, IfOk};
ghost use Rattle.while_lang.specs.Files.{FileParts};
ghost use Rattle.while_lang.specs.Ranges.{IsNumbered};
ghost use Rattle.abstraction.specs.Abstracts.{HasNumbersInRange};
ghost use Rattle.tool_inputs.specs.TextProblem.{IsRead};
ghost use Rattle.tool_inputs.specs.Steps.{shelf_use, ReadsText};
ghost use Rattle.tool_inputs.specs.FileReplies.{OfFile};
ghost use Rattle.tool_inputs.specs.ReplySpecs.{RepliesWith, KeepsFaultCount};

use crate::getting::file_text;
use crate::reply::{EarlyEnd, Reply, into_reply};
use crate::text_problem::file_of;
use kat_io::Shelf;
use kat_model::NoMemory;
use std::alloc::Global;
use while_lang::File;

/// A command on the file that a text is read as, with the words after its file. `steps` are its possible replies to
/// what is read, and `replies` those to the bytes of a text.
pub trait FileCommand {
    ghost steps: { Self → FileParts → ℕ → List ℕ → Type 0 };

    ghost replies: { Self → List ℕ → ℕ → List ℕ → Type 0 };

    /// Returns the reply to a file that was read. Its numbers are in range. The file is not used afterwards, so it may be
    /// changed.
    fn file_reply(&self, alloc: Global, file: &mut File) -> Result<Reply, EarlyEnd>
        requires read { IsRead file.old }
        requires numbered { IsNumbered file.old }
        requires in_range { HasNumbersInRange file.old }
        ensures { RepliesWith (steps self.now file.old) result };

    /// A text with a first fault is refused, and any other text is replied to as what it is read as.
    ghost is_reply: { (command : Self) (text : List ℕ) (status : ℕ) (output : List ℕ) → ReadsText text (steps command) status output → replies command text status output };
}

// Reads a text, and returns the reply.
fn text_reply<C: FileCommand>(alloc: Global, command: &C, text: &[u8]) -> Result<Reply, EarlyEnd>
    ensures { RepliesWith (C.replies command.now text.now) result }
{
    let mut file = file_of(alloc, text)?;
    command.file_reply(alloc, &mut file)
}

/// Returns the reply of a command to the bytes of a text. Fails only when out of memory.
pub fn reply_to_bytes<C: FileCommand>(
    alloc: Global,
    command: &C,
    text: &[u8],
) -> Result<Reply, NoMemory>
    ensures { IfOk result (λ r. C.replies command.now text.now r.status r.output.items) }
{
    into_reply(text_reply(alloc, command, text))
}

/// Replies to a file of the shelf as the command does to its bytes. If the file cannot be read, the error reply is
/// returned as an `EarlyEnd`. The content of the shelf is unchanged.
pub fn reply_to_file<C: FileCommand, S: Shelf>(
    alloc: Global,
    command: &C,
    file: &str,
    shelf: &mut S,
) -> Result<Reply, EarlyEnd>
    ensures replied { RepliesWith (OfFile (shelf_use (S.content shelf.old) (S.faults shelf.old) (S.faults shelf.new) (S.last_failed shelf.new)) file.now (C.replies command.now)) result }
    ensures counts { KeepsFaultCount (S.faults shelf.old) (S.faults shelf.new) result }
    ensures kept { (name : List ℕ) → S.content shelf.new name ≡ S.content shelf.old name }
{
    let text = file_text(alloc, file, shelf)?;
    Ok(reply_to_bytes(alloc, command, &text)?)
}
