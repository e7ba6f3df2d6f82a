//! Reading files from the shelf.
ghost use Rattle.std.specs.Prelude.{◌≡◌, ℕ, List, length, Some, IfOk};
ghost use Rattle.kat_io.specs.Gets.{IsWithin};
ghost use Rattle.kat_model.specs.declared.limits.TheConstants.{MAX_TEXT_BYTES};
ghost use Rattle.tool_inputs.specs.Contents.{MayContain};
ghost use Rattle.kat_report.specs.InputLines.{unread_line, too_long_line};
ghost use Rattle.tool_inputs.specs.Steps.{shelf_use};
ghost use Rattle.tool_inputs.specs.FileReplies.{OfFile, IsTooLong};
ghost use Rattle.tool_inputs.specs.ReplySpecs.{EndsWith, Yields, KeepsFaultCount};

use crate::reply::{EarlyEnd, Reply, refusal};
use kat_io::{GetFault, Shelf};
use kat_model::{MAX_TEXT_BYTES, NoMemory};
use kat_report::{too_long_line, unread_line};
use std::alloc::Global;

fn unread_end(alloc: Global, file: &str) -> EarlyEnd
    ensures { EndsWith (λ status output. (status ≡ 4) × (output ≡ unread_line file.now)) result }
{
    match unread_line(alloc, file) {
        Ok(output) => EarlyEnd::Replied(Reply { status: 4, output }),
        Err(NoMemory) => EarlyEnd::NoMemory,
    }
}

/// Returns the bytes of the file, at most `limit`. A longer file is refused with the line `too_long`. If the shelf
/// fails on the file, the reply has status 4 and names the file. The content of the shelf is unchanged.
pub fn file_bytes<S: Shelf>(
    alloc: Global,
    file: &str,
    shelf: &mut S,
    limit: Option<u64>,
    too_long: &[u8],
) -> Result<Vec<u8>, EarlyEnd>
    ensures got { Yields (λ v. MayContain (S.content shelf.old file.now) v.items)
        (OfFile (shelf_use (S.content shelf.old) (S.faults shelf.old) (S.faults shelf.new) (S.last_failed shelf.new)) file.now (IsTooLong limit too_long.now)) result }
    ensures within { IfOk result (λ v. IsWithin (length v.items) limit) }
    ensures counts { KeepsFaultCount (S.faults shelf.old) (S.faults shelf.new) result }
    ensures kept { (name : List ℕ) → S.content shelf.new name ≡ S.content shelf.old name }
{
    match shelf.get(alloc, file, limit) {
        Ok(bytes) => Ok(bytes),
        Err(GetFault::TooLong) => Err(refusal(alloc, too_long)),
        Err(GetFault::Failed) => Err(unread_end(alloc, file)),
        Err(GetFault::NoMemory) => Err(EarlyEnd::NoMemory),
    }
}

/// Returns the text of a problem file, at most `MAX_TEXT_BYTES` bytes. Otherwise as `file_bytes`.
pub fn file_text<S: Shelf>(alloc: Global, file: &str, shelf: &mut S) -> Result<Vec<u8>, EarlyEnd>
    ensures got { Yields (λ v. MayContain (S.content shelf.old file.now) v.items)
        (OfFile (shelf_use (S.content shelf.old) (S.faults shelf.old) (S.faults shelf.new) (S.last_failed shelf.new)) file.now (IsTooLong (Some MAX_TEXT_BYTES) too_long_line)) result }
    ensures within { IfOk result (λ v. IsWithin (length v.items) (Some MAX_TEXT_BYTES)) }
    ensures counts { KeepsFaultCount (S.faults shelf.old) (S.faults shelf.new) result }
    ensures kept { (name : List ℕ) → S.content shelf.new name ≡ S.content shelf.old name }
{
    file_bytes(
        alloc,
        file,
        shelf,
        Some(MAX_TEXT_BYTES as u64),
        too_long_line(),
    )
}
