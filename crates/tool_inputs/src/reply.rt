//! Replies: a status and the output.
ghost use Rattle.std.specs.Prelude.{◌≡◌, IfOk};
ghost use Rattle.kat_report.specs.InputLines.{words_line};
ghost use Rattle.tool_inputs.specs.declared.reply.EarlyEnd.TheVariants.{NoMemory as NoRoom};
ghost use Rattle.tool_inputs.specs.Steps.{IsRefusal};
ghost use Rattle.tool_inputs.specs.ReplySpecs.{EndsWith, settled};

use kat_model::NoMemory;
use kat_report::words_line;
use std::alloc::{AllocError, Global};

/// The reply of a command.
#[derive(Drop)]
pub struct Reply {
    /// The exit status.
    pub status: u8,
    /// The bytes that are printed.
    pub output: Vec<u8>,
}

/// Why a command ends early.
#[derive(Drop)]
pub enum EarlyEnd {
    /// Memory ran out.
    NoMemory,
    /// The final reply.
    Replied(Reply),
}

impl From<NoMemory> for EarlyEnd {
    ghost from_gives = { λ _ stop. stop ≡ NoRoom };

    fn from(_: NoMemory) -> Self {
        EarlyEnd::NoMemory
    }
}

impl From<AllocError> for EarlyEnd {
    ghost from_gives = { λ _ stop. stop ≡ NoRoom };

    fn from(_: AllocError) -> Self {
        EarlyEnd::NoMemory
    }
}

/// Returns the reply of a command, whether or not it ended early. Fails only when out of memory.
pub fn into_reply(ended: Result<Reply, EarlyEnd>) -> Result<Reply, NoMemory>
    ensures { result ≡ settled ended }
{
    match ended {
        Ok(reply) => Ok(reply),
        Err(EarlyEnd::Replied(reply)) => Ok(reply),
        Err(EarlyEnd::NoMemory) => Err(NoMemory),
    }
}

/// Returns a reply with this status and this text. Fails only when out of memory.
pub fn line(alloc: Global, status: u8, text: &[u8]) -> Result<Reply, NoMemory>
    ensures { IfOk result (λ r. (r.status ≡ status) × (r.output.items ≡ text.now)) }
{
    Ok(Reply {
        status,
        output: text.to_vec(alloc)?,
    })
}

/// Returns the refusal with this text, whose status is 2.
pub fn refusal(alloc: Global, text: &[u8]) -> EarlyEnd
    ensures { EndsWith (IsRefusal (λ l. l ≡ text.now)) result }
{
    match line(alloc, 2, text) {
        Ok(reply) => EarlyEnd::Replied(reply),
        Err(NoMemory) => EarlyEnd::NoMemory,
    }
}

/// Returns the refusal of words that do not fit a file, whose status is 7.
pub fn unfit_end(alloc: Global) -> EarlyEnd
    ensures { EndsWith (λ status output. (status ≡ 7) × (output ≡ words_line)) result }
{
    match line(alloc, 7, words_line()) {
        Ok(reply) => EarlyEnd::Replied(reply),
        Err(NoMemory) => EarlyEnd::NoMemory,
    }
}
