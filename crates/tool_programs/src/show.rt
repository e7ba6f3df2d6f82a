//! `show`: replies to a text with the abstraction of its file, as a text.
ghost use Rattle.std.specs.Prelude.{IfOk};
ghost use Rattle.kat_model.specs.Problems.{IsProblem};
ghost use Rattle.text_parser.specs.ScopeParts.{IsWellFormed};
ghost use Rattle.tool_programs.specs.Show.{ShowsFile, ShowHeadline, ShowReply};

use abstraction::Abstract;
use kat_model::NoMemory;
use kat_report::show_text;
use std::alloc::Global;
use tool_inputs::{EarlyEnd, FileCommand, Reply, abstract_in, reply_to_bytes};
use while_lang::File;

// Shows that the names of a file are identifiers, and that the problem of an abstraction is within the limits of a
// problem.
fn know_limits(file: &File, shown: &Abstract)
    ensures well_formed { IsWellFormed file.now.scope }
    ensures problem { IsProblem shown.now.problem }
{
    let _ = file.scope.find("t0");
    let _ = shown.problem.left();
}

/// `show` FILE
#[derive(Clone, Copy)]
pub struct ShowCommand;

impl FileCommand for ShowCommand {
    ghost use Rattle.tool_programs.specs.Working.ShowReplies.{show_reply};

    ghost steps = { λ _. ShowsFile };

    ghost replies = { λ _. ShowReply };

    fn file_reply(&self, alloc: Global, file: &mut File) -> Result<Reply, EarlyEnd> {
        let shown = abstract_in(alloc, file)?;
        know_limits(file, &shown);
        Ok(Reply {
            status: 0,
            output: show_text(alloc, file, &shown)?,
        })
    }

    ghost is_reply = { λ _. show_reply };
}

/// Returns the reply of `show` to the bytes of a text. The status is 0 exactly when the text is read and its file has
/// an abstraction, with the text of the abstraction. If the text of the abstraction is within the limits of a text, it
/// asks exactly the question that the text asks. Otherwise it is 2, with the line that gives the reason. Fails only when
/// out of memory.
pub fn show_bytes(alloc: Global, text: &[u8]) -> Result<Reply, NoMemory>
    ensures headline { IfOk result (λ r. ShowHeadline text.now r.status r.output.items) }
    ensures reply { IfOk result (λ r. ShowReply text.now r.status r.output.items) }
{
    let reply = reply_to_bytes(alloc, &ShowCommand, text)?;
    Ok(reply)
}
