//! `optimise`: replies to a text and the name of a program with the log of the optimiser and the resulting program.
ghost use Rattle.std.specs.Prelude.{IfOk};
ghost use Rattle.while_lang.specs.Files.{FileParts};
ghost use Rattle.problem_file.specs.Reads.{Reads};
ghost use Rattle.optimiser_steps.specs.Meanings.{HasProgInRange};
ghost use Rattle.tool_decide.specs.Optimise.{PrintsOptimised, OptimisesFile, OptimiseHeadline, OptimiseReply};

use crate::log_text::optimised_text;
use kat_model::NoMemory;
use optimiser_steps::optimise;
use std::alloc::Global;
use tool_inputs::{EarlyEnd, FileCommand, Reply, reply_to_bytes, unfit_end};
use while_lang::{File, Prog};

// Returns the log of a program of the file, with the resulting program.
fn log_of(
    alloc: Global,
    file: &File,
    name: &str,
    prog: &Prog,
    turns: u64,
) -> Result<Vec<u8>, NoMemory>
    requires { HasProgInRange file.now prog.now }
    ensures { IfOk result (λ v. PrintsOptimised file.now name.now turns prog.now v.items) }
{
    let optimised = optimise(alloc, file, prog, turns)?;
    let text = optimised_text(alloc, &file.scope, name, &optimised)?;
    Ok(text)
}

/// `optimise` FILE PROG, with the maximum number of steps.
#[derive(Clone, Copy)]
pub struct OptimiseCommand<'a> {
    pub prog: &'a str,
    pub turns: u64,
}

impl FileCommand for OptimiseCommand<'_> {
    ghost use Rattle.tool_decide.specs.Working.OptimiseReplies.{optimise_reply};

    ghost steps = { λ c f. OptimisesFile f c.prog.now c.turns };

    ghost replies = { λ c text. OptimiseReply text c.prog.now c.turns };

    fn file_reply(&self, alloc: Global, file: &mut File) -> Result<Reply, EarlyEnd> {
        let Some(prog) = file.prog(self.prog) else {
            return Err(unfit_end(alloc));
        };
        Ok(Reply {
            status: 0,
            output: log_of(alloc, file, self.prog, prog, self.turns)?,
        })
    }

    ghost is_reply = { λ c text. optimise_reply text c.prog.now c.turns };
}

/// Returns the reply of `optimise` to the bytes of a text, the name of a program and a number of steps. If the text is
/// read, the status is 0 exactly when a program of the text has the name. Then the chain of its first steps, at most
/// `turns`, is printed with how it ended and the resulting program. In a file without variables, this program relates
/// the same states as the old one in every table that satisfies the stated hypotheses. In a file without tests,
/// actions, terms and stated hypotheses, it ends in the same stores as the old one from each store. The status is 7
/// exactly when no program has the name. If the text is not read, it is 2, with the line that gives the reason. Fails
/// only when out of memory.
pub fn optimise_bytes(alloc: Global, text: &[u8], prog: &str, turns: u64) -> Result<Reply, NoMemory>
    ensures headline { (f : FileParts) → Reads text.now f
        → IfOk result (λ r. OptimiseHeadline f prog.now turns r.status r.output.items) }
    ensures reply { IfOk result (λ r. OptimiseReply text.now prog.now turns r.status r.output.items) }
{
    let reply = reply_to_bytes(alloc, &OptimiseCommand { prog, turns }, text)?;
    Ok(reply)
}
