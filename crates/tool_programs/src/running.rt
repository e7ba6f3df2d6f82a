//! `run`: runs the program that words name, and replies with how it ends.
ghost use Rattle.std.specs.Prelude.{◌≡◌, true, IfOk};
ghost use Rattle.kat_model.specs.Stores.{IsStore};
ghost use Rattle.while_lang.specs.Programs.{is_concrete};
ghost use Rattle.while_lang.specs.Files.{FileParts};
ghost use Rattle.problem_file.specs.Reads.{Reads};
ghost use Rattle.tool_programs.specs.Running.{outcome_status, HasRun, RunsFile, RunHeadline, RunReply};

use kat_model::NoMemory;
use kat_report::outcome_line;
use std::alloc::Global;
use tool_commands::{program_of, store_of};
use tool_inputs::{EarlyEnd, FileCommand, Reply, reply_to_bytes, unfit_end};
use while_lang::{File, Outcome, Prog, Store, run};

fn outcome_status(outcome: Outcome) -> u8
    ensures { result ≡ outcome_status outcome }
{
    match outcome {
        Outcome::Done => 0,
        Outcome::Stuck | Outcome::More => 1,
    }
}

// Runs a program on a store of the file, and returns the reply.
fn outcome_reply(
    alloc: Global,
    file: &File,
    prog: &Prog,
    mut store: Store,
    turns: u64,
) -> Result<Reply, NoMemory>
    requires concrete { is_concrete prog.now ≡ true }
    requires within { IsStore file.now.width store }
    ensures { IfOk result (λ r. HasRun file.now turns prog.now store r.status r.output.items) }
{
    let outcome = run(prog, file.width, &mut store, turns);
    Ok(Reply {
        status: outcome_status(outcome),
        output: outcome_line(alloc, &file.scope, outcome, &store)?,
    })
}

/// `run` FILE PROG STORE TURNS
#[derive(Clone, Copy)]
pub struct RunCommand<'a> {
    pub prog: &'a str,
    pub store: &'a str,
    pub turns: u64,
}

impl FileCommand for RunCommand<'_> {
    ghost use Rattle.tool_programs.specs.Working.RunReplies.{run_reply};

    ghost steps = { λ c f. RunsFile f c.prog.now c.store.now c.turns };

    ghost replies = { λ c text. RunReply text c.prog.now c.store.now c.turns };

    fn file_reply(&self, alloc: Global, file: &mut File) -> Result<Reply, EarlyEnd> {
        let Some(prog) = program_of(file, self.prog) else {
            return Err(unfit_end(alloc));
        };
        let Some(store) = store_of(alloc, file, self.store)? else {
            return Err(unfit_end(alloc));
        };
        Ok(outcome_reply(alloc, file, prog, store, self.turns)?)
    }

    ghost is_reply = { λ c text. run_reply text c.prog.now c.store.now c.turns };
}

/// Returns the reply of `run` to the bytes of a text and the words of a program, a store and a number of turns. If the
/// text is read, the status is 0 exactly when the program ends after entering at most `turns` loop bodies, with the
/// store in which it ends; 1 exactly when it reaches an `abort`, an `assert` that fails, or a loop body with no turn
/// left; and 7 exactly when no concrete program of the text has the name, or the word of the store gives no store.
/// Otherwise it is 2, with the line that gives the reason. Fails only when out of memory.
pub fn run_bytes(
    alloc: Global,
    text: &[u8],
    prog: &str,
    store: &str,
    turns: u64,
) -> Result<Reply, NoMemory>
    ensures headline { (f : FileParts) → Reads text.now f
        → IfOk result (λ r. RunHeadline f prog.now store.now turns r.status r.output.items) }
    ensures reply { IfOk result (λ r. RunReply text.now prog.now store.now turns r.status r.output.items) }
{
    let reply = reply_to_bytes(alloc, &RunCommand { prog, store, turns }, text)?;
    Ok(reply)
}
