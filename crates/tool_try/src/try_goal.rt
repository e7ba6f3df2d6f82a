//! `try` FILE TURNS: tries the goal of a concrete file on stores.
ghost use Rattle.std.specs.Prelude.{◌≤◌, All, length, IfOk};
ghost use Rattle.while_lang.specs.Files.{FileParts};
ghost use Rattle.while_lang.specs.Ranges.{IsNumbered};
ghost use Rattle.problem_file.specs.Reads.{Reads};
ghost use Rattle.while_lang.specs.Concrete.{IsConcrete, IsStoreOf};
ghost use Rattle.store_trials.specs.Trials.{IsConcreteGoal};
ghost use Rattle.tool_try.specs.Try.{AreTrialStores, HasTried, TriesStores, TriesFile, TryHeadline, TryReply};

use crate::texts::{not_concrete_line, trial_status, trial_text};
use kat_model::NoMemory;
use std::alloc::Global;
use store_trials::{all_stores, tried_numbers, try_stores};
use tool_inputs::{EarlyEnd, FileCommand, Reply, refusal, reply_to_bytes};
use while_lang::{File, Store};

/// Returns the stores on which the goal of a file is tried. Fails only when out of memory.
pub(crate) fn trial_stores(alloc: Global, file: &File) -> Result<Vec<Store>, NoMemory>
    ensures stores { IfOk result (λ v. AreTrialStores file.now v.items) }
    ensures within { IfOk result (λ v. All (IsStoreOf file.now) v.items) }
    ensures few { IfOk result (λ v. length v.items ≤ 20000) }
{
    let numbers = tried_numbers(alloc, file.width, &file.goal)?;
    all_stores(alloc, file.width, &numbers, file.vars)
}

/// Tries the goal of a file on stores, and returns the reply. Fails only when out of memory.
pub(crate) fn stores_reply(
    alloc: Global,
    file: &File,
    stores: &[Store],
    turns: u64,
) -> Result<Reply, NoMemory>
    requires concrete { IsConcreteGoal file.now.goal }
    requires within { All (IsStoreOf file.now) stores.now }
    requires few { length stores.now ≤ 40000 }
    ensures { IfOk result (λ r. HasTried file.now turns stores.now r.status r.output.items) }
{
    let trial = try_stores(alloc, file.width, &file.goal, stores, turns)?;
    Ok(Reply {
        status: trial_status(&trial),
        output: trial_text(alloc, &file.scope, stores.len(), &trial)?,
    })
}

// Tries the goal of a concrete file, and returns the reply.
fn concrete_reply(alloc: Global, file: &File, turns: u64) -> Result<Reply, NoMemory>
    requires concrete { IsConcrete file.now }
    requires numbered { IsNumbered file.now }
    ensures { IfOk result (λ r. TriesStores file.now turns r.status r.output.items) }
{
    let stores = trial_stores(alloc, file)?;
    stores_reply(alloc, file, &stores, turns)
}

/// `try` FILE TURNS
#[derive(Clone, Copy)]
pub struct TryCommand {
    pub turns: u64,
}

impl FileCommand for TryCommand {
    ghost use Rattle.tool_try.specs.Working.TryReplies.{try_reply};

    ghost steps = { λ c f. TriesFile f c.turns };

    ghost replies = { λ c text. TryReply text c.turns };

    fn file_reply(&self, alloc: Global, file: &mut File) -> Result<Reply, EarlyEnd> {
        if !file.concrete() {
            return Err(refusal(alloc, not_concrete_line()));
        }
        Ok(concrete_reply(alloc, file, self.turns)?)
    }

    ghost is_reply = { λ c text. try_reply text c.turns };
}

/// Returns the reply of `try` to the bytes of a text and a number of turns. If the text is read as a concrete file, the
/// status is 1 exactly when runs of at most `turns` entries into loop bodies from some store of a list show that the
/// goal is false: both programs end in different stores, or one ends and the other reaches an `abort` or an `assert`
/// that fails, or the program of a triple ends where the postcondition fails. Then the first such store is printed with
/// the ends, and the goal does not hold for this store. Otherwise it is 0, which says nothing about other stores, with
/// the numbers of stores and of runs that were cut short. It is 2 exactly when the file is not concrete, with the line
/// that says so. If the text is not read, it is 2, with the line that gives the reason. Fails only when out of memory.
pub fn try_bytes(alloc: Global, text: &[u8], turns: u64) -> Result<Reply, NoMemory>
    ensures headline { (f : FileParts) → Reads text.now f
        → IfOk result (λ r. TryHeadline f turns r.status r.output.items) }
    ensures reply { IfOk result (λ r. TryReply text.now turns r.status r.output.items) }
{
    let reply = reply_to_bytes(alloc, &TryCommand { turns }, text)?;
    Ok(reply)
}
