//! `try` FILE TURNS EVIDENCE: tries first the stores from which the string of the evidence can be followed.
ghost use Rattle.std.specs.Prelude.{◌≡◌, ◌≤◌, ◌*◌, ◌++◌, ℕ, List, length, [], None, Ok, IfOk};
ghost use Rattle.while_lang.specs.Files.{FileParts};
ghost use Rattle.while_lang.specs.Ranges.{IsNumbered};
ghost use Rattle.problem_file.specs.Reads.{Reads};
ghost use Rattle.while_lang.specs.Concrete.{IsConcrete};
ghost use Rattle.string_tables.specs.Tables.{Refutes};
ghost use Rattle.abstraction.specs.Abstracts.{AbstractParts, abstract_of};
ghost use Rattle.cert_checker.specs.Answers.{IsAnswer};
ghost use Rattle.store_trials.specs.Following.{followers};
ghost use Rattle.tool_inputs.specs.ReplySpecs.{RepliesWith};
ghost use Rattle.tool_try.specs.Questions.{IsConcreteText};
ghost use Rattle.tool_try.specs.TryWith.{TriesFollowing, TriesEvidence, TriesBytes, TryWithHeadline, TryWithReply};

use crate::concrete::ConcreteFile;
use crate::try_goal::{stores_reply, trial_stores};
use abstraction::Abstract;
use cert_checker::{Answer, check};
use certificate::Evidence;
use kat_model::NoMemory;
use kat_report::{no_string_line, reason_line};
use std::alloc::Global;
use store_trials::following;
use string_tables::GString;
use tool_inputs::{EarlyEnd, PairCommand, Reply, evidence_in, line, reply_to_pair};
use while_lang::{File, Store};

// Returns the stores from which the string can be followed, and then all stores of the list.
fn stores_with(
    alloc: Global,
    shown: &Abstract,
    string: &GString,
    mut stores: Vec<Store>,
) -> Result<Vec<Store>, NoMemory>
    ensures stores { IfOk result (λ v. v.items ≡ followers shown.now string.now stores.items ++ stores.items) }
    ensures few { IfOk result (λ v. length v.items ≤ 2 * length stores.items) }
{
    let mut list = following(alloc, shown, string, &stores)?;
    list.append(&mut stores)?;
    Ok(list)
}

// Tries the goal after a string that refutes the problem, and returns the reply.
fn string_reply(
    alloc: Global,
    file: &File,
    shown: &Abstract,
    string: &GString,
    turns: u64,
) -> Result<Reply, NoMemory>
    requires concrete { IsConcrete file.now }
    requires numbered { IsNumbered file.now }
    requires refutes { Refutes shown.now.problem string.now }
    ensures { IfOk result (λ r. TriesFollowing file.now shown.now turns string.now r.status r.output.items) }
{
    let stores = trial_stores(alloc, file)?;
    let list = stores_with(alloc, shown, string, stores)?;
    stores_reply(alloc, file, &list, turns)
}

// Returns the reply to a file, its abstraction and a string with the checker's answer.
fn checked_reply(
    alloc: Global,
    file: &File,
    shown: &Abstract,
    string: &GString,
    answer: &Answer,
    turns: u64,
) -> Result<Reply, NoMemory>
    requires concrete { IsConcrete file.now }
    requires numbered { IsNumbered file.now }
    requires answer { IsAnswer shown.now.problem (Evidence.Different string.now) answer.now }
    ensures { IfOk result (λ r. TriesEvidence file.now shown.now turns (Evidence.Different string.now) r.status r.output.items) }
{
    match answer {
        Answer::Accepted => string_reply(alloc, file, shown, string, turns),
        Answer::Rejected(reason) => Ok(Reply {
            status: 3,
            output: reason_line(alloc, reason)?,
        }),
    }
}

// Returns the reply to a file, its abstraction and evidence.
fn evidence_reply(
    alloc: Global,
    file: &File,
    shown: &Abstract,
    evidence: &Evidence,
    turns: u64,
) -> Result<Reply, NoMemory>
    requires concrete { IsConcrete file.now }
    requires numbered { IsNumbered file.now }
    ensures { IfOk result (λ r. TriesEvidence file.now shown.now turns evidence.now r.status r.output.items) }
{
    match evidence {
        Evidence::Equal(_) => line(alloc, 3, no_string_line()),
        Evidence::Different(string) => {
            let answer = check(alloc, &shown.problem, evidence)?;
            checked_reply(alloc, file, shown, string, &answer, turns)
        }
    }
}

// Returns the reply to the concrete file of some text, and bytes.
fn question_reply(
    alloc: Global,
    question: &ConcreteFile,
    bytes: &[u8],
    turns: u64,
) -> Result<Reply, EarlyEnd>
    requires { (text : List ℕ) × IsConcreteText text question.now }
    ensures { RepliesWith (TriesBytes turns question.now.file question.now.shown bytes.now) result }
{
    let evidence = evidence_in(alloc, bytes)?;
    Ok(evidence_reply(alloc, &question.file, &question.shown, &evidence, turns)?)
}

/// `try` FILE TURNS EVIDENCE
#[derive(Clone, Copy)]
pub struct TryWithCommand {
    pub turns: u64,
}

impl PairCommand for TryWithCommand {
    ghost use Rattle.tool_try.specs.Working.TryReplies.{try_with_reply};

    type Question = ConcreteFile;

    ghost steps = { λ c s. TriesBytes c.turns s.file s.shown };

    ghost replies = { λ c. TryWithReply c.turns };

    ghost limit = { λ _. None };

    ghost long_line = { λ _. [] };

    fn limit(&self) -> Option<u64> {
        None
    }

    fn long_line(&self) -> &'static [u8] {
        b""
    }

    fn bytes_reply(
        &self,
        alloc: Global,
        question: &ConcreteFile,
        bytes: &[u8],
    ) -> Result<Reply, EarlyEnd> {
        question_reply(alloc, question, bytes, self.turns)
    }

    ghost refuses_long = { λ _ s bytes past. absurd past };

    ghost is_reply = { λ c. try_with_reply c.turns };
}

/// Returns the reply of `try` to the bytes of a text and of evidence of a difference, and a number of turns, as
/// `try_bytes` does, but the stores of the list from which the string of the evidence can be followed are tried first.
/// The status is 3 if the evidence is a certificate, or does not show that the sides differ. Fails only when out of
/// memory.
pub fn try_with_bytes(
    alloc: Global,
    text: &[u8],
    evidence: &[u8],
    turns: u64,
) -> Result<Reply, NoMemory>
    ensures headline { (f : FileParts) (a : AbstractParts) → Reads text.now f → IsConcrete f → abstract_of f ≡ Ok a
        → IfOk result (λ r. TryWithHeadline turns evidence.now f a r.status r.output.items) }
    ensures reply { IfOk result (λ r. TryWithReply turns text.now evidence.now r.status r.output.items) }
{
    let reply = reply_to_pair(alloc, &TryWithCommand { turns }, text, evidence)?;
    Ok(reply)
}
