//! `explain`: evidence that shows what it says, in the words of the file.
ghost use Rattle.std.specs.Prelude.{◌≡◌, ◌++◌, [], None, Ok, IfOk, OnOk};
ghost use Rattle.while_lang.specs.Files.{FileParts};
ghost use Rattle.problem_file.specs.Reads.{Reads};
ghost use Rattle.abstraction.specs.Abstracts.{AbstractParts, abstract_of};
ghost use Rattle.string_tables.specs.Findings.{IsFinding};
ghost use Rattle.string_tables.specs.Tables.{Refutes};
ghost use Rattle.certificate.specs.Accepted.{IsAccepted};
ghost use Rattle.cert_checker.specs.Answers.{Shows};
ghost use Rattle.kat_report.specs.Reasons.{reason_line};
ghost use Rattle.tool_explain.specs.Differences.{difference_text, ExplainsString};
ghost use Rattle.tool_explain.specs.Explain.{IsExplaining, IsExplained, ExplainsBytes, ExplainHeadline, ExplainReply};
ghost use Rattle.tool_explain.specs.Working.Findings.{is_left};

use crate::certificates::certificate_text;
use crate::shown::ShownFile;
use crate::sides::{SideNames, put_goal_lines, side_names};
use crate::states::put_string;
use abstraction::Abstract;
use cert_checker::{Answer, Reason, check};
use certificate::{Cert, Evidence};
use kat_model::{NoMemory, Problem};
use kat_report::reason_line;
use std::alloc::Global;
use string_tables::{Finding, GString, verdict};
use tool_inputs::{EarlyEnd, PairCommand, Reply, evidence_in, reply_to_pair};
use while_lang::File;

// Returns a rejection for this reason.
fn rejection(alloc: Global, reason: &Reason) -> Result<Reply, NoMemory>
    ensures { IfOk result (λ r. (r.status ≡ 3) × (r.output.items ≡ reason_line reason.now)) }
{
    Ok(Reply {
        status: 3,
        output: reason_line(alloc, reason)?,
    })
}

// Writes the string and what it shows, with these names of the sides.
fn put_difference(
    alloc: Global,
    out: &mut Vec<u8>,
    file: &File,
    shown: &Abstract,
    string: &GString,
    left: bool,
    names: &SideNames<'_>,
) -> Result<(), NoMemory>
    ensures { OnOk result (out.new.items ≡ out.old.items ++ difference_text file.now shown.now string.now left names.now.left.now names.now.right.now) }
{
    put_string(alloc, out, shown, string, &file.scope)?;
    put_goal_lines(alloc, out, shown, string, left, names, &file.goal)
}

// Explains a string by which side relates its ends.
fn string_text(
    alloc: Global,
    file: &File,
    shown: &Abstract,
    string: &GString,
    left: bool,
) -> Result<Vec<u8>, NoMemory>
    ensures { IfOk result (λ text. ExplainsString file.now shown.now string.now left text.items) }
{
    let names = side_names(file);
    let mut out = Vec::new(alloc);
    put_difference(alloc, &mut out, file, shown, string, left, &names)?;
    Ok(out)
}

// Returns whether the left side relates the ends of a string that refutes the problem.
fn left_relates(alloc: Global, problem: &Problem, string: &GString) -> Result<bool, NoMemory>
    requires { Refutes problem.now string.now }
    ensures { IfOk result (λ left. IsFinding problem.now string.now (Finding.Refutes left)) }
{
    let finding = verdict(alloc, problem, string)?;
    Ok(is_left(finding))
}

fn is_left(finding: Finding) -> bool
    ensures { result ≡ is_left finding }
{
    match finding {
        Finding::Refutes(left) => left,
        Finding::Shape(_) | Finding::HypBroken(_, _, _) | Finding::EndsAgree(_) => false,
    }
}

// Explains a string that refutes the problem.
fn string_reply(
    alloc: Global,
    file: &File,
    shown: &Abstract,
    string: &GString,
) -> Result<Reply, NoMemory>
    requires { Refutes shown.now.problem string.now }
    ensures { IfOk result (λ r. IsExplaining file.now shown.now (Evidence.Different string.now) r.status r.output.items) }
{
    let left = left_relates(alloc, &shown.problem, string)?;
    let output = string_text(alloc, file, shown, string, left)?;
    Ok(Reply { status: 0, output })
}

// Describes an accepted certificate.
fn certificate_reply(
    alloc: Global,
    file: &File,
    shown: &Abstract,
    evidence: &Evidence,
    cert: &Cert,
) -> Result<Reply, NoMemory>
    requires cert { evidence.now ≡ Evidence.Equal cert.now }
    requires accepted { IsAccepted shown.now.problem cert.now }
    ensures { IfOk result (λ r. IsExplaining file.now shown.now (Evidence.Equal cert.now) r.status r.output.items) }
{
    Ok(Reply {
        status: 0,
        output: certificate_text(alloc, file, shown, evidence, cert)?,
    })
}

// Explains evidence that shows what it says.
fn accepted_reply(
    alloc: Global,
    file: &File,
    shown: &Abstract,
    evidence: &Evidence,
) -> Result<Reply, NoMemory>
    requires { Shows shown.now.problem evidence.now }
    ensures { IfOk result (λ r. IsExplaining file.now shown.now evidence.now r.status r.output.items) }
{
    match evidence {
        Evidence::Equal(cert) => certificate_reply(alloc, file, shown, evidence, cert),
        Evidence::Different(string) => string_reply(alloc, file, shown, string),
    }
}

// Returns the reply to a file, its abstraction and evidence.
fn explain_reply(
    alloc: Global,
    file: &File,
    shown: &Abstract,
    evidence: &Evidence,
) -> Result<Reply, NoMemory>
    ensures { IfOk result (λ r. IsExplained file.now shown.now evidence.now r.status r.output.items) }
{
    match check(alloc, &shown.problem, evidence)? {
        Answer::Accepted => accepted_reply(alloc, file, shown, evidence),
        Answer::Rejected(reason) => rejection(alloc, &reason),
    }
}

/// `explain` FILE EVIDENCE
#[derive(Clone, Copy)]
pub struct ExplainCommand;

impl PairCommand for ExplainCommand {
    ghost use Rattle.tool_explain.specs.Working.ExplainReplies.{explain_reply};

    type Question = ShownFile;

    ghost steps = { λ _ s. ExplainsBytes s.file s.shown };

    ghost replies = { λ _. ExplainReply };

    ghost limit = { λ _. None };

    ghost long_line = { λ _. [] };

    fn limit(&self) -> Option<u64> {
        None
    }

    fn long_line(&self) -> &'static [u8] {
        b""
    }

    fn bytes_reply(
        &self,
        alloc: Global,
        question: &ShownFile,
        bytes: &[u8],
    ) -> Result<Reply, EarlyEnd> {
        let evidence = evidence_in(alloc, bytes)?;
        Ok(explain_reply(alloc, &question.file, &question.shown, &evidence)?)
    }

    ghost refuses_long = { λ _ s bytes past. absurd past };

    ghost is_reply = { λ _. explain_reply };
}

/// Returns the reply of `explain` to the bytes of a text and of evidence from any source. If the text asks a question,
/// the status is 0 exactly when the evidence is the text of an accepted certificate, which is described, or of a string
/// that refutes the question, which is explained in the words of the file: its states and actions, which side relates
/// its ends, and where each side that is a program is then. It is 2 exactly when the bytes are not the text of
/// evidence, and 3 exactly when the evidence does not show its claim. Fails only when out of memory.
pub fn explain_bytes(alloc: Global, text: &[u8], evidence: &[u8]) -> Result<Reply, NoMemory>
    ensures headline { (f : FileParts) (a : AbstractParts) → Reads text.now f → abstract_of f ≡ Ok a
        → IfOk result (λ r. ExplainHeadline evidence.now f a r.status r.output.items) }
    ensures reply { IfOk result (λ r. ExplainReply text.now evidence.now r.status r.output.items) }
{
    let reply = reply_to_pair(alloc, &ExplainCommand, text, evidence)?;
    Ok(reply)
}
