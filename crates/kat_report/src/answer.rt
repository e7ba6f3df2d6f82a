//! An answer as JSON, for other programs.
ghost use Rattle.std.specs.Prelude.{◌≡◌, IfOk, string_bytes};
ghost use Rattle.certificate.specs.Texts.{text_of};
ghost use Rattle.serde_json.specs.View.{view};
ghost use Rattle.kat_report.specs.Reports.{answer_name, evidence_size, json_report};
ghost use Rattle.kat_report.specs.Working.JsonValues.{report_value};

use certificate::{Evidence, write};
use kat_model::{NoMemory, Problem};
use serde_json::{Value, json};
use std::alloc::{AllocError, Global};

fn answer_name(evidence: &Evidence) -> &'static str
    ensures { result.now ≡ answer_name evidence.now }
{
    match evidence {
        Evidence::Equal(_) => "equal",
        Evidence::Different(_) => "different",
    }
}

// Returns the number of pairs of a certificate, or of moves of a string.
fn evidence_size(evidence: &Evidence) -> usize
    ensures { result ≡ evidence_size evidence.now }
{
    match evidence {
        Evidence::Equal(cert) => cert.pairs().len(),
        Evidence::Different(string) => string.rest.as_slice().len(),
    }
}

// Returns the text of evidence, which is ASCII.
fn evidence_text(alloc: Global, evidence: &Evidence) -> Result<String, NoMemory>
    ensures { IfOk result (λ s. string_bytes s ≡ text_of evidence.now) }
{
    let bytes = write(alloc, evidence)?;
    Ok(String::from_utf8(bytes).unwrap())
}

// Returns the report as a JSON value.
fn report_value(
    alloc: Global,
    answer: &str,
    evidence: &str,
    hypotheses: usize,
    size: usize,
) -> Result<Value, AllocError>
    ensures { IfOk result (λ v. view v ≡ report_value answer.now evidence.now hypotheses size) }
{
    json!(in alloc; {"answer": answer, "evidence": evidence, "hypotheses": hypotheses, "size": size})
}

/// Returns the answer to a problem as one line of compact JSON (RFC 8259): an object with the keys `answer` (`equal` or
/// `different`), `evidence` (its text), `hypotheses` (the number of hypotheses of the problem) and `size` (the number
/// of pairs or moves), in this order, and a line feed. Fails only when out of memory.
pub fn json_report(
    alloc: Global,
    problem: &Problem,
    evidence: &Evidence,
) -> Result<Vec<u8>, NoMemory>
    ensures { IfOk result (λ v. v.items ≡ json_report problem.now evidence.now) }
{
    let text = evidence_text(alloc, evidence)?;
    let report = report_value(
        alloc,
        answer_name(evidence),
        text.as_str(),
        problem.hyps().len(),
        evidence_size(evidence),
    )?;
    let mut line = report.to_string(alloc)?.into_bytes();
    line.push(b'\n')?;
    Ok(line)
}
