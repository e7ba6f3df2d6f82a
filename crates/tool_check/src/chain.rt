//! `chain`: checks whether bytes spell a proof of the problem that a text poses.
ghost use Rattle.std.specs.Prelude.{◌≡◌, ◌≢◌, Some, Ok, IfOk};
ghost use Rattle.kat_model.specs.declared.limits.TheConstants.{MAX_TEXT_BYTES};
ghost use Rattle.kat_model.specs.Problems.{ProblemParts};
ghost use Rattle.while_lang.specs.Files.{FileParts};
ghost use Rattle.problem_file.specs.Reads.{Reads};
ghost use Rattle.while_lang.specs.Concrete.{IsConcrete, Agrees};
ghost use Rattle.abstraction.specs.Abstracts.{AbstractParts, abstract_of};
ghost use Rattle.abstraction.specs.Readings.{Reading, KeepsStated, GoalHoldsBy};
ghost use Rattle.text_parser.specs.declared.fault.TextFault.TheVariants.{NoMemory as NoRoom};
ghost use Rattle.chain_rules.specs.Chained.{HasTermsInRange};
ghost use Rattle.tool_inputs.specs.Steps.{IsRefusal};
ghost use Rattle.tool_inputs.specs.FileProblem.{Poses};
ghost use Rattle.tool_inputs.specs.ReplySpecs.{EndsWith, Yields};
ghost use Rattle.tool_check.specs.Chain.{accepted_chain_line, chain_fault_line, chain_reason_line, long_proof_line, IsNoChain, SpellsChain, IsProved, ProvesBytes, ChainHeadline, ChainReply};

use chain_proofs::{Chain, ChainAnswer, ChainReason, check_chain, read_chain};
use kat_model::{MAX_TEXT_BYTES, NoMemory, Problem};
use kat_report::put_fault;
use std::alloc::Global;
use text_parser::TextFault;
use tool_inputs::{EarlyEnd, PairCommand, Reply, line, reply_to_pair};

// Returns the line for an accepted proof.
fn accepted_line() -> &'static [u8]
    ensures { result.now ≡ accepted_chain_line }
{
    b"accepted chain\n"
}

// Returns the line with the reason why the text of a proof is refused: `refused: chain WORD`, and a space and the place
// in bytes, if any.
fn fault_line(alloc: Global, fault: &TextFault) -> Result<Vec<u8>, NoMemory>
    ensures { IfOk result (λ line. line.items ≡ chain_fault_line fault.now) }
{
    let mut line = b"refused: chain ".to_vec(alloc)?;
    put_fault(alloc, &mut line, fault)?;
    Ok(line)
}

// Returns the line with the reason why a proof is rejected: `rejected: chain Start`, `rejected: chain End`, or
// `rejected: chain Step N` with the number of the first line that does not hold.
fn reason_line(alloc: Global, reason: &ChainReason) -> Result<Vec<u8>, NoMemory>
    ensures { IfOk result (λ line. line.items ≡ chain_reason_line reason.now) }
{
    match reason {
        ChainReason::Start => Ok(b"rejected: chain Start\n".to_vec(alloc)?),
        ChainReason::End => Ok(b"rejected: chain End\n".to_vec(alloc)?),
        ChainReason::Step(number) => {
            let number = *number;
            let line = format!(in alloc; "rejected: chain Step {number}\n")?;
            Ok(line.as_bytes().to_vec(alloc)?)
        }
    }
}

// Returns the reply to the text of a proof with this fault: a refusal, unless memory ran out.
fn fault_end(alloc: Global, fault: TextFault) -> EarlyEnd
    ensures { EndsWith (λ status output. (status ≡ 2) × ((fault ≢ NoRoom) × (output ≡ chain_fault_line fault))) result }
{
    match fault {
        TextFault::NoMemory => EarlyEnd::NoMemory,
        _ => match fault_line(alloc, &fault) {
            Ok(output) => EarlyEnd::Replied(Reply { status: 2, output }),
            Err(NoMemory) => EarlyEnd::NoMemory,
        },
    }
}

// Returns the chain that the bytes spell. Bytes that spell no chain are refused.
fn chain_in(alloc: Global, problem: &Problem, bytes: &[u8]) -> Result<Chain, EarlyEnd>
    ensures spelled { Yields (SpellsChain problem.now bytes.now) (IsRefusal (IsNoChain problem.now bytes.now)) result }
    ensures in_range { IfOk result (HasTermsInRange problem.now.tests problem.now.actions) }
{
    match read_chain(alloc, bytes, problem.tests(), problem.actions()) {
        Ok(chain) => Ok(chain),
        Err(fault) => Err(fault_end(alloc, fault)),
    }
}

// Returns a rejection for this reason.
fn rejection(alloc: Global, reason: &ChainReason) -> Result<Reply, NoMemory>
    ensures { IfOk result (λ r. (r.status ≡ 3) × (r.output.items ≡ chain_reason_line reason.now)) }
{
    Ok(Reply {
        status: 3,
        output: reason_line(alloc, reason)?,
    })
}

// Returns the reply to a problem and a chain.
fn chain_reply(alloc: Global, problem: &Problem, chain: &Chain) -> Result<Reply, NoMemory>
    requires { HasTermsInRange problem.now.tests problem.now.actions chain.now }
    ensures { IfOk result (λ r. IsProved problem.now chain.now r.status r.output.items) }
{
    match check_chain(alloc, problem, chain)? {
        ChainAnswer::Accepted => line(alloc, 0, accepted_line()),
        ChainAnswer::Rejected(reason) => rejection(alloc, &reason),
    }
}

/// `chain` FILE PROOF
#[derive(Clone, Copy)]
pub struct ChainCommand;

impl PairCommand for ChainCommand {
    ghost use Rattle.tool_check.specs.Working.ChainReplies.{chain_reply, proof_refused};

    type Question = Problem;

    ghost steps = { λ _. ProvesBytes };

    ghost replies = { λ _. ChainReply };

    ghost limit = { λ _. Some MAX_TEXT_BYTES };

    ghost long_line = { λ _. long_proof_line };

    fn limit(&self) -> Option<u64> {
        Some(MAX_TEXT_BYTES as u64)
    }

    fn long_line(&self) -> &'static [u8] {
        b"refused: chain TooLong\n"
    }

    fn bytes_reply(
        &self,
        alloc: Global,
        question: &Problem,
        bytes: &[u8],
    ) -> Result<Reply, EarlyEnd> {
        let chain = chain_in(alloc, question, bytes)?;
        Ok(chain_reply(alloc, question, &chain)?)
    }

    ghost refuses_long = { λ _. proof_refused };

    ghost is_reply = { λ _. chain_reply };
}

/// Returns the reply of `chain` to the bytes of a text and of a proof from any source. If the text asks a question, the
/// status is 0 exactly when the bytes spell a chain of equations from its left side to its right side by lines that
/// hold; then both sides denote one relation in every finite table that satisfies the hypotheses, and the goal of a
/// concrete file holds for all its stores. It is 2 exactly when they spell no chain, with the line of their first
/// fault, and 3 exactly when they spell a chain that is not such a proof, with the line of the first reason. Fails only
/// when out of memory.
pub fn chain_bytes(alloc: Global, text: &[u8], proof: &[u8]) -> Result<Reply, NoMemory>
    ensures headline { (q : ProblemParts) → Poses text.now q
        → IfOk result (λ r. ChainHeadline proof.now q r.status r.output.items) }
    ensures stores { (f : FileParts) → Reads text.now f → IsConcrete f → IfOk result (λ r. r.status ≡ 0 → Agrees f) }
    ensures readings { (f : FileParts) (a : AbstractParts) (reading : Reading) → Reads text.now f → abstract_of f ≡ Ok a → KeepsStated f a reading
        → IfOk result (λ r. r.status ≡ 0 → GoalHoldsBy f a reading f.goal) }
    ensures reply { IfOk result (λ r. ChainReply text.now proof.now r.status r.output.items) }
{
    let reply = reply_to_pair(alloc, &ChainCommand, text, proof)?;
    Ok(reply)
}
