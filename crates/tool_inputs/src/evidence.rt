//! Evidence read from bytes.
ghost use Rattle.tool_inputs.specs.EvidenceBytes.{Spells, IsNoEvidence};
ghost use Rattle.tool_inputs.specs.Steps.{IsRefusal};
ghost use Rattle.tool_inputs.specs.ReplySpecs.{Yields};

use crate::reply::{EarlyEnd, Reply};
use certificate::{Evidence, EvidenceFault, read};
use kat_report::evidence_fault_line;
use std::alloc::Global;

/// Returns the evidence whose text is these bytes. Other bytes are refused with the line of their first fault.
pub fn evidence_in(alloc: Global, bytes: &[u8]) -> Result<Evidence, EarlyEnd>
    ensures { Yields (Spells bytes.now) (IsRefusal (IsNoEvidence bytes.now)) result }
{
    match read(alloc, bytes) {
        Ok(evidence) => Ok(evidence),
        Err(EvidenceFault::NoMemory) => Err(EarlyEnd::NoMemory),
        Err(fault) => Err(EarlyEnd::Replied(Reply {
            status: 2,
            output: evidence_fault_line(alloc, &fault)?,
        })),
    }
}
