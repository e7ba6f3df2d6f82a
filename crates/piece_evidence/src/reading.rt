//! Reading evidence for pieces.
ghost use Rattle.std.specs.Prelude.{◌≡◌, map};
ghost use Rattle.piece_evidence.specs.Sections.{section_parts};
ghost use Rattle.piece_evidence.specs.Faults.{sections_of};
ghost use Rattle.piece_evidence.specs.Readings.{Gives};

use crate::draft::Draft;
use crate::fault::SectionFault;
use crate::section::Section;
use line_format::first_line;
use std::alloc::Global;

/// Reads evidence for pieces: one text or several, one after the other. A text is the line `kat 1 agree`, sections, and
/// the line `end`. A section is the line `piece K` and the line `same text`, or the line `piece K` and lines of which
/// only the last is `end`. The order of sections is free, and so is how often a number occurs. The only limit is memory.
pub fn read_sections(alloc: Global, bytes: &[u8]) -> Result<Vec<Section<'_>>, SectionFault>
    ensures { Gives (sections_of bytes.now) result (λ v. map section_parts v.items) }
{
    let mut draft = Draft::new(alloc, bytes);
    let mut number = 1;
    let mut rest = bytes;
    loop {
        let Some((line, after)) = first_line(rest) else {
            return draft.finish(rest);
        };
        draft.add(line, number, after)?;
        number += 1;
        rest = after;
    }
}
