//! A string during reading, from its first atom on.
ghost use Rattle.std.specs.Prelude.{◌≡◌, []};
ghost use Rattle.kat_model.specs.Strings.{Move as Step, GuardedString};
ghost use Rattle.certificate.specs.Faults.{move_format};
ghost use Rattle.certificate.specs.Working.Readings.{string_parts, unless_memory, is_given, is_passed_on};

use crate::evidence::{Evidence, EvidenceFault};
use crate::moves::{MoveFault, read_move};
use kat_model::Items;
use line_format::LineDraft;
use std::alloc::Global;
use string_tables::{GString, Move};

// The first atom and the moves so far.
#[derive(Drop)]
pub(crate) struct StringDraft {
    first: Items<bool>,
    moves: Vec<Move>,
}

impl StringDraft {
    pub(crate) fn new(alloc: Global, first: Items<bool>) -> StringDraft
        ensures { string_parts result ≡ record { first = first; rest = [] } }
    {
        StringDraft {
            first,
            moves: Vec::new(alloc),
        }
    }
}

impl LineDraft for StringDraft {
    type Value = Evidence;

    type Fault = EvidenceFault;

    ghost L = { Step };

    ghost D = { GuardedString };

    ghost format = { move_format };

    ghost unless = { unless_memory };

    ghost parts = { string_parts };

    ghost Keeps = { λ _. Unit {0} };

    fn add(&mut self, alloc: Global, line: &[u8], number: u64) -> Result<(), EvidenceFault> {
        match read_move(alloc, line) {
            Ok(found) => self.moves.push(found)?,
            Err(MoveFault::NoMemory) => return Err(EvidenceFault::NoMemory),
            Err(MoveFault::Form) => return Err(EvidenceFault::Line(number)),
            Err(MoveFault::Wide) => return Err(EvidenceFault::NumberTooWide(number)),
        }
        Ok(())
    }

    fn finish(self) -> Evidence {
        let StringDraft { first, moves } = self;
        let rest = Items::of(moves);
        Evidence::Different(GString { first, rest })
    }

    fn truncated() -> EvidenceFault {
        EvidenceFault::Truncated
    }

    fn trailing(number: u64) -> EvidenceFault {
        EvidenceFault::Trailing(number)
    }

    ghost is_given = { is_given };

    ghost is_passed_on = { is_passed_on };
}
