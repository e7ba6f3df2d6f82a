//! Reads LRAT texts.
ghost use Rattle.std.specs.Prelude.{◌≡◌, ◌∷◌, ◌++◌, [], Ok};
ghost use Rattle.lrat_checker.specs.Numbers.{literal};
ghost use Rattle.lrat_checker.specs.ProofTexts.{between, in_resolvents, reading, completed, pushed, proof_of, proof_with_word, proof_at_end};
ghost use Rattle.lrat_checker.specs.declared.proof.Line.TheVariants.{Addition, Deletion};
ghost use Rattle.lrat_checker.specs.Answers.{ReadsProof};
ghost use Rattle.lrat_checker.specs.Working.WordLists.{word_of};
ghost use Rattle.lrat_checker.specs.Working.ReadTexts.{line_read, proof_read, DraftsProof, id_read, kind_read, literal_read, hint_read, resolvent_read, deleted_read};

use crate::copies::{copy_of_ids, copy_of_literals};
use crate::fault::ProofFault;
use crate::literal::{Clause, Literal, MAX_VARIABLE};
use crate::proof::{Ids, Line, Proof};
use crate::words::{Number, Word, next_word, number_of, words_in};
use std::alloc::Global;

// The part of a line that is read next.
#[derive(Clone, Copy)]
enum Part {
    Id,
    // A `d`, or the first literal, or the 0 after the literals.
    Kind,
    Literals,
    Hints,
    Resolvents,
    Deleted,
}

// The lines that were read, and the id, the literals and the hints or deleted ids of the next one, as far as its part
// has them.
#[derive(Drop)]
struct ProofDraft {
    lines: Vec<Line>,
    part: Part,
    id: u64,
    literals: Vec<Literal>,
    ids: Vec<u64>,
}

impl ProofDraft {
    fn new(alloc: Global) -> ProofDraft
        ensures { proof_read result ≡ reading [] between }
    {
        ProofDraft {
            lines: Vec::new(alloc),
            part: Part::Id,
            id: 0,
            literals: Vec::new(alloc),
            ids: Vec::new(alloc),
        }
    }

    fn add_id(&mut self, word: Word) -> Result<(), ProofFault>
        ensures { DraftsProof (id_read self.old (word_of word.entry)) self.new result }
    {
        match number_of(word.bytes) {
            Some(Number::Positive(id)) => {
                self.id = id;
                self.part = Part::Kind;
                Ok(())
            }
            None => Err(ProofFault::NotId(word.line)),
            Some(Number::Zero) => Err(ProofFault::NotId(word.line)),
            Some(Number::Negative(_)) => Err(ProofFault::NotId(word.line)),
            Some(Number::Wide) => Err(ProofFault::NotId(word.line)),
            Some(Number::WideBelow) => Err(ProofFault::NotId(word.line)),
        }
    }

    fn add_kind(&mut self, word: Word) -> Result<(), ProofFault>
        ensures { DraftsProof (kind_read self.old (word_of word.entry)) self.new result }
    {
        if word.bytes == b"d".as_slice() {
            self.ids.clear();
            self.part = Part::Deleted;
            return Ok(());
        }
        self.literals.clear();
        self.add_literal(word)
    }

    fn push_literal(&mut self, line: usize, variable: u64, positive: bool) -> Result<(), ProofFault>
        ensures { DraftsProof (pushed self.old.lines.items self.old.id self.old.literals.items line (literal variable positive)) self.new result }
    {
        if variable > u64::from(MAX_VARIABLE) {
            return Err(ProofFault::NotLiteral(line));
        }
        let variable = variable as u32;
        self.literals.push(Literal { variable, positive })?;
        self.part = Part::Literals;
        Ok(())
    }

    fn add_literal(&mut self, word: Word) -> Result<(), ProofFault>
        ensures { DraftsProof (literal_read self.old (word_of word.entry)) self.new result }
    {
        match number_of(word.bytes) {
            Some(Number::Zero) => {
                self.ids.clear();
                self.part = Part::Hints;
                Ok(())
            }
            Some(Number::Positive(variable)) => self.push_literal(word.line, variable, true),
            Some(Number::Negative(variable)) => self.push_literal(word.line, variable, false),
            None => Err(ProofFault::NotLiteral(word.line)),
            Some(Number::Wide) => Err(ProofFault::NotLiteral(word.line)),
            Some(Number::WideBelow) => Err(ProofFault::NotLiteral(word.line)),
        }
    }

    fn end_addition(&mut self, alloc: Global, resolvents: bool) -> Result<(), ProofFault>
        ensures { DraftsProof (Ok (completed self.old.lines.items (Addition self.old.id self.old.literals.items self.old.ids.items resolvents))) self.new result }
    {
        let literals = copy_of_literals(alloc, &self.literals)?;
        let list = copy_of_ids(alloc, &self.ids)?;
        self.lines.push(Line::Addition {
            id: self.id,
            clause: Clause { literals },
            hints: Ids { list },
            resolvents,
        })?;
        self.part = Part::Id;
        Ok(())
    }

    fn end_deletion(&mut self, alloc: Global) -> Result<(), ProofFault>
        ensures { DraftsProof (Ok (completed self.old.lines.items (Deletion self.old.ids.items))) self.new result }
    {
        let list = copy_of_ids(alloc, &self.ids)?;
        self.lines.push(Line::Deletion { ids: Ids { list } })?;
        self.part = Part::Id;
        Ok(())
    }

    // Adds an id to the list of this part.
    fn push_id(&mut self, id: u64, part: Part) -> Result<(), ProofFault>
        ensures { DraftsProof (Ok (reading self.old.lines.items (line_read part self.old.id self.old.literals.items (self.old.ids.items ++ id ∷ [])))) self.new result }
    {
        self.ids.push(id)?;
        self.part = part;
        Ok(())
    }

    fn skip_resolvent(&mut self) -> Result<(), ProofFault>
        ensures { DraftsProof (Ok (reading self.old.lines.items (in_resolvents self.old.id self.old.literals.items self.old.ids.items))) self.new result }
    {
        self.part = Part::Resolvents;
        Ok(())
    }

    fn add_hint(&mut self, alloc: Global, word: Word) -> Result<(), ProofFault>
        ensures { DraftsProof (hint_read self.old (word_of word.entry)) self.new result }
    {
        match number_of(word.bytes) {
            Some(Number::Zero) => self.end_addition(alloc, false),
            Some(Number::Positive(id)) => self.push_id(id, Part::Hints),
            Some(Number::Negative(_)) => {
                self.part = Part::Resolvents;
                Ok(())
            }
            None => Err(ProofFault::NotHint(word.line)),
            Some(Number::Wide) => Err(ProofFault::NotHint(word.line)),
            Some(Number::WideBelow) => Err(ProofFault::NotHint(word.line)),
        }
    }

    fn add_resolvent(&mut self, alloc: Global, word: Word) -> Result<(), ProofFault>
        ensures { DraftsProof (resolvent_read self.old (word_of word.entry)) self.new result }
    {
        match number_of(word.bytes) {
            Some(Number::Zero) => self.end_addition(alloc, true),
            Some(Number::Positive(_)) => self.skip_resolvent(),
            Some(Number::Negative(_)) => self.skip_resolvent(),
            None => Err(ProofFault::NotHint(word.line)),
            Some(Number::Wide) => Err(ProofFault::NotHint(word.line)),
            Some(Number::WideBelow) => Err(ProofFault::NotHint(word.line)),
        }
    }

    fn add_deleted(&mut self, alloc: Global, word: Word) -> Result<(), ProofFault>
        ensures { DraftsProof (deleted_read self.old (word_of word.entry)) self.new result }
    {
        match number_of(word.bytes) {
            Some(Number::Zero) => self.end_deletion(alloc),
            Some(Number::Positive(id)) => self.push_id(id, Part::Deleted),
            None => Err(ProofFault::NotId(word.line)),
            Some(Number::Negative(_)) => Err(ProofFault::NotId(word.line)),
            Some(Number::Wide) => Err(ProofFault::NotId(word.line)),
            Some(Number::WideBelow) => Err(ProofFault::NotId(word.line)),
        }
    }

    // Adds a word. After a fault the value must not be used.
    fn add(&mut self, alloc: Global, word: Word) -> Result<(), ProofFault>
        ensures { DraftsProof (proof_with_word (proof_read self.old) (word_of word.entry)) self.new result }
    {
        match self.part {
            Part::Id => self.add_id(word),
            Part::Kind => self.add_kind(word),
            Part::Literals => self.add_literal(word),
            Part::Hints => self.add_hint(alloc, word),
            Part::Resolvents => self.add_resolvent(alloc, word),
            Part::Deleted => self.add_deleted(alloc, word),
        }
    }

    // Returns the proof of a text whose last line has this number.
    fn finish(self, last: usize) -> Result<Proof, ProofFault>
        ensures { result ≡ proof_at_end (proof_read self) last }
    {
        let ProofDraft {
            lines,
            part,
            id: _,
            literals: _literals,
            ids: _ids,
        } = self;
        match part {
            Part::Id => Ok(Proof { lines }),
            _ => Err(ProofFault::Unended(last)),
        }
    }
}

/// Reads an LRAT text: lines `ID LITERALS 0 HINTS 0`, which add a clause, and `ID d IDS 0`, which delete clauses. Each 0
/// ends a list. A hint after a minus sign begins the hints of resolvents. The id of a deletion has no meaning. Words
/// are separated by blanks, tabs, carriage returns and line feeds, and lines that begin with `c` are comments.
pub fn read_proof(alloc: Global, bytes: &[u8]) -> Result<Proof, ProofFault>
    ensures { ReadsProof (proof_of bytes.now) result }
{
    let mut words = words_in(bytes);
    let mut draft = ProofDraft::new(alloc);
    'words: while let Some(word) = next_word(&mut words) {
        draft.add(alloc, word)?;
    }
    draft.finish(words.line())
}
