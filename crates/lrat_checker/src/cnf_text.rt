//! Reads DIMACS CNF texts.
ghost use Rattle.std.specs.Prelude.{◌≡◌, ◌≤◌, ◌∷◌, ◌++◌, [], ℕ, List, Ok, IfOk};
ghost use Rattle.lrat_checker.specs.Numbers.{literal, number_of};
ghost use Rattle.lrat_checker.specs.CnfTexts.{CnfAnswer, cnf_of, counted, after_variables, after_cnf, after_p, after_header, with_literal, with_number, clauses_at_end, clauses_from, reading};
ghost use Rattle.lrat_checker.specs.Answers.{CnfGives, ReadsCnf};
ghost use Rattle.lrat_checker.specs.Working.ReadTexts.{left_of, last_of, clauses_read, ReadsFixed, ReadsCount, ReadsHeader, DraftsClauses};

use crate::cnf::Cnf;
use crate::copies::copy_of_literals;
use crate::fault::CnfFault;
use crate::literal::{Clause, Literal, MAX_VARIABLE};
use crate::words::{Number, Word, Words, next_word, number_of, words_in};
use std::alloc::Global;

// Reads a word that is always the same.
fn read_fixed(words: &mut Words, expected: &[u8]) -> Result<(), CnfFault>
    ensures last { last_of words.new ≡ last_of words.old }
    ensures value { ReadsFixed expected.now words.old words.new result }
{
    match next_word(words) {
        None => Err(CnfFault::Header(words.line())),
        Some(word) => {
            if word.bytes == expected {
                return Ok(());
            }
            Err(CnfFault::Header(word.line))
        }
    }
}

// Returns the number of a word, which is at most `most`.
fn count_of(word: Word, most: u64) -> Result<u64, CnfFault>
    ensures within { IfOk result (λ k. k ≤ most) }
    ensures value { (more : ℕ → CnfAnswer) → CnfGives (counted most word.entry.line more (number_of word.entry.bytes.now)) result more }
{
    match number_of(word.bytes) {
        None => Err(CnfFault::Header(word.line)),
        Some(Number::Negative(_)) => Err(CnfFault::Header(word.line)),
        Some(Number::WideBelow) => Err(CnfFault::Header(word.line)),
        Some(Number::Zero) => Ok(0),
        Some(Number::Wide) => Err(CnfFault::TooLarge(word.line)),
        Some(Number::Positive(count)) => {
            if count <= most {
                return Ok(count);
            }
            Err(CnfFault::TooLarge(word.line))
        }
    }
}

// Reads a number that is at most `most`.
fn read_count(words: &mut Words, most: u64) -> Result<u64, CnfFault>
    ensures within { IfOk result (λ k. k ≤ most) }
    ensures last { last_of words.new ≡ last_of words.old }
    ensures value { ReadsCount most words.old words.new result }
{
    match next_word(words) {
        None => Err(CnfFault::Header(words.line())),
        Some(word) => count_of(word, most),
    }
}

// The number of variables, and the number of clauses.
#[derive(Clone, Copy)]
struct CnfHeader {
    variables: u32,
    count: u64,
}

// Each reads the header from one of its words on.
fn read_after_variables(words: &mut Words, variables: u32) -> Result<CnfHeader, CnfFault>
    ensures last { last_of words.new ≡ last_of words.old }
    ensures value { ReadsHeader (λ last more. after_variables last more variables) words.old words.new result }
{
    match read_count(words, u64::MAX) {
        Err(fault) => Err(fault),
        Ok(count) => Ok(CnfHeader { variables, count }),
    }
}

fn read_after_cnf(words: &mut Words) -> Result<CnfHeader, CnfFault>
    ensures last { last_of words.new ≡ last_of words.old }
    ensures value { ReadsHeader after_cnf words.old words.new result }
{
    match read_count(words, MAX_VARIABLE as u64) {
        Err(fault) => Err(fault),
        Ok(variables) => read_after_variables(words, variables as u32),
    }
}

fn read_after_p(words: &mut Words) -> Result<CnfHeader, CnfFault>
    ensures last { last_of words.new ≡ last_of words.old }
    ensures value { ReadsHeader after_p words.old words.new result }
{
    match read_fixed(words, b"cnf") {
        Err(fault) => Err(fault),
        Ok(()) => read_after_cnf(words),
    }
}

fn read_header(words: &mut Words) -> Result<CnfHeader, CnfFault>
    ensures last { last_of words.new ≡ last_of words.old }
    ensures value { ReadsHeader after_header words.old words.new result }
{
    match read_fixed(words, b"p") {
        Err(fault) => Err(fault),
        Ok(()) => read_after_p(words),
    }
}

// The clauses that were read, and the literals of the next one.
#[derive(Drop)]
struct ClausesDraft {
    clauses: Vec<Clause>,
    clause: Vec<Literal>,
}

impl ClausesDraft {
    fn add_literal(
        &mut self,
        variables: u32,
        line: usize,
        variable: u64,
        positive: bool,
    ) -> Result<(), CnfFault>
        ensures { DraftsClauses (with_literal variables (clauses_read self.old) line (literal variable positive)) self.new result }
    {
        if variable > u64::from(variables) {
            return Err(CnfFault::UnknownVariable(line));
        }
        let variable = variable as u32;
        self.clause.push(Literal { variable, positive })?;
        Ok(())
    }

    fn end_clause(&mut self, alloc: Global) -> Result<(), CnfFault>
        ensures { DraftsClauses (Ok (reading (self.old.clauses.items ++ self.old.clause.items ∷ []) [])) self.new result }
    {
        let literals = copy_of_literals(alloc, &self.clause)?;
        self.clauses.push(Clause { literals })?;
        self.clause.clear();
        Ok(())
    }

    // Adds a word. After a fault the value must not be used.
    fn add(&mut self, alloc: Global, variables: u32, word: Word) -> Result<(), CnfFault>
        ensures { DraftsClauses (with_number variables (clauses_read self.old) word.entry.line (number_of word.entry.bytes.now)) self.new result }
    {
        match number_of(word.bytes) {
            None => Err(CnfFault::NotLiteral(word.line)),
            Some(Number::Wide) => Err(CnfFault::UnknownVariable(word.line)),
            Some(Number::WideBelow) => Err(CnfFault::UnknownVariable(word.line)),
            Some(Number::Zero) => self.end_clause(alloc),
            Some(Number::Positive(variable)) => self.add_literal(
                variables, word.line, variable, true,
            ),
            Some(Number::Negative(variable)) => self.add_literal(
                variables, word.line, variable, false,
            ),
        }
    }

    // Returns the formula with these numbers of variables and clauses, if the text ends here.
    fn finish(self, variables: u32, count: u64, last: usize) -> Result<Cnf, CnfFault>
        ensures { result ≡ clauses_at_end variables count self.clauses.items self.clause.items last }
    {
        let ClausesDraft { clauses, clause } = self;
        if !clause.is_empty() {
            return Err(CnfFault::Unended(last));
        }
        if clauses.len() as u64 == count {
            return Ok(Cnf { variables, clauses });
        }
        Err(CnfFault::WrongCount(last))
    }
}

fn read_body(alloc: Global, words: Words, header: CnfHeader) -> Result<Cnf, CnfFault>
    ensures { ReadsCnf (clauses_from (last_of words.entry) header.variables header.count (left_of words.entry)) result }
{
    let mut words = words;
    let mut draft = ClausesDraft {
        clauses: Vec::new(alloc),
        clause: Vec::new(alloc),
    };
    'words: while let Some(word) = next_word(&mut words) {
        draft.add(alloc, header.variables, word)?;
    }
    draft.finish(header.variables, header.count, words.line())
}

/// Reads a DIMACS CNF text: comments, which are lines that begin with `c`, the words `p cnf VARIABLES CLAUSES`, and the
/// clauses, each a list of literals ended by 0. A literal is the number of its variable, after a minus sign if it is
/// negative. Words are separated by blanks, tabs, carriage returns and line feeds; a clause may have several lines.
pub fn read_clauses(alloc: Global, bytes: &[u8]) -> Result<Cnf, CnfFault>
    ensures { ReadsCnf (cnf_of bytes.now) result }
{
    let mut words = words_in(bytes);
    match read_header(&mut words) {
        Err(fault) => Err(fault),
        Ok(header) => read_body(alloc, words, header),
    }
}
