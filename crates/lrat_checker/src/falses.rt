//! The literals that are false. One list is reused for all lines of a proof: its marks are set and reset in the time
//! that the line takes.
ghost use Rattle.std.specs.Prelude.{◌≡◌, ◌<◌, ◌∷◌, ◌++◌, [], ℕ, false, IsTrue, ◌↔◌, OnOk, length, slice_set};
ghost use Rattle.kat_model.specs.Members.{Has};
ghost use Rattle.lrat_checker.specs.Working.Marks.{place_of, has_mark, without_marks};

use crate::literal::Literal;
use kat_model::NoMemory;
use std::alloc::Global;
use std::marker::Model;

/// The literals that are false, in the order in which they were added, and a mark for each.
pub(crate) struct Falses {
    literals: Vec<Literal>,
    marks: Vec<bool>,
}

// Explicit, so that it is proved once and not at each end of each function that owns one.
impl Drop for Falses {
    fn drop(self) {
        let Falses {
            literals: _literals,
            marks: _marks,
        } = self;
    }
}

impl Model for Falses {
    ghost use Rattle.std.specs.Prelude.{List};
    ghost use Rattle.lrat_checker.specs.declared.literal.Literal.{Literal};
    ghost use Rattle.lrat_checker.specs.Working.Marks.{AreMarked};

    ghost Value = { List Literal };

    ghost view = { λ f. f.literals.items };

    ghost invariant = { λ f. AreMarked f.literals.items f.marks.items };
}

// The place of the mark of a literal.
fn place_of(literal: Literal) -> usize
    ensures { result ≡ place_of literal }
{
    if literal.positive {
        return 2 * literal.variable as usize + 1;
    }
    2 * literal.variable as usize
}

fn has_mark(marks: &[bool], place: usize) -> bool
    ensures { result ≡ has_mark marks.now place }
{
    match marks.get(place) {
        Some(mark) => *mark,
        None => false,
    }
}

// Makes a place for a mark, without changing the marks.
fn make_place(marks: &mut Vec<bool>, place: usize) -> Result<(), NoMemory>
    ensures within { OnOk result (place < length marks.new.items) }
    ensures same { (j : ℕ) → has_mark marks.new.items j ≡ has_mark marks.old.items j }
{
    while marks.len() <= place {
        marks.push(false)?;
    }
    Ok(())
}

// Removes the mark at the place.
fn unmark(marks: &mut Vec<bool>, place: usize)
    ensures { marks.new.items ≡ slice_set marks.old.items place false }
{
    if place < marks.len() {
        marks[place] = false;
    }
}

// Removes the marks of the literals.
fn unmark_all(marks: &mut Vec<bool>, literals: &[Literal])
    ensures { marks.new.items ≡ without_marks marks.old.items literals.now }
{
    for literal in literals {
        unmark(marks, place_of(*literal));
    }
}

impl Falses {
    /// Returns the empty list. It allocates no memory.
    pub fn new(alloc: Global) -> Falses
        ensures { result ≡ [] }
    {
        Falses {
            literals: Vec::new(alloc),
            marks: Vec::new(alloc),
        }
    }

    /// Whether the literal is false.
    pub fn has(&self, literal: Literal) -> bool
        ensures { IsTrue result ↔ Has self.now literal }
    {
        has_mark(&self.marks, place_of(literal))
    }

    /// Adds a literal. After a refusal the value must not be used.
    pub fn add(&mut self, literal: Literal) -> Result<(), NoMemory>
        ensures { OnOk result (self.new ≡ self.old ++ literal ∷ []) }
    {
        let place = place_of(literal);
        make_place(&mut self.marks, place)?;
        self.literals.push(literal)?;
        self.marks[place] = true;
        Ok(())
    }

    /// Adds literals. After a refusal the value must not be used.
    pub fn add_all(&mut self, literals: &[Literal]) -> Result<(), NoMemory>
        ensures { OnOk result (self.new ≡ self.old ++ literals.now) }
    {
        for literal in literals {
            self.add(*literal)?;
        }
        Ok(())
    }

    /// Removes all literals.
    pub fn clear(&mut self)
        ensures { self.new ≡ [] }
    {
        unmark_all(&mut self.marks, &self.literals);
        self.literals.clear();
    }
}
