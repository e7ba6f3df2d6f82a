//! The atoms to which the allowed moves by an action lead.
ghost use Rattle.std.specs.Prelude.{◌≡◌, ◌≤◌, ◌<◌, false, [], length, take, ℕ, IfOk, OnOk, IfSome};
ghost use Rattle.kat_model.specs.Members.{Has};
ghost use Rattle.test_diagrams.specs.Functions.{DiagramsParts, IsDiagramId, IsAtomOf, IsIndependent, KeepsFunctions};
ghost use Rattle.walk_regions.specs.Bars.{IsForgotten, IsSplit, IsImageOf, AreAtomsPast, AreSources, AreBars, AreImages, AreSoundBars};

use indexmap::IndexMap;
use kat_model::NoMemory;
use std::alloc::Global;
use test_diagrams::{DiagramId, Diagrams};
use walk_pairs::and_not;

/// A bar: no move leads from an atom of `from` to an atom of `to`.
pub(crate) struct Bar {
    pub from: DiagramId,
    pub to: DiagramId,
    // The tests on which `from` depends and no earlier bar does.
    pub fresh: Vec<usize>,
}

// Explicit, so that it is proved once and not at each end of each function that owns one.
impl Drop for Bar {
    fn drop(self) {
        let Bar {
            from: _,
            to: _,
            fresh: _fresh,
        } = self;
    }
}

// A region, and the number of bars that apply.
#[derive(Clone, Copy, PartialEq, Eq, Hash)]
struct ImageKey {
    region: DiagramId,
    count: usize,
}

/// The bars of an action, the tests on which no bar depends, and a table of computed images.
pub(crate) struct Bars {
    bars: Vec<Bar>,
    unasked: Vec<usize>,
    images: IndexMap<ImageKey, DiagramId>,
}

// Explicit, so that it is proved once and not at each end of each function that owns one.
impl Drop for Bars {
    fn drop(self) {
        let Bars {
            bars: _bars,
            unasked: _unasked,
            images: _images,
        } = self;
    }
}

// Returns the diagram that is true at an atom if `whole` is true there or after some of `tests` are set to new values.
fn forget(diagrams: &mut Diagrams, whole: DiagramId, tests: &[usize]) -> Result<DiagramId, NoMemory>
    requires whole { IsDiagramId diagrams.old whole }
    requires tests { (t : ℕ) → Has tests.now t → t < diagrams.old.tests }
    ensures forgotten { IfOk result (IsForgotten diagrams.new whole tests.now) }
    ensures kept { KeepsFunctions diagrams.old diagrams.new }
{
    let mut id = whole;
    for test in tests {
        let low = diagrams.fix(id, *test, false)?;
        let high = diagrams.fix(id, *test, true)?;
        id = diagrams.or(low, high)?;
    }
    Ok(id)
}

// Returns the atoms of `region` from which the bar does not block a move to `after`.
fn atoms_past(
    diagrams: &mut Diagrams,
    bar: &Bar,
    region: DiagramId,
    after: &[bool],
) -> Result<DiagramId, NoMemory>
    requires from { IsDiagramId diagrams.old bar.now.from }
    requires to { IsDiagramId diagrams.old bar.now.to }
    requires region { IsDiagramId diagrams.old region }
    requires after { IsAtomOf diagrams.old after.now }
    ensures past { IfOk result (AreAtomsPast diagrams.old diagrams.new bar.now region after.now) }
    ensures kept { KeepsFunctions diagrams.old diagrams.new }
{
    if diagrams.value_at(bar.to, after) {
        return and_not(diagrams, region, bar.from);
    }
    Ok(region)
}

// The parts of a region: the atoms at which a bar starts, and those at which it does not.
#[derive(Clone, Copy)]
struct RegionParts {
    inside: DiagramId,
    outside: DiagramId,
}

// Splits the region by whether the bar starts at an atom, and forgets the tests on which no earlier bar depends.
fn split(diagrams: &mut Diagrams, bar: &Bar, region: DiagramId) -> Result<RegionParts, NoMemory>
    requires region { IsDiagramId diagrams.old region }
    requires from { IsDiagramId diagrams.old bar.now.from }
    requires fresh { (t : ℕ) → Has bar.now.fresh.items t → t < diagrams.old.tests }
    ensures split { IfOk result (IsSplit diagrams.new bar.now region) }
    ensures kept { KeepsFunctions diagrams.old diagrams.new }
{
    let start = diagrams.and(region, bar.from)?;
    let inside = forget(diagrams, start, &bar.fresh)?;
    let other = and_not(diagrams, region, bar.from)?;
    let outside = forget(diagrams, other, &bar.fresh)?;
    Ok(RegionParts { inside, outside })
}

impl Bars {
    /// Returns the bars with an empty table of images. No bar depends on the tests in `unasked`.
    pub(crate) fn new(alloc: Global, bars: Vec<Bar>, unasked: Vec<usize>) -> Bars
        ensures bars { result.bars ≡ bars }
        ensures unasked { result.unasked ≡ unasked }
        ensures images { result.images.entries ≡ [] }
    {
        Bars {
            bars,
            unasked,
            images: IndexMap::new(alloc),
        }
    }

    // Returns the image in the table, if there is one.
    fn find_image(&self, region: DiagramId, count: usize) -> Option<DiagramId>
        ensures { IfSome result (λ id. (d : DiagramsParts) → AreImages d self.now.bars.items self.now.images.entries
            → IsImageOf d (take count self.now.bars.items) region id) }
    {
        self.images.get(&ImageKey { region, count }).copied()
    }

    // Stores an image in the table.
    fn note_image(&mut self, region: DiagramId, count: usize, id: DiagramId) -> Result<(), NoMemory>
        ensures images { (d : DiagramsParts) → AreImages d self.old.bars.items self.old.images.entries → IsDiagramId d region
            → IsImageOf d (take count self.old.bars.items) region id → AreImages d self.new.bars.items self.new.images.entries }
        ensures bars { self.new.bars ≡ self.old.bars }
        ensures unasked { self.new.unasked ≡ self.old.unasked }
    {
        self.images.insert(ImageKey { region, count }, id)?;
        Ok(())
    }

    // Returns the atoms to which a move leads from an atom of `region`, if only the first `count` bars apply. The last
    // of these bars either starts at the atom before the move and does not end at the atom after it, or does not start
    // at the atom before it.
    fn image_under(
        &mut self,
        diagrams: &mut Diagrams,
        region: DiagramId,
        count: usize,
    ) -> Result<DiagramId, NoMemory>
        requires sound { AreSoundBars diagrams.old self.old }
        requires region { IsDiagramId diagrams.old region }
        requires count { count ≤ length self.old.bars.items }
        ensures image { IfOk result (IsImageOf diagrams.new (take count self.old.bars.items) region) }
        ensures sound { OnOk result (AreSoundBars diagrams.new self.new) }
        ensures bars { OnOk result (self.new.bars ≡ self.old.bars) }
        ensures kept { KeepsFunctions diagrams.old diagrams.new }
    {
        if region == diagrams.constant(false) {
            return Ok(region);
        }
        if count == 0 {
            return Ok(diagrams.constant(true));
        }
        if let Some(id) = self.find_image(region, count) {
            return Ok(id);
        }
        let last = count - 1;
        let bar = &self.bars[last];
        let to = bar.to;
        let parts = split(diagrams, bar, region)?;
        let within = self.image_under(diagrams, parts.inside, last)?;
        let kept = and_not(diagrams, within, to)?;
        let free = self.image_under(diagrams, parts.outside, last)?;
        let id = diagrams.or(kept, free)?;
        self.note_image(region, count, id)?;
        Ok(id)
    }
}

impl Bars {
    /// Returns the atoms to which a move that no bar blocks leads from an atom of `region`.
    pub(crate) fn image(
        &mut self,
        diagrams: &mut Diagrams,
        region: DiagramId,
    ) -> Result<DiagramId, NoMemory>
        requires sound { AreSoundBars diagrams.old self.old }
        requires region { IsDiagramId diagrams.old region }
        ensures image { IfOk result (IsImageOf diagrams.new self.old.bars.items region) }
        ensures sound { OnOk result (AreSoundBars diagrams.new self.new) }
        ensures bars { OnOk result (self.new.bars ≡ self.old.bars) }
        ensures kept { KeepsFunctions diagrams.old diagrams.new }
    {
        let count = self.bars.len();
        if count == 0 {
            return self.image_under(diagrams, region, 0);
        }
        let rest = forget(diagrams, region, &self.unasked)?;
        self.image_under(diagrams, rest, count)
    }

    /// Returns the atoms of `region` from which no bar blocks a move to `after`.
    pub(crate) fn sources(
        &self,
        diagrams: &mut Diagrams,
        region: DiagramId,
        after: &[bool],
    ) -> Result<DiagramId, NoMemory>
        requires bars { AreBars diagrams.old self.now.bars.items }
        requires region { IsDiagramId diagrams.old region }
        requires after { IsAtomOf diagrams.old after.now }
        ensures sources { IfOk result (λ id. AreSources diagrams.new self.now.bars.items region after.now (length self.now.bars.items) id) }
        ensures kept { KeepsFunctions diagrams.old diagrams.new }
    {
        let mut id = region;
        for bar in &self.bars {
            id = atoms_past(diagrams, bar, id, after)?;
        }
        Ok(id)
    }
}

/// Whether the value of the diagram `id` may depend on that of `test`.
pub(crate) fn depends_on(
    diagrams: &mut Diagrams,
    id: DiagramId,
    test: usize,
) -> Result<bool, NoMemory>
    requires id { IsDiagramId diagrams.old id }
    requires test { test < diagrams.old.tests }
    ensures free { IfOk result (λ b. b ≡ false → IsIndependent diagrams.new id test) }
    ensures kept { KeepsFunctions diagrams.old diagrams.new }
{
    let low = diagrams.fix(id, test, false)?;
    let high = diagrams.fix(id, test, true)?;
    Ok(low != high)
}
