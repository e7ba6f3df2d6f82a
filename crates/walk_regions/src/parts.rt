//! Splits a region into parts; from all atoms of a part an action leads to the same terms.
ghost use Rattle.std.specs.Prelude.{◌≡◌, ◌⊎◌, ◌++◌, ◌∷◌, [], ℕ, List, IfOk, OnOk, IsTrue, IsFalse};
ghost use Rattle.std.specs.List.Sorted.{IsPermutation};
ghost use Rattle.kat_model.specs.Members.{Has};
ghost use Rattle.kat_model.specs.Steps.{Atom};
ghost use Rattle.test_diagrams.specs.Functions.{value_of, IsDiagramId, IsAtomOf, KeepsFunctions};
ghost use Rattle.walk_pairs.specs.Items.{chosen, AreItems};
ghost use Rattle.walk_pairs.specs.Outputs.{IsSomewhereTrue};
ghost use Rattle.walk_pairs.specs.declared.items.Item.{Item as Item'};
ghost use Rattle.walk_pairs.specs.declared.items.Side.TheVariants.{Left as OnLeft, Right as OnRight};
ghost use Rattle.walk_regions.specs.Reaching.{IsPartOf};
ghost use Rattle.walk_regions.specs.Parts.{with_if, IsRegionWhere, IsPart, AreParts, HavePartIds, HasPartAt, IsCase, Distinguishes};

use kat_model::{NoMemory, append};
use std::alloc::Global;
use term_store::TermId;
use test_diagrams::{DiagramId, Diagrams};
use walk_pairs::{Item, and_not, difference};

/// Some atoms, and the terms to which an action leads from each of them, on the left and on the right. The terms are in
/// ascending order.
pub struct Part {
    pub region: DiagramId,
    pub left: Vec<TermId>,
    pub right: Vec<TermId>,
}

// Explicit, so that it is proved once and not at each end of each function that owns one.
impl Drop for Part {
    fn drop(self) {
        let Part {
            region: _,
            left: _left,
            right: _right,
        } = self;
    }
}

// Returns the atoms of `region` at which `guard` has the value `value`.
fn region_where(
    diagrams: &mut Diagrams,
    region: DiagramId,
    guard: DiagramId,
    value: bool,
) -> Result<DiagramId, NoMemory>
    requires region { IsDiagramId diagrams.old region }
    requires guard { IsDiagramId diagrams.old guard }
    ensures given { IfOk result (IsRegionWhere diagrams.old diagrams.new region guard value) }
    ensures kept { OnOk result (KeepsFunctions diagrams.old diagrams.new) }
{
    if value {
        return diagrams.and(region, guard);
    }
    if guard == diagrams.constant(false) {
        return Ok(region);
    }
    and_not(diagrams, region, guard)
}

// Returns the terms, with `target` appended if `value` is true.
fn with_target(
    alloc: Global,
    terms: &[TermId],
    target: TermId,
    value: bool,
) -> Result<Vec<TermId>, NoMemory>
    ensures { IfOk result (λ v. v.items ≡ with_if value terms.now target) }
{
    let mut list = Vec::from_slice(alloc, terms)?;
    if value {
        list.push(target)?;
        return Ok(list);
    }
    Ok(list)
}

// Returns the part at the atoms of `region`, with the terms of `part` and the target of the item on the sides where it is
// wanted.
fn part_at(
    alloc: Global,
    part: &Part,
    item: &Item,
    region: DiagramId,
    left: bool,
    right: bool,
) -> Result<Part, NoMemory>
    ensures { IfOk result (λ p. (p.region ≡ region) × (p.left.items ≡ with_if left part.now.left.items item.now.target) × (p.right.items ≡ with_if right part.now.right.items item.now.target)) }
{
    let left = with_target(alloc, &part.left, item.target, left)?;
    let right = with_target(alloc, &part.right, item.target, right)?;
    Ok(Part {
        region,
        left,
        right,
    })
}

// Returns the part of `part` at which the guards of the item have these values. An empty part gets no terms: most cases
// are empty, and copies of their terms were a tenth of a walk.
fn part_where(
    alloc: Global,
    diagrams: &mut Diagrams,
    part: &Part,
    item: &Item,
    left: bool,
    right: bool,
) -> Result<Part, NoMemory>
    requires region { IsDiagramId diagrams.old part.now.region }
    requires left { IsDiagramId diagrams.old item.now.left }
    requires right { IsDiagramId diagrams.old item.now.right }
    ensures part { IfOk result (λ p. (items : List Item') (whole : ℕ) → IsPart diagrams.old items whole part.now → IsPart diagrams.new (items ++ item.now ∷ []) whole p) }
    ensures id { IfOk result (λ p. IsDiagramId diagrams.new p.region) }
    ensures there { IfOk result (λ p. (atom : Atom) → IsAtomOf diagrams.new atom → IsCase diagrams.old part.now item.now left right atom → IsTrue (value_of diagrams.new p.region atom)) }
    ensures kept { OnOk result (KeepsFunctions diagrams.old diagrams.new) }
{
    let beside = region_where(diagrams, part.region, item.left, left)?;
    let region = region_where(diagrams, beside, item.right, right)?;
    if region == diagrams.constant(false) {
        let no_left = Vec::new(alloc);
        let no_right = Vec::new(alloc);
        return Ok(Part {
            region,
            left: no_left,
            right: no_right,
        });
    }
    part_at(alloc, part, item, region, left, right)
}

// Appends the part of `part` at which the guards of the item have these values, unless it is empty.
fn add_case(
    alloc: Global,
    diagrams: &mut Diagrams,
    parts: &mut Vec<Part>,
    part: &Part,
    item: &Item,
    left: bool,
    right: bool,
) -> Result<(), NoMemory>
    requires region { IsDiagramId diagrams.old part.now.region }
    requires left { IsDiagramId diagrams.old item.now.left }
    requires right { IsDiagramId diagrams.old item.now.right }
    requires ids { HavePartIds diagrams.old parts.old.items }
    ensures parts { OnOk result ((items : List Item') (whole : ℕ) → IsPart diagrams.old items whole part.now
        → AreParts diagrams.old (items ++ item.now ∷ []) whole parts.old.items → AreParts diagrams.new (items ++ item.now ∷ []) whole parts.new.items) }
    ensures ids { OnOk result (HavePartIds diagrams.new parts.new.items) }
    ensures covers { OnOk result ((atom : Atom) → IsAtomOf diagrams.new atom
        → HasPartAt diagrams.old parts.old.items atom ⊎ IsCase diagrams.old part.now item.now left right atom → HasPartAt diagrams.new parts.new.items atom) }
    ensures kept { OnOk result (KeepsFunctions diagrams.old diagrams.new) }
{
    let case = part_where(alloc, diagrams, part, item, left, right)?;
    if case.region == diagrams.constant(false) {
        return Ok(());
    }
    append(parts, case)?;
    Ok(())
}

// Appends the parts of `part` at which the left guard of the item has the value `left`. Most items lead to their target on
// one side only; then the guard of the other side has one value.
fn add_cases(
    alloc: Global,
    diagrams: &mut Diagrams,
    parts: &mut Vec<Part>,
    part: &Part,
    item: &Item,
    left: bool,
) -> Result<(), NoMemory>
    requires region { IsDiagramId diagrams.old part.now.region }
    requires left { IsDiagramId diagrams.old item.now.left }
    requires right { IsDiagramId diagrams.old item.now.right }
    requires ids { HavePartIds diagrams.old parts.old.items }
    ensures parts { OnOk result ((items : List Item') (whole : ℕ) → IsPart diagrams.old items whole part.now
        → AreParts diagrams.old (items ++ item.now ∷ []) whole parts.old.items → AreParts diagrams.new (items ++ item.now ∷ []) whole parts.new.items) }
    ensures ids { OnOk result (HavePartIds diagrams.new parts.new.items) }
    ensures covers { OnOk result ((atom : Atom) → IsAtomOf diagrams.new atom
        → HasPartAt diagrams.old parts.old.items atom ⊎ (IsTrue (value_of diagrams.old part.now.region atom) × (value_of diagrams.old item.now.left atom ≡ left)) → HasPartAt diagrams.new parts.new.items atom) }
    ensures kept { OnOk result (KeepsFunctions diagrams.old diagrams.new) }
{
    add_case(alloc, diagrams, parts, part, item, left, false)?;
    if item.right == diagrams.constant(false) {
        return Ok(());
    }
    add_case(alloc, diagrams, parts, part, item, left, true)
}

// Appends the parts into which the guards of the item split `part`.
fn split_part(
    alloc: Global,
    diagrams: &mut Diagrams,
    parts: &mut Vec<Part>,
    part: &Part,
    item: &Item,
) -> Result<(), NoMemory>
    requires region { IsDiagramId diagrams.old part.now.region }
    requires left { IsDiagramId diagrams.old item.now.left }
    requires right { IsDiagramId diagrams.old item.now.right }
    requires ids { HavePartIds diagrams.old parts.old.items }
    ensures parts { OnOk result ((items : List Item') (whole : ℕ) → IsPart diagrams.old items whole part.now
        → AreParts diagrams.old (items ++ item.now ∷ []) whole parts.old.items → AreParts diagrams.new (items ++ item.now ∷ []) whole parts.new.items) }
    ensures ids { OnOk result (HavePartIds diagrams.new parts.new.items) }
    ensures covers { OnOk result ((atom : Atom) → IsAtomOf diagrams.new atom
        → HasPartAt diagrams.old parts.old.items atom ⊎ IsTrue (value_of diagrams.old part.now.region atom) → HasPartAt diagrams.new parts.new.items atom) }
    ensures kept { OnOk result (KeepsFunctions diagrams.old diagrams.new) }
{
    add_cases(alloc, diagrams, parts, part, item, false)?;
    if item.left == diagrams.constant(false) {
        return Ok(());
    }
    add_cases(alloc, diagrams, parts, part, item, true)
}

// Returns the parts into which the guards of the item split all `parts`.
fn split_parts(
    alloc: Global,
    diagrams: &mut Diagrams,
    parts: &[Part],
    item: &Item,
) -> Result<Vec<Part>, NoMemory>
    requires left { IsDiagramId diagrams.old item.now.left }
    requires right { IsDiagramId diagrams.old item.now.right }
    requires ids { HavePartIds diagrams.old parts.now }
    ensures parts { IfOk result (λ v. (items : List Item') (whole : ℕ) → AreParts diagrams.old items whole parts.now → AreParts diagrams.new (items ++ item.now ∷ []) whole v.items) }
    ensures ids { IfOk result (λ v. HavePartIds diagrams.new v.items) }
    ensures covers { IfOk result (λ v. (atom : Atom) → IsAtomOf diagrams.new atom → HasPartAt diagrams.old parts.now atom → HasPartAt diagrams.new v.items atom) }
    ensures kept { OnOk result (KeepsFunctions diagrams.old diagrams.new) }
{
    let mut list = Vec::new(alloc);
    for part in parts {
        split_part(alloc, diagrams, &mut list, part, item)?;
    }
    Ok(list)
}

// Sorts the parts by the size of their sets, the smallest first: pairs of small sets join larger sets, but not
// conversely.
fn order_parts(parts: &mut Vec<Part>) -> Result<(), NoMemory>
    ensures { IsPermutation parts.old.items parts.new.items }
{
    parts.sort_by_key(|part| part.left.len().saturating_add(part.right.len()))?;
    Ok(())
}

/// Splits the region, which must not be empty, by the terms to which the items lead. No part is empty. Parts with small
/// sets come first. Fails only when out of memory; on failure, extra diagrams may remain.
pub fn parts_of(
    alloc: Global,
    diagrams: &mut Diagrams,
    items: &[Item],
    region: DiagramId,
) -> Result<Vec<Part>, NoMemory>
    requires items { AreItems diagrams.old items.now }
    requires region { IsDiagramId diagrams.old region }
    requires somewhere { IsSomewhereTrue diagrams.old region }
    ensures parts { IfOk result (λ v. AreParts diagrams.new items.now region v.items) }
    ensures covers { IfOk result (λ v. (atom : Atom) → IsAtomOf diagrams.new atom → IsTrue (value_of diagrams.new region atom) → HasPartAt diagrams.new v.items atom) }
    ensures kept { OnOk result (KeepsFunctions diagrams.old diagrams.new) }
{
    let whole = Part {
        region,
        left: Vec::new(alloc),
        right: Vec::new(alloc),
    };
    let mut parts = Vec::new(alloc);
    append(&mut parts, whole)?;
    for item in items {
        parts = split_parts(alloc, diagrams, &parts, item)?;
    }
    order_parts(&mut parts)?;
    Ok(parts)
}

// Returns the atoms of the diagram `id`, together with those at which the guards of the item differ.
fn with_difference(
    diagrams: &mut Diagrams,
    id: DiagramId,
    item: &Item,
) -> Result<DiagramId, NoMemory>
    requires id { IsDiagramId diagrams.old id }
    requires left { IsDiagramId diagrams.old item.now.left }
    requires right { IsDiagramId diagrams.old item.now.right }
    ensures given { IfOk result (Distinguishes diagrams.old diagrams.new id item.now) }
    ensures kept { OnOk result (KeepsFunctions diagrams.old diagrams.new) }
{
    if item.right == diagrams.constant(false) {
        return diagrams.or(id, item.left);
    }
    if item.left == diagrams.constant(false) {
        return diagrams.or(id, item.right);
    }
    let apart = difference(diagrams, item.left, item.right)?;
    diagrams.or(id, apart)
}

/// Returns the atoms of `region` at which the items lead to different terms on the two sides. Fails only when out of
/// memory; on failure, extra diagrams may remain.
pub fn differing_part(
    diagrams: &mut Diagrams,
    items: &[Item],
    region: DiagramId,
) -> Result<DiagramId, NoMemory>
    requires items { AreItems diagrams.old items.now }
    requires region { IsDiagramId diagrams.old region }
    ensures part { IfOk result (IsPartOf diagrams.new region) }
    ensures alike { IfOk result (λ id. (atom : Atom) → IsAtomOf diagrams.new atom → IsTrue (value_of diagrams.new region atom) → IsFalse (value_of diagrams.new id atom)
        → chosen diagrams.new OnLeft items.now atom ≡ chosen diagrams.new OnRight items.now atom) }
    ensures kept { OnOk result (KeepsFunctions diagrams.old diagrams.new) }
{
    let mut apart = diagrams.constant(false);
    for item in items {
        apart = with_difference(diagrams, apart, item)?;
    }
    diagrams.and(region, apart)
}
