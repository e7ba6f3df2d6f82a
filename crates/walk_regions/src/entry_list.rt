//! The pairs that a walk listed, in order, and an index of them: the place of each pair is in a list under a key of its
//! sets, so the pairs with given sets are found among the few under their key.
ghost use Rattle.std.specs.Prelude.{◌≡◌, ◌++◌, ◌∷◌, ◌<◌, [], ℕ, Some, length, slice_get, slice_index_or, MatchOption, OnOk};
ghost use Rattle.kat_model.specs.Members.{Has};
ghost use Rattle.walk_regions.specs.Entries.{EntryParts};
ghost use Rattle.walk_regions.specs.Filing.{key_from, key_of as key_of', KeepsLists};

use crate::entry::Entry;
use kat_model::NoMemory;
use std::alloc::Global;
use std::marker::Model;
use term_store::TermId;

// The number of keys.
const KEYS: usize = 4_096;

// Places of pairs.
struct PlaceList {
    places: Vec<usize>,
}

// Explicit, so that it is proved once and not at each end of each function that owns one.
impl Drop for PlaceList {
    fn drop(self) {
        let PlaceList { places: _places } = self;
    }
}

impl Model for PlaceList {
    ghost use Rattle.std.specs.Prelude.{ℕ, List};

    ghost Value = { List ℕ };

    ghost view = { λ p. p.places.items };
}

impl PlaceList {
    fn new(alloc: Global) -> PlaceList
        ensures { result ≡ [] }
    {
        PlaceList {
            places: Vec::new(alloc),
        }
    }

    fn add(&mut self, place: usize) -> Result<(), NoMemory>
        ensures added { OnOk result (Has self.new place) }
        ensures kept { (k : ℕ) → Has self.old k → Has self.new k }
    {
        self.places.push(place)?;
        Ok(())
    }

    // Returns the places.
    fn as_slice(&self) -> &[usize]
        ensures { result.now ≡ self.now }
    {
        &self.places
    }
}

/// The pairs in order, for each key the places of pairs with that key, and for each term whether it is in a pair.
pub struct EntryList {
    entries: Vec<Entry>,
    lists: Vec<PlaceList>,
    members: Vec<bool>,
}

// Explicit, so that it is proved once and not at each end of each function that owns one.
impl Drop for EntryList {
    fn drop(self) {
        let EntryList {
            entries: _entries,
            lists: _lists,
            members: _members,
        } = self;
    }
}

impl Model for EntryList {
    ghost use Rattle.walk_regions.specs.Filing.{EntryListParts, AreFiled};

    ghost Value = { EntryListParts };

    ghost view = { λ l. record { items = l.entries.items } };

    ghost invariant = { λ l. AreFiled l.entries.items l.lists.items };
}

// Returns the key of the ids, if that of the ids before them is `start`.
fn key_after(start: usize, ids: &[TermId]) -> usize
    requires { start < KEYS }
    ensures key { result ≡ key_from start ids.now }
    ensures below { result < KEYS }
{
    let mut key = start;
    for id in ids {
        key = (key * 31 + id.number() % KEYS) % KEYS;
    }
    key
}

// Returns the key of the two sets.
fn key_of(left: &[TermId], right: &[TermId]) -> usize
    ensures { result ≡ key_of' left.now right.now }
{
    let key = key_after(0, left);
    key_after(key, right)
}

// Returns the list under the key, if there is one.
fn list_under(lists: &[PlaceList], key: usize) -> Option<&PlaceList>
    ensures { MatchOption result (slice_index_or lists.now key [] ≡ []) (λ p. p.now ≡ slice_index_or lists.now key []) }
{
    lists.get(key)
}

// Appends empty lists until there is one under the key.
fn widen(alloc: Global, lists: &mut Vec<PlaceList>, key: usize) -> Result<(), NoMemory>
    ensures room { OnOk result (key < length lists.new.items) }
    ensures kept { KeepsLists lists.old.items lists.new.items }
{
    while lists.len() <= key {
        lists.push(PlaceList::new(alloc))?;
    }
    Ok(())
}

// Appends the place to the list under the key.
fn add_under(lists: &mut [PlaceList], key: usize, place: usize) -> Result<(), NoMemory>
    requires { key < length lists.old }
    ensures added { OnOk result (Has (slice_index_or lists.new key []) place) }
    ensures kept { KeepsLists lists.old lists.new }
{
    let list = &mut lists[key];
    list.add(place)
}

// Files the place under the key.
fn file(alloc: Global, lists: &mut Vec<PlaceList>, key: usize, place: usize) -> Result<(), NoMemory>
    ensures added { OnOk result (Has (slice_index_or lists.new.items key []) place) }
    ensures kept { KeepsLists lists.old.items lists.new.items }
{
    widen(alloc, lists, key)?;
    add_under(lists, key, place)
}

// Sets the flag of the term. Extends the flags so that it has one.
fn note(flags: &mut Vec<bool>, term: TermId) -> Result<(), NoMemory> {
    let number = term.number();
    while flags.len() <= number {
        flags.push(false)?;
    }
    flags[number] = true;
    Ok(())
}

// Sets the flags of the terms.
fn note_all(flags: &mut Vec<bool>, terms: &[TermId]) -> Result<(), NoMemory> {
    for term in terms {
        note(flags, *term)?;
    }
    Ok(())
}

// Files the place of the pair under the key of its sets, and sets the flags of its terms.
fn file_entry(
    alloc: Global,
    lists: &mut Vec<PlaceList>,
    members: &mut Vec<bool>,
    place: usize,
    entry: &Entry,
) -> Result<(), NoMemory>
    ensures added { OnOk result (Has (slice_index_or lists.new.items (key_of' entry.now.left entry.now.right) []) place) }
    ensures kept { KeepsLists lists.old.items lists.new.items }
{
    let left = entry.left.as_slice();
    let right = entry.right.as_slice();
    note_all(members, left)?;
    note_all(members, right)?;
    let key = key_of(left, right);
    file(alloc, lists, key, place)
}

impl EntryList {
    /// Returns an empty list. It allocates no memory.
    pub fn new(alloc: Global) -> EntryList
        ensures items { result.items ≡ [] }
    {
        EntryList {
            entries: Vec::new(alloc),
            lists: Vec::new(alloc),
            members: Vec::new(alloc),
        }
    }

    /// Returns the pairs.
    pub(crate) fn as_slice(&self) -> &[Entry]
        ensures { result.now ≡ self.now.items }
    {
        &self.entries
    }

    /// Returns the pair at `place`.
    pub fn at(&self, place: usize) -> &Entry
        requires { place < length self.now.items }
        ensures { result.now ≡ slice_index_or self.now.items place result.now }
    {
        let entries = self.as_slice();
        &entries[place]
    }

    /// Returns the number of pairs.
    pub fn len(&self) -> usize
        ensures { result ≡ length self.now.items }
    {
        self.as_slice().len()
    }

    /// Whether the term is in a pair. Affects only speed.
    pub(crate) fn has_member(&self, term: TermId) -> bool {
        match self.members.get(term.number()) {
            Some(flag) => *flag,
            None => false,
        }
    }

    /// Appends the pair. Fails only when out of memory.
    pub fn push(&mut self, alloc: Global, entry: Entry) -> Result<(), NoMemory>
        ensures items { OnOk result (self.new.items ≡ self.old.items ++ entry ∷ []) }
    {
        let place = self.entries.len();
        file_entry(alloc, &mut self.lists, &mut self.members, place, &entry)?;
        self.entries.push(entry)?;
        Ok(())
    }

    /// Returns places, among them those of all pairs with these sets.
    pub(crate) fn places(&self, left: &[TermId], right: &[TermId]) -> &[usize]
        ensures { (k : ℕ) (e : EntryParts) → slice_get self.now.items k ≡ Some e → e.left ≡ left.now → e.right ≡ right.now → Has result.now k }
    {
        let key = key_of(left, right);
        match list_under(&self.lists, key) {
            Some(list) => list.as_slice(),
            None => &[],
        }
    }
}
