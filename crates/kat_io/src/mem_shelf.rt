//! A shelf in memory, of which chosen calls fail.
ghost use Rattle.std.specs.Prelude.{◌≡◌, ◌∷◌, [], ◌++◌, ◌≤◌, ◌^◌, ◌<◌, ℕ, List, None, OnOk, OnErr, MatchOption, IsTrue, false, ◌↔◌, string_bytes};
ghost use Rattle.std.specs.FinMap as map;
ghost use Rattle.kat_io.specs.Gets.{IsCounted, GetsFrom};
ghost use Rattle.std.specs.Option.{option_copied};
ghost use Rattle.kat_io.specs.Shelves.{contents_of, gives, after_fault, Leaves};

use crate::mem_sink::more;
use crate::outside::{GetFault, Shelf};
use kat_model::NoMemory;
use std::alloc::Global;
use std::collections::BTreeMap;
use std::marker::Model;

/// Contents in memory.
pub struct MemShelf {
    alloc: Global,
    files: BTreeMap<String, Vec<u8>>,
    schedule: Vec<u64>,
    calls: u64,
    faults: u64,
    last: Option<String>,
}

// Explicit, so that it is proved once and not at each end of each function that owns one.
impl Drop for MemShelf {
    fn drop(self) {
        let MemShelf {
            alloc: _,
            files: _files,
            schedule: _schedule,
            calls: _,
            faults: _,
            last: _last,
        } = self;
    }
}

impl Model for MemShelf {
    ghost use Rattle.std.specs.Prelude.{string_bytes};
    ghost use Rattle.std.specs.Option.{option_map};
    ghost use Rattle.std.specs.Coded.{codes};
    ghost use Rattle.kat_io.specs.Shelves.{ShelfState, contents_of, coded_contents};

    ghost Value = { ShelfState };

    ghost coded = { Prim.hlevel (codes, coded_contents) };

    ghost view = { λ s. record { files = contents_of s.files.entries; schedule = s.schedule.items; calls = s.calls; faults = s.faults; last = option_map string_bytes s.last } };
}

// Returns whether the number of bytes is past the limit.
pub(crate) fn is_past(count: usize, limit: Option<u64>) -> bool
    ensures { MatchOption limit (result ≡ false) (λ most. IsTrue result ↔ (most < count)) }
{
    match limit {
        None => false,
        Some(most) => count as u64 > most,
    }
}

// Returns the content of a name.
fn content_of<'a>(files: &'a BTreeMap<String, Vec<u8>>, name: &str) -> Option<&'a [u8]>
    ensures { option_copied result ≡ map.get (contents_of files.now.entries) name.now }
{
    match files.get(name) {
        Some(bytes) => Some(bytes.as_slice()),
        None => None,
    }
}

impl MemShelf {
    /// Returns an empty shelf with no planned failure and no fault so far.
    pub fn new(alloc: Global) -> MemShelf
        ensures { result ≡ record { files = map.empty; schedule = []; calls = 0; faults = 0; last = None } }
    {
        MemShelf {
            alloc,
            files: BTreeMap::new(alloc),
            schedule: Vec::new(alloc),
            calls: 0,
            faults: 0,
            last: None,
        }
    }

    /// Sets the content of a name. When out of memory, the shelf is unchanged.
    pub fn add(&mut self, name: &str, bytes: &[u8]) -> Result<(), NoMemory>
        ensures ok { OnOk result (self.new ≡ record self.old { files = map.insert self.old.files name.now bytes.now }) }
        ensures err { OnErr result (self.new ≡ self.old) }
    {
        let name = String::from_str(self.alloc, name)?;
        let bytes = bytes.to_vec(self.alloc)?;
        self.files.insert(name, bytes)?;
        Ok(())
    }

    /// Plans that the call of this number fails, counted from 0. When out of memory, the shelf is unchanged.
    pub fn fail_at(&mut self, call: u64) -> Result<(), NoMemory>
        ensures ok { OnOk result (self.new ≡ record self.old { schedule = self.old.schedule ++ call ∷ [] }) }
        ensures err { OnErr result (self.new ≡ self.old) }
    {
        self.schedule.push(call)?;
        Ok(())
    }

    // Counts a call that failed on a name.
    fn fail(&mut self, name: String)
        ensures after { self.new ≡ after_fault self.old (string_bytes name) }
        ensures later { self.old.faults ≤ self.new.faults }
    {
        self.calls = more(self.calls);
        self.faults = more(self.faults);
        self.last = Some(name);
    }
}

impl Shelf for MemShelf {
    ghost content = { gives };

    ghost faults = { λ s. s.faults };

    ghost last_failed = { λ s. s.last };

    fn get(&mut self, alloc: Global, name: &str, limit: Option<u64>) -> Result<Vec<u8>, GetFault>
        ensures cause { IsCounted result name.now self.old.faults self.new.faults self.old.last self.new.last }
        ensures whole { GetsFrom (gives self.old name.now) result limit }
        ensures kept { (other : List ℕ) → gives self.new other ≡ gives self.old other }

        // Only a call that is due and a missing name are faults. Out of memory changes nothing.
        ensures state { Leaves result self.old name.now self.new }
    {
        let copy = String::from_str(self.alloc, name)?;
        let due = self.schedule.contains(&self.calls);
        match content_of(&self.files, name) {
            Some(bytes) if !due => {
                if is_past(bytes.len(), limit) {
                    self.calls = more(self.calls);
                    return Err(GetFault::TooLong);
                }
                let content = bytes.to_vec(alloc)?;
                self.calls = more(self.calls);
                Ok(content)
            }
            Some(_) => {
                self.fail(copy);
                Err(GetFault::Failed)
            }
            None => {
                self.fail(copy);
                Err(GetFault::Failed)
            }
        }
    }
}
