//! A table of names and what they mean.
ghost use Rattle.std.specs.Prelude.{◌≡◌, OnOk};
ghost use Rattle.std.specs.FinMap.{empty, get, insert};
ghost use Rattle.flow_text.specs.ScopeViews.{names_of};

use crate::meaning::Meaning;
use kat_model::NoMemory;
use std::alloc::Global;
use std::collections::BTreeMap;

pub(crate) struct Names {
    alloc: Global,
    pub(crate) meanings: BTreeMap<String, Meaning>,
}

// Explicit, so that it is proved once and not at each end of each function that owns a table.
impl Drop for Names {
    fn drop(self) {
        let Names {
            alloc: _,
            meanings: _meanings,
        } = self;
    }
}

impl Names {
    pub(crate) fn new(alloc: Global) -> Names
        ensures { names_of result ≡ empty }
    {
        Names {
            alloc,
            meanings: BTreeMap::new(alloc),
        }
    }

    // Returns what the name means.
    pub(crate) fn meaning(&self, name: &str) -> Option<Meaning>
        ensures { result ≡ get (names_of self.now) name.now }
    {
        self.meanings.get(name).copied()
    }

    // Gives the name a meaning. Fails only when out of memory.
    pub(crate) fn insert(&mut self, name: &str, meaning: Meaning) -> Result<(), NoMemory>
        ensures { OnOk result (names_of self.new ≡ insert (names_of self.old) name.now meaning) }
    {
        let key = String::from_str(self.alloc, name)?;
        self.meanings.insert(key, meaning)?;
        Ok(())
    }
}
