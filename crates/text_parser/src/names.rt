//! A table of names and their meanings, with lookup in both directions.
ghost use Rattle.std.specs.Prelude.{◌≡◌, IsSome, IfSome, IfNone, IfErr, OnOk, OnErr, ℕ, List};
ghost use Rattle.std.specs.FinMap as map;

use crate::fault::TextFault;
use crate::meaning::Meaning;
use crate::token::Token;
use kat_model::NoMemory;
use std::alloc::Global;
use std::collections::BTreeMap;
use std::marker::Model;

// A one-to-one table: each name denotes one meaning, and each meaning has at most one name.
pub(crate) struct Names {
    alloc: Global,
    meanings: BTreeMap<String, Meaning>,
    texts: BTreeMap<Meaning, String>,
}

// Explicit, so that it is proved once and not at each end of each function that owns one.
impl Drop for Names {
    fn drop(self) {
        let Names {
            alloc: _,
            meanings: _meanings,
            texts: _texts,
        } = self;
    }
}

impl Model for Names {
    ghost use Rattle.std.specs.FinMap.{get};
    ghost use Rattle.text_parser.specs.ScopeParts.{Meanings, meanings_of};
    ghost use Rattle.text_parser.specs.Definitions.{coded_meanings};
    ghost use Rattle.text_parser.specs.Working.Names.{AreInverse, text_of};

    ghost Value = { Meanings };

    ghost coded = { coded_meanings };

    ghost view = { λ s. meanings_of s.meanings.entries };

    ghost invariant = { λ s. AreInverse (get (meanings_of s.meanings.entries)) (text_of s.texts) };
}

impl Names {
    pub(crate) fn new(alloc: Global) -> Names
        ensures { result ≡ map.empty }
    {
        Names {
            alloc,
            meanings: BTreeMap::new(alloc),
            texts: BTreeMap::new(alloc),
        }
    }

    // Returns the meaning of the name.
    pub(crate) fn meaning(&self, name: &str) -> Option<Meaning>
        ensures { result ≡ map.get self.now name.now }
    {
        self.meanings.get(name).copied()
    }

    // Returns the name that denotes the meaning.
    pub(crate) fn name(&self, meaning: Meaning) -> Option<&str>
        ensures means { IfSome result (λ name. map.get self.now name.now ≡ Some meaning) }
        ensures only { IfSome result (λ name. (other : List ℕ) → map.get self.now other ≡ Some meaning → other ≡ name.now) }
        ensures none { IfNone result ((name : List ℕ) → map.get self.now name ≡ Some meaning → ⊥) }
    {
        let name = self.texts.get(&meaning)?;
        Some(name.as_str())
    }

    // Fails with `DoubleName` at the token's place if the name is in the table.
    pub(crate) fn check_new(&self, name: &Token) -> Result<(), TextFault>
        ensures new { OnOk result (map.get self.now name.now.text.now ≡ None) }
        ensures double { IfErr result (λ fault. (fault ≡ TextFault.DoubleName name.now.at) × IsSome (map.get self.now name.now.text.now)) }
    {
        match self.meaning(name.text) {
            Some(_) => Err(TextFault::DoubleName(name.at)),
            None => Ok(()),
        }
    }

    // Inserts a name with its meaning, both of which must be new.
    pub(crate) fn insert(&mut self, name: &str, meaning: Meaning) -> Result<(), NoMemory>
        requires new_name { map.get self.old name.now ≡ None }
        requires unnamed { (other : List ℕ) → map.get self.old other ≡ Some meaning → ⊥ }
        ensures ok { OnOk result (self.new ≡ map.insert self.old name.now meaning) }
        ensures err { OnErr result (self.new ≡ self.old) }
    {
        let key = String::from_str(self.alloc, name)?;
        let text = String::from_str(self.alloc, name)?;
        self.texts.insert(meaning, text)?;
        let Ok(_) = self.meanings.insert(key, meaning) else {
            self.texts.remove(&meaning);
            return Err(NoMemory);
        };
        Ok(())
    }
}
