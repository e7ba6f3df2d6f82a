//! Scopes: the meanings of names.
ghost use Rattle.std.specs.Prelude.{◌≡◌, length, slice_get, false, IfSome, IfNone, OnOk, OnErr, IfErr};
ghost use Rattle.std.specs.Option.{option_map};
ghost use Rattle.kat_model.specs.Trees.{kat_tree};
ghost use Rattle.text_parser.specs.declared.token.Kind.TheVariants.{Name};
ghost use Rattle.text_parser.specs.Kinds.{IsToken};
ghost use Rattle.text_parser.specs.Keywords.{is_keyword};
ghost use Rattle.text_parser.specs.ScopeParts.{meaning, IsWellFormed, IsNameOf, IsUnnamed, IsUndeclared, empty_scope, is_term, declared, defined, IsRefusal};
ghost use Rattle.text_parser.specs.Definitions.{definition_of};

use crate::definition::Definition;
use crate::fault::TextFault;
use crate::meaning::Meaning;
use crate::names::Names;
use crate::token::Token;
use kat_model::Kat;
use std::alloc::Global;
use std::marker::Model;

/// The declared names with their meanings, and the defined terms. All kinds share one name space.
pub struct Scope {
    names: Names,
    definitions: Vec<Definition>,
}

// Explicit, so that it is proved once and not at each end of each function that owns one.
impl Drop for Scope {
    fn drop(self) {
        let Scope {
            names: _names,
            definitions: _definitions,
        } = self;
    }
}

impl Model for Scope {
    ghost use Rattle.std.specs.Prelude.{map};
    ghost use Rattle.std.specs.Coded.{codes};
    ghost use Rattle.kat_model.specs.Codes.{coded_term};
    ghost use Rattle.text_parser.specs.ScopeParts.{ScopeParts, IsWellFormed};
    ghost use Rattle.text_parser.specs.Definitions.{definition_of, coded_meanings};

    ghost Value = { ScopeParts };

    ghost coded = { Prim.hlevel (codes, coded_term, coded_meanings) };

    ghost view = { λ s. record { meanings = s.names; terms = map definition_of s.definitions.items } };

    ghost invariant = { λ s. IsWellFormed (record { meanings = s.names; terms = map definition_of s.definitions.items }) };
}

impl Scope {
    /// Creates a scope without names.
    pub fn new(alloc: Global) -> Scope
        ensures { result ≡ empty_scope }
    {
        Scope {
            names: Names::new(alloc),
            definitions: Vec::new(alloc),
        }
    }

    /// Returns the meaning of the name, or `None` if and only if the name is not declared.
    pub fn find(&self, text: &str) -> Option<Meaning>
        ensures value { result ≡ meaning self.now text.now }
        ensures well_formed { IsWellFormed self.now }
    {
        self.names.meaning(text)
    }

    /// Returns the one name that denotes the meaning, or `None` if and only if no name does.
    pub fn name(&self, meaning: Meaning) -> Option<&str>
        ensures named { IfSome result (λ text. IsNameOf self.now text.now meaning) }
        ensures unnamed { IfNone result (IsUnnamed self.now meaning) }
    {
        self.names.name(meaning)
    }

    /// Declares a name. The token must be a name, as from [`crate::lexer::tokens`], and not a keyword. The meaning must
    /// not be a term, and no name may denote it yet (see [`Scope::name`]). Fails with `DoubleName` at the token's place
    /// if and only if the name is declared, whatever it denotes. Otherwise fails only when out of memory. On failure
    /// the scope is unchanged.
    pub fn declare(&mut self, name: &Token, meaning: Meaning) -> Result<(), TextFault>
        requires name { IsToken Name name.now.text.now }
        requires no_keyword { is_keyword name.now.text.now ≡ false }
        requires no_term { is_term meaning ≡ false }
        requires unnamed { IsUnnamed self.old meaning }
        ensures ok { OnOk result (self.new ≡ declared self.old name.now.text.now meaning) }
        ensures fresh { OnOk result (IsUndeclared self.old name.now.text.now) }
        ensures err { OnErr result (self.new ≡ self.old) }
        ensures cause { IfErr result (IsRefusal self.old name.now) }
    {
        self.names.check_new(name)?;
        self.names.insert(name.text, meaning)?;
        Ok(())
    }

    /// Defines a term and its name. The term's number is the number of terms defined before it. `nesting` is that of
    /// the phrase that defines the term. Requirements on the token and failures are those of [`Scope::declare`]; a
    /// failure drops the tree.
    pub fn define_term(&mut self, name: &Token, tree: Kat, nesting: usize) -> Result<(), TextFault>
        requires name { IsToken Name name.now.text.now }
        requires no_keyword { is_keyword name.now.text.now ≡ false }
        ensures ok { OnOk result (self.new ≡ defined self.old name.now.text.now (record { tree = kat_tree tree; nesting = nesting })) }
        ensures fresh { OnOk result (IsUndeclared self.old name.now.text.now) }
        ensures err { OnErr result (self.new ≡ self.old) }
        ensures cause { IfErr result (IsRefusal self.old name.now) }
    {
        self.names.check_new(name)?;
        if self.definitions.reserve(1).is_err() {
            return Err(TextFault::NoMemory);
        }
        self.names
            .insert(name.text, Meaning::Term(self.definitions.len()))?;
        self.definitions
            .push_reserved(Definition::new(tree, nesting));
        Ok(())
    }

    /// Returns the number of defined terms.
    pub fn terms(&self) -> usize
        ensures { result ≡ length self.now.terms }
    {
        self.definitions.len()
    }

    // Returns the defined term with number `i`.
    pub(crate) fn definition(&self, i: usize) -> Option<&Definition>
        ensures { option_map (λ d. definition_of d.now) result ≡ slice_get self.now.terms i }
    {
        self.definitions.get(i)
    }
}
