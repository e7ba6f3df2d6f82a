//! The state after the items of a text so far.
ghost use Rattle.problem_file.specs.Working.Numbers.{AreNumbered};

use crate::file::GkatFile;
use crate::gkat::Gkat;
use crate::item_reading::{GkatDeclared, GkatItemReading};
use crate::making::MakeExpr;
use crate::walk::read_expr;
use kat_model::{MAX_ACTIONS, MAX_TERM_NODES, MAX_TESTS};
use std::alloc::Global;
use text_parser::{Meaning, Scope, TextFault, Token};

// Reads items that passed the syntax test.
pub(crate) struct GkatReader {
    alloc: Global,
    pub(crate) scope: Scope,
    pub(crate) tests: usize,
    pub(crate) actions: usize,
    pub(crate) sides: Option<(Gkat, Gkat)>,
    ghost numbered: { AreNumbered scope tests actions 0 0 },
}

// Explicit, so that it is proved once and not at each end of each function that owns one.
impl Drop for GkatReader {
    fn drop(self) {
        let GkatReader {
            alloc: _,
            scope: _scope,
            tests: _,
            actions: _,
            sides: _sides,
        } = self;
    }
}

impl GkatReader {
    ghost use Rattle.std.specs.Prelude.{◌≡◌};
    ghost use Rattle.text_parser.specs.Parsed.{Makes};
    ghost use Rattle.text_parser.specs.ScopeParts.{IsIdentifier};
    ghost use Rattle.problem_file.specs.Working.Walks.{Does};
    ghost use Rattle.gkat_front.specs.Files.{start, check_new, declare_test, declare_action, file_of};
    ghost use Rattle.gkat_front.specs.FileViews.{file_parts};
    ghost use Rattle.gkat_front.specs.Working.States.{state_of};

    pub(crate) fn new(alloc: Global) -> GkatReader
        ensures { state_of result ≡ start }
    {
        GkatReader {
            alloc,
            scope: Scope::new(alloc),
            tests: 0,
            actions: 0,
            sides: None,
        }
    }

    // Checks that a name is not declared yet.
    fn check_new(&self, name: &Token) -> Result<(), TextFault>
        ensures { result ≡ check_new self.now.scope name.now.at name.now.text.now }
    {
        match self.scope.find(name.text) {
            Some(_) => Err(TextFault::DoubleName(name.at)),
            None => Ok(()),
        }
    }

    // Declares the name of a test.
    fn declare_test(&mut self, name: &Token) -> Result<(), TextFault>
        requires { IsIdentifier name.now.text.now }
        ensures { Does (Unit {0}) result (state_of self.new) (declare_test (state_of self.old) name.now.at name.now.text.now) }
    {
        self.check_new(name)?;
        if self.tests >= MAX_TESTS {
            return Err(TextFault::TooMany(name.at));
        }
        self.scope.declare(name, Meaning::Test(self.tests))?;
        self.tests += 1;
        Ok(())
    }

    // Declares the name of an action.
    fn declare_action(&mut self, name: &Token) -> Result<(), TextFault>
        requires { IsIdentifier name.now.text.now }
        ensures { Does (Unit {0}) result (state_of self.new) (declare_action (state_of self.old) name.now.at name.now.text.now) }
    {
        self.check_new(name)?;
        if self.actions >= MAX_ACTIONS {
            return Err(TextFault::TooMany(name.at));
        }
        self.scope.declare(name, Meaning::Action(self.actions))?;
        self.actions += 1;
        Ok(())
    }

    // Returns the contents of the text, once all items are read.
    pub(crate) fn file(self) -> Result<GkatFile, TextFault>
        ensures { Makes ⊥ file_parts result (file_of (state_of self)) }
    {
        let GkatReader {
            alloc: _,
            scope,
            tests,
            actions,
            sides,
        } = self;
        match sides {
            None => Err(TextFault::NoGoal),
            Some((left, right)) => Ok(GkatFile {
                scope,
                tests,
                actions,
                left,
                right,
            }),
        }
    }
}

impl GkatItemReading for GkatReader {
    type Expr = Gkat;

    ghost use Rattle.gkat_front.specs.Expressions.{GkatTree, gkat_tree};
    ghost use Rattle.gkat_front.specs.Files.{GkatState};
    ghost use Rattle.gkat_front.specs.Making.{making};
    ghost use Rattle.gkat_front.specs.Working.States.{state_of};

    ghost S = { GkatState };

    ghost V = { GkatTree };

    ghost memory = { Unit {0} };

    ghost state = { state_of };

    ghost expr = { gkat_tree };

    ghost actions = { making };

    fn read_expr(&self, toks: &[Token], from: usize) -> Result<(Gkat, usize), TextFault> {
        let make = MakeExpr {
            alloc: self.alloc,
            scope: &self.scope,
        };
        read_expr(&make, toks, from, 0)
    }

    fn declare(&mut self, what: GkatDeclared, name: &Token) -> Result<(), TextFault> {
        match what {
            GkatDeclared::Test => self.declare_test(name),
            GkatDeclared::Action => self.declare_action(name),
        }
    }

    fn begin_equal(&self, at: usize) -> Result<(), TextFault> {
        match self.sides {
            Some(_) => Err(TextFault::TwoGoals(at)),
            None => Ok(()),
        }
    }

    // A tree has at most two nodes for each token of its text, since a name denotes a single test or action. It is
    // therefore counted after it is built.
    fn pose(&mut self, at: usize, left: Gkat, right: Gkat) -> Result<(), TextFault> {
        if left.size() > MAX_TERM_NODES || right.size() > MAX_TERM_NODES {
            return Err(TextFault::TooLarge(at));
        }
        self.sides = Some((left, right));
        Ok(())
    }
}
