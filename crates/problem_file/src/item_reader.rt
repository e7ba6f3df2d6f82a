//! The state that the items of a text so far have made.
ghost use Rattle.std.specs.Prelude.{length, map};
ghost use Rattle.while_lang.specs.Trees.{goal_tree};
ghost use Rattle.problem_file.specs.Working.Numbers.{AreNumbered};

use crate::goal_limit::GoalLimit;
use kat_model::{Kat, MAX_ACTIONS, MAX_TESTS, MAX_TEXT_NODES, MAX_VARS, Width};
use std::alloc::Global;
use text_parser::{Meaning, Scope, TextFault, Token};
use while_lang::{File, Goal, NamedProg};

// Reads items whose syntax was checked before.
pub(crate) struct ItemReader {
    pub(crate) alloc: Global,
    pub(crate) limit: GoalLimit,
    pub(crate) scope: Scope,
    pub(crate) tests: usize,
    pub(crate) actions: usize,
    pub(crate) vars: usize,
    pub(crate) progs: Vec<NamedProg>,
    pub(crate) hyps: Vec<Kat>,
    pub(crate) rounds: Option<u64>,
    pub(crate) width: Option<Width>,
    pub(crate) goals: Vec<Goal>,
    pub(crate) size: u64,
    pub(crate) ghost numbered: { AreNumbered scope tests actions vars (length progs.items) },
}

// Explicit, so that it is proved once and not at each end of each function that owns one.
impl Drop for ItemReader {
    fn drop(self) {
        let ItemReader {
            alloc: _,
            limit: _,
            scope: _scope,
            tests: _,
            actions: _,
            vars: _,
            progs: _progs,
            hyps: _hyps,
            rounds: _,
            width: _,
            goals: _goals,
            size: _,
        } = self;
    }
}

impl ItemReader {
    ghost use Rattle.std.specs.Prelude.{◌≡◌, Ok};
    ghost use Rattle.text_parser.specs.Parsed.{Makes};
    ghost use Rattle.text_parser.specs.ScopeParts.{IsIdentifier};
    ghost use Rattle.problem_file.specs.Files.{start, declare_test, declare_action, declare_var};
    ghost use Rattle.problem_file.specs.Files.{check_new, add_prog, grow, width_of};
    ghost use Rattle.problem_file.specs.Working.States.{state_of, Leaves};
    ghost use Rattle.problem_file.specs.Reads.{check_goal};

    pub(crate) fn new(alloc: Global, limit: GoalLimit) -> ItemReader
        ensures { state_of result ≡ start limit }
    {
        ItemReader {
            alloc,
            limit,
            scope: Scope::new(alloc),
            tests: 0,
            actions: 0,
            vars: 0,
            progs: Vec::new(alloc),
            hyps: Vec::new(alloc),
            rounds: None,
            width: None,
            goals: Vec::new(alloc),
            size: 0,
        }
    }

    // Checks that a name is not declared yet.
    pub(crate) fn check_undeclared(&self, name: &Token) -> Result<(), TextFault>
        ensures { result ≡ check_new (state_of self.now) name.now.at name.now.text.now }
    {
        match self.scope.find(name.text) {
            Some(_) => Err(TextFault::DoubleName(name.at)),
            None => Ok(()),
        }
    }

    // Declares the name of a test.
    pub(crate) fn declare_test(&mut self, name: &Token) -> Result<(), TextFault>
        requires { IsIdentifier name.now.text.now }
        ensures { Leaves result self.new (declare_test (state_of self.old) name.now.at name.now.text.now) }
    {
        self.check_undeclared(name)?;
        if self.tests >= MAX_TESTS {
            return Err(TextFault::TooMany(name.at));
        }
        self.scope.declare(name, Meaning::Test(self.tests))?;
        self.tests += 1;
        Ok(())
    }

    // Declares the name of an action.
    pub(crate) fn declare_action(&mut self, name: &Token) -> Result<(), TextFault>
        requires { IsIdentifier name.now.text.now }
        ensures { Leaves result self.new (
            declare_action (state_of self.old) name.now.at name.now.text.now
            ) }
    {
        self.check_undeclared(name)?;
        if self.actions >= MAX_ACTIONS {
            return Err(TextFault::TooMany(name.at));
        }
        self.scope.declare(name, Meaning::Action(self.actions))?;
        self.actions += 1;
        Ok(())
    }

    // Declares the name of a variable.
    pub(crate) fn declare_var(&mut self, name: &Token) -> Result<(), TextFault>
        requires { IsIdentifier name.now.text.now }
        ensures { Leaves result self.new (declare_var (state_of self.old) name.now.at name.now.text.now) }
    {
        self.check_undeclared(name)?;
        if self.vars >= MAX_VARS {
            return Err(TextFault::TooMany(name.at));
        }
        self.scope.declare(name, Meaning::Var(self.vars))?;
        self.vars += 1;
        Ok(())
    }

    // Adds a program, whose name is new.
    pub(crate) fn add_prog(&mut self, name: &Token, named: NamedProg) -> Result<(), TextFault>
        requires identifier { IsIdentifier name.now.text.now }
        requires new { check_new (state_of self.old) name.now.at name.now.text.now ≡ Ok tt }
        requires same { named.name ≡ name.now.text.now }
        ensures { Leaves result self.new (Ok (add_prog (state_of self.old) name.now.text.now named.prog named.nesting)) }
    {
        if self.progs.reserve(1).is_err() {
            return Err(TextFault::NoMemory);
        }
        self.scope.declare(name, Meaning::Prog(self.progs.len()))?;
        self.progs.push_reserved(named);
        Ok(())
    }

    // Adds `nodes` to the total of the file; `TooLarge` at `at` past the limit.
    pub(crate) fn grow(&mut self, at: usize, nodes: u64) -> Result<(), TextFault>
        ensures scope { self.new.scope ≡ self.old.scope }
        ensures value { Leaves result self.new (grow (state_of self.old) at nodes) }
    {
        let size = self.size.saturating_add(nodes);
        if size > MAX_TEXT_NODES {
            return Err(TextFault::TooLarge(at));
        }
        self.size = size;
        Ok(())
    }

    // Returns the width of the text: 64 if no item sets it.
    pub(crate) fn width(&self) -> Width
        ensures { result ≡ width_of (state_of self.now) }
    {
        self.width.unwrap_or(Width::W64)
    }

    // Returns the file with its first goal, and the goals after it.
    pub(crate) fn files(self) -> Result<(File, Vec<Goal>), TextFault>
        ensures { Makes ⊥ (λ x. (x.0, map goal_tree x.1.items)) result (check_goal (state_of self)) }
    {
        if self.goals.is_empty() {
            return Err(TextFault::NoGoal);
        }
        let width = self.width();
        let ItemReader {
            alloc: _,
            limit: _,
            scope,
            tests,
            actions,
            vars,
            progs,
            hyps,
            rounds,
            width: _,
            mut goals,
            size: _,
        } = self;
        let goal = goals.remove(0);
        let terms = scope.terms();
        let rounds = rounds.unwrap_or(1);
        let file = File {
            scope,
            tests,
            actions,
            vars,
            terms,
            progs,
            hyps,
            rounds,
            goal,
            width,
        };
        Ok((file, goals))
    }
}
