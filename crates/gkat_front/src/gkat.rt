//! Expressions of guarded Kleene algebra with tests.
ghost use Rattle.std.specs.Prelude.{◌≡◌, IfOk};
ghost use Rattle.kat_model.specs.Trees.{test_tree};
ghost use Rattle.kat_model.specs.Problems.{counted};
ghost use Rattle.gkat_front.specs.Expressions.{product, choice, loop, gkat_tree, gkat_size};

use kat_model::{NoMemory, Test};
use std::alloc::Global;

/// An expression of guarded Kleene algebra with tests over primitive tests and actions, which are numbered from 0
/// (Smolka et al., *Guarded Kleene algebra with tests*, 2020).
pub enum Gkat {
    Test(Test),
    Act(usize),
    Seq(Box<Gkat>, Box<Gkat>),
    /// The first expression if the test holds, and otherwise the second.
    Choice(Test, Box<Gkat>, Box<Gkat>),
    /// The expression repeated as long as the test holds.
    Loop(Test, Box<Gkat>),
}

// Explicit, so that this crate proves it once: a derived drop is a part of the proof of each function that owns an
// expression, with a case for each form at each of its ends.
impl Drop for Gkat {
    fn drop(self) {
        match self {
            Gkat::Test(_test) => {}
            Gkat::Act(_action) => {}
            Gkat::Seq(_first, _second) => {}
            Gkat::Choice(_guard, _first, _second) => {}
            Gkat::Loop(_guard, _body) => {}
        }
    }
}

impl Gkat {
    /// Builds `Seq` of two expressions. Fails only when out of memory; the parts are then dropped.
    pub fn new_seq(alloc: Global, first: Gkat, second: Gkat) -> Result<Self, NoMemory>
        ensures { IfOk result (λ e. gkat_tree e ≡ product (gkat_tree first) (gkat_tree second)) }
    {
        let first = Box::new(alloc, first)?;
        let second = Box::new(alloc, second)?;
        Ok(Gkat::Seq(first, second))
    }

    /// Builds `Choice` of a test and two expressions. Fails only when out of memory; the parts are then dropped.
    pub fn new_choice(
        alloc: Global,
        guard: Test,
        first: Gkat,
        second: Gkat,
    ) -> Result<Self, NoMemory>
        ensures { IfOk result (λ e. gkat_tree e ≡ choice (test_tree guard) (gkat_tree first) (gkat_tree second)) }
    {
        let first = Box::new(alloc, first)?;
        let second = Box::new(alloc, second)?;
        Ok(Gkat::Choice(guard, first, second))
    }

    /// Builds `Loop` of a test and an expression. Fails only when out of memory; the parts are then dropped.
    pub fn new_loop(alloc: Global, guard: Test, body: Gkat) -> Result<Self, NoMemory>
        ensures { IfOk result (λ e. gkat_tree e ≡ loop (test_tree guard) (gkat_tree body)) }
    {
        Ok(Gkat::Loop(guard, Box::new(alloc, body)?))
    }

    /// Returns the number of nodes, including those of tests, or `u64::MAX` if it is larger.
    ///
    /// Readers count a tree after it is built: no name is a term here, so a tree has at most two nodes for each token
    /// of its text.
    pub fn size(&self) -> u64
        ensures { result ≡ counted (gkat_size (gkat_tree self.now)) }
    {
        match self {
            Gkat::Test(b) => b.size().saturating_add(1),
            Gkat::Act(_) => 1,
            Gkat::Seq(e, f) => e.size().saturating_add(f.size()).saturating_add(1),
            Gkat::Choice(b, e, f) => b
                .size()
                .saturating_add(e.size())
                .saturating_add(f.size())
                .saturating_add(1),
            Gkat::Loop(b, e) => b.size().saturating_add(e.size()).saturating_add(1),
        }
    }
}
