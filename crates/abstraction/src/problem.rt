//! The problem of a file.
ghost use Rattle.std.specs.Prelude.{◌≡◌};

use crate::rows::{ActionRow, TestRow};
use crate::rule::Rule;
use kat_model::{Problem, Width};
use std::marker::Model;

/// The problem of a file, with the meanings of its tests, actions and hypotheses, by their numbers.
pub struct Abstract {
    pub problem: Problem,
    /// The meaning of each action: the declared ones, then the assignments of the goal.
    pub actions: Vec<ActionRow>,
    /// The meaning of each test: the declared ones, the comparisons of the goal, and those that the rounds add.
    pub tests: Vec<TestRow>,
    /// The reason for each hypothesis.
    pub rules: Vec<Rule>,
    /// The width of the numbers in the file.
    pub width: Width,
}

// Explicit, so that this crate proves it once: a derived drop is a part of the proof of each function that owns an
// abstraction, at each of its ends.
impl Drop for Abstract {
    fn drop(self) {
        let Abstract {
            problem: _problem,
            actions: _actions,
            tests: _tests,
            rules: _rules,
            width: _,
        } = self;
    }
}

impl Model for Abstract {
    ghost use Rattle.std.specs.Coded.{codes};
    ghost use Rattle.kat_model.specs.Codes.{coded_term};
    ghost use Rattle.linear_forms.specs.Codes.{coded_form};
    ghost use Rattle.abstraction.specs.Abstracts.{AbstractParts};

    ghost Value = { AbstractParts };

    ghost coded = { Prim.hlevel (codes, coded_term, coded_form) };

    ghost view = { λ a. record {
      problem = a.problem;
      actions = a.actions.items;
      tests = a.tests.items;
      rules = a.rules.items;
      width = a.width;
    } };
}

impl Abstract {
    /// Returns the problem, and drops the rest.
    pub fn into_problem(self) -> Problem
        ensures { result ≡ self.problem }
    {
        let Abstract {
            problem,
            actions: _actions,
            tests: _tests,
            rules: _rules,
            width: _,
        } = self;
        problem
    }
}
