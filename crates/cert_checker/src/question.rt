//! The conditions on pairs.
ghost use Rattle.std.specs.Prelude.{◌≡◌, ◌↔◌, ◌⊎◌, Some, IfOk, OnOk, ℕ};
ghost use Rattle.kat_model.specs.Members.{Has};
ghost use Rattle.cert_checker.specs.NodeTables.{IsTest};
ghost use Rattle.cert_checker.specs.Cases.{AreQueried};
ghost use Rattle.cert_checker.specs.Targets.{AreEntries};

use crate::derivatives::Targets;
use crate::index::PairIndex;
use crate::queried::{add_test, with_parts};
use crate::tables::Tables;
use certificate::{Pair, Style};
use kat_model::NoMemory;
use std::collections::BTreeSet;
use std::marker::Model;

/// One pass over the pairs: the condition on each pair, on its outputs or, if there is an action, on the sets that it leads to; with the steps
/// by the action, and the style, the pairs and the universal term for matching sets. The outputs must be the same.
pub(crate) struct ActionPass<'a> {
    pub action: Option<usize>,
    pub steps: Vec<Targets>,
    pub style: Style,
    pub pairs: &'a [Pair],
    pub index: &'a PairIndex,
    pub universal: Option<usize>,
    /// Pairs of tests: a move is forbidden if the first is true at its beginning and the second at its end. `begin` and
    /// `end` are the tests that these pairs name at the first atom, and that these and the listed pairs name at the
    /// second, with their parts.
    pub forbidden: Vec<(usize, usize)>,
    pub begin: Vec<usize>,
    pub end: Vec<usize>,
}

// Explicit, so that it is proved once and not at each end of each function that owns one.
impl Drop for ActionPass<'_> {
    fn drop(self) {
        let ActionPass {
            action: _,
            steps: _steps,
            style: _,
            pairs: _,
            index: _,
            universal: _,
            forbidden: _forbidden,
            begin: _begin,
            end: _end,
        } = self;
    }
}

impl<'a> Model for ActionPass<'a> {
    ghost use Rattle.std.specs.Prelude.{map};
    ghost use Rattle.cert_checker.specs.Questions.{ActionPassParts};

    ghost Value = { ActionPassParts };

    ghost view = { λ t. record { action = t.action; steps = map (λ x. x.entries) t.steps.items; style = t.style; pairs = t.pairs.now; index = t.index.now; universal = t.universal; forbidden = t.forbidden.items; begin = t.begin.items; end = t.end.items } };
}

/// A question about two atoms, at the beginning and the end of a move. It concerns moves that count: the test of the
/// pair is true at the first atom, and no forbidden pair has its first test true there and its second test true at the
/// second atom. For such a move the listed pairs must match the sets that the targets stand for at the first atom. In
/// the plain style some pair has exactly these sets; in the other styles the pairs whose test is true at the second
/// atom make them congruent.
pub(crate) struct Question<'a> {
    pub tables: &'a Tables,
    pub action_pass: &'a ActionPass<'a>,
    pub pair_test: Option<usize>,
    pub left: Targets,
    pub right: Targets,
    /// The tests that the targets and the pair name, with their parts.
    pub queried: Vec<usize>,
}

// Explicit, so that it is proved once and not at each end of each function that owns one.
impl Drop for Question<'_> {
    fn drop(self) {
        let Question {
            tables: _,
            action_pass: _,
            pair_test: _,
            left: _left,
            right: _right,
            queried: _asked,
        } = self;
    }
}

impl<'a> Model for Question<'a> {
    ghost use Rattle.cert_checker.specs.Questions.{QuestionParts};

    ghost Value = { QuestionParts };

    ghost view = { λ q. record { tables = q.tables.now; action_pass = q.action_pass.now; pair_test = q.pair_test; left = q.left.entries; right = q.right.entries; queried = q.queried.items } };
}

// Adds the guards of the targets.
fn add_guards(tests: &mut BTreeSet<usize>, targets: &Targets) -> Result<(), NoMemory>
    ensures { OnOk result ((k : ℕ) → Has tests.new.keys k ↔ (Has tests.old.keys k ⊎ ((e : ℕ × ℕ) × Has targets.now.entries e × (e.1 ≡ k)))) }
{
    Ok(tests.extend(targets.values())?)
}

// Returns the test of the pair and the tests that the targets name, with their parts.
fn named_tests(
    tables: &Tables,
    pair_test: Option<usize>,
    left: &Targets,
    right: &Targets,
) -> Result<Vec<usize>, NoMemory>
    requires pair_test { (k : ℕ) → pair_test ≡ Some k → IsTest tables.now k }
    requires left { AreEntries tables.now left.now.entries }
    requires right { AreEntries tables.now right.now.entries }
    ensures queried { IfOk result (λ v. AreQueried tables.now v.items) }
    ensures named { IfOk result (λ v. (k : ℕ) → (pair_test ≡ Some k) ⊎ ((e : ℕ × ℕ) × (Has left.now.entries e ⊎ Has right.now.entries e) × (e.1 ≡ k)) → Has v.items k) }
{
    let mut named = BTreeSet::new(tables.alloc());
    add_test(&mut named, pair_test)?;
    add_guards(&mut named, left)?;
    add_guards(&mut named, right)?;
    with_parts(tables, named)
}

impl<'a> Question<'a> {
    ghost use Rattle.std.specs.Prelude.{◌≡◌, ℕ, IfOk};
    ghost use Rattle.cert_checker.specs.NodeTables.{IsTest};
    ghost use Rattle.cert_checker.specs.Targets.{AreEntries};
    ghost use Rattle.cert_checker.specs.Questions.{AreNamed, IsQueriedOf};

    /// Builds the question of the pass about two sets with these targets, under a test.
    pub fn of(
        tables: &'a Tables,
        action_pass: &'a ActionPass<'a>,
        pair_test: Option<usize>,
        left: Targets,
        right: Targets,
    ) -> Result<Question<'a>, NoMemory>
        requires pair_test { (k : ℕ) → pair_test ≡ Some k → IsTest tables.now k }
        requires left { AreEntries tables.now left.entries }
        requires right { AreEntries tables.now right.entries }
        ensures question { IfOk result (IsQueriedOf tables.now action_pass.now pair_test left.entries right.entries) }
        ensures named { IfOk result (λ q. AreNamed tables.now q q.queried) }
    {
        let queried = named_tests(tables, pair_test, &left, &right)?;
        Ok(Question {
            tables,
            action_pass,
            pair_test,
            left,
            right,
            queried,
        })
    }
}
