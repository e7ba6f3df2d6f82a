//! Whether the first pair of a certificate is the closed sides, under a test that is true at each allowed atom.
ghost use Rattle.std.specs.Prelude.{◌≡◌, ◌↔◌, None, IsTrue, IfOk, length};
ghost use Rattle.kat_model.specs.Steps.{Atom};
ghost use Rattle.kat_model.specs.AllowedMoves.{IsAllowedAtom};
ghost use Rattle.cert_checker.specs.NodeTables.{IsTest, holds_at};
ghost use Rattle.cert_checker.specs.Passes.{IsPass, PassGrows, IsActionPass};
ghost use Rattle.cert_checker.specs.Roots.{counted_short};
ghost use Rattle.cert_checker.specs.Answers.{Begins};

use crate::cases::least_failure;
use crate::derivatives::empty_product;
use crate::known::TestCase;
use crate::pass::Pass;
use crate::question::{ActionPass, Question};
use kat_model::NoMemory;

// Whether the test is true at each allowed atom, by the pass without an action.
fn holds_in(pass: &mut Pass, action_pass: &ActionPass, test: usize) -> Result<bool, NoMemory>
    requires pass { IsPass pass.old }
    requires action_pass { IsActionPass pass.old action_pass.now }
    requires outputs { action_pass.now.action ≡ None }
    requires is_test { IsTest pass.old.tables test }
    ensures holds { IfOk result (λ b. IsTrue b ↔ ((atom : Atom) → length atom ≡ pass.old.problem.tests → IsAllowedAtom (counted_short pass.old.cert.style pass.old.problem) atom → IsTrue (holds_at pass.old.tables test atom))) }
    ensures grows { PassGrows pass.old pass.new }
{
    let always = pass.tables.constant(true)?;
    let left = empty_product(&mut pass.tables, test)?;
    let right = empty_product(&mut pass.tables, always)?;
    let mut case = TestCase::new(pass.tables.alloc(), pass.tables.width())?;
    let question = Question::of(&pass.tables, action_pass, None, left, right)?;
    Ok(least_failure(&question, &mut case, None)?.is_none())
}

// Whether the test is true at each allowed atom.
fn holds_throughout(pass: &mut Pass, test: usize) -> Result<bool, NoMemory>
    requires pass { IsPass pass.old }
    requires is_test { IsTest pass.old.tables test }
    ensures holds { IfOk result (λ b. IsTrue b ↔ ((atom : Atom) → length atom ≡ pass.old.problem.tests → IsAllowedAtom (counted_short pass.old.cert.style pass.old.problem) atom → IsTrue (holds_at pass.old.tables test atom))) }
    ensures grows { PassGrows pass.old pass.new }
{
    let action_pass = pass.action_pass(None)?;
    holds_in(pass, &action_pass, test)
}

/// Whether the first pair is the two closed sides, each as a set of one term, under a test that is true at each
/// allowed atom.
pub(crate) fn begins(pass: &mut Pass) -> Result<bool, NoMemory>
    requires { IsPass pass.old }
    ensures begins { IfOk result (λ b. IsTrue b ↔ Begins pass.old.cert.style pass.old.problem pass.old.cert) }
    ensures grows { PassGrows pass.old pass.new }
{
    let cert = pass.cert;
    let Some(pair) = cert.pairs().first() else {
        return Ok(false);
    };
    if pair.left.as_slice() != [pass.parts.left].as_slice()
        || pair.right.as_slice() != [pass.parts.right].as_slice()
    {
        return Ok(false);
    }
    match pair.test {
        Some(test) => holds_throughout(pass, test),
        None => Ok(true),
    }
}
