//! A check whether two terms are tests that are true at the same atoms.
ghost use Rattle.std.specs.Prelude.{◌≡◌, ◌↔◌, IsTrue, IfOk};
ghost use Rattle.kat_model.specs.Trees.{kat_tree, is_test};
ghost use Rattle.kat_model.specs.Steps.{out};
ghost use Rattle.kat_model.specs.Problems.{HasTestsBelow};
ghost use Rattle.test_diagrams.specs.Functions.{IsDiagramOf, KeepsFunctions};
ghost use Rattle.test_diagrams.specs.Reduced.{IsReduced};
ghost use Rattle.chain_rules.specs.Chains.{equation};
ghost use Rattle.chain_rules.specs.Axioms.{AreEqualTests};

use kat_model::{Kat, NoMemory};
use std::alloc::Global;
use test_diagrams::{DiagramId, Diagrams};

// Returns the diagram of the atoms that the term accepts.
fn diagram_of(diagrams: &mut Diagrams, term: &Kat) -> Result<DiagramId, NoMemory>
    requires in_range { HasTestsBelow diagrams.old.tests (kat_tree term.now) }
    ensures function { IfOk result (λ id. IsDiagramOf diagrams.new id (out (kat_tree term.now))) }
    ensures kept { KeepsFunctions diagrams.old diagrams.new }
    ensures reduced { IsReduced diagrams.new }
{
    match term {
        Kat::Zero | Kat::Act(_) => Ok(diagrams.constant(false)),
        Kat::One | Kat::Star(_) => Ok(diagrams.constant(true)),
        Kat::Test(b) => diagrams.of_test(b),
        Kat::Sum(e, f) => {
            let left = diagram_of(diagrams, e)?;
            let right = diagram_of(diagrams, f)?;
            diagrams.or(left, right)
        }
        Kat::Seq(e, f) => {
            let first = diagram_of(diagrams, e)?;
            let second = diagram_of(diagrams, f)?;
            diagrams.and(first, second)
        }
    }
}

// Whether the terms are true at the same atoms. They must be tests.
fn have_one_diagram(diagrams: &mut Diagrams, left: &Kat, right: &Kat) -> Result<bool, NoMemory>
    requires is_left { IsTrue (is_test (kat_tree left.now)) }
    requires is_right { IsTrue (is_test (kat_tree right.now)) }
    requires left { HasTestsBelow diagrams.old.tests (kat_tree left.now) }
    requires right { HasTestsBelow diagrams.old.tests (kat_tree right.now) }
    ensures { IfOk result (λ same. IsTrue same ↔ AreEqualTests diagrams.old.tests (equation (kat_tree left.now) (kat_tree right.now))) }
{
    let first = diagram_of(diagrams, left)?;
    let second = diagram_of(diagrams, right)?;
    Ok(first == second)
}

/// Whether the terms are tests, without actions and stars, and are true at the same atoms of `tests` tests.
pub(crate) fn are_equal_tests(
    alloc: Global,
    tests: usize,
    left: &Kat,
    right: &Kat,
) -> Result<bool, NoMemory>
    requires left { HasTestsBelow tests (kat_tree left.now) }
    requires right { HasTestsBelow tests (kat_tree right.now) }
    ensures { IfOk result (λ same. IsTrue same ↔ AreEqualTests tests (equation (kat_tree left.now) (kat_tree right.now))) }
{
    if !left.is_test() || !right.is_test() {
        return Ok(false);
    }
    let mut diagrams = Diagrams::new(alloc, tests)?;
    have_one_diagram(&mut diagrams, left, right)
}
