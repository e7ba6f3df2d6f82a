//! The hypotheses that a certificate uses: it is accepted for the question with those alone.
ghost use Rattle.std.specs.Prelude.{◌≡◌, true, map, IfOk, IfSome};
ghost use Rattle.kat_model.specs.Trees.{kat_tree};
ghost use Rattle.cert_checker.specs.Answers.{Shows};
ghost use Rattle.tool_explain.specs.Used.{marked, with_marked};

use abstraction::Rule;
use cert_checker::{Answer, check};
use certificate::{Cert, Evidence, Style, TestNode};
use goal_forms::{is_short, tests_only_from};
use kat_model::{Kat, NoMemory, Problem, append};
use std::alloc::Global;

// Marks the parts of a test.
fn mark_parts(marks: &mut [bool], node: &TestNode) {
    match node {
        TestNode::False | TestNode::True | TestNode::Prim(_) => {}
        TestNode::Not(x) => mark(marks, *x),
        TestNode::And(x, y) | TestNode::Or(x, y) => {
            mark(marks, *x);
            mark(marks, *y);
        }
    }
}

fn mark(marks: &mut [bool], place: usize) {
    if place < marks.len() {
        marks[place] = true;
    }
}

// Marks the tests of the pairs.
fn mark_pair_tests(marks: &mut [bool], cert: &Cert) {
    for pair in cert.pairs() {
        if let Some(test) = pair.test {
            mark(marks, test);
        }
    }
}

// Marks the tests that the marked tests are made of. A test names only earlier ones.
fn mark_all_parts(marks: &mut [bool], nodes: &[TestNode]) {
    for place in (0..nodes.len()).rev() {
        if marks.get(place) == Some(&true) {
            mark_parts(marks, &nodes[place]);
        }
    }
}

// Returns the primitive tests at the marked places.
fn marked_prims(alloc: Global, nodes: &[TestNode], marks: &[bool]) -> Result<Vec<usize>, NoMemory> {
    let mut prims = Vec::new(alloc);
    for (node, mark) in nodes.iter().zip(marks) {
        if let (TestNode::Prim(k), true) = (node, *mark) {
            prims.push(*k)?;
        }
    }
    Ok(prims)
}

// Returns the primitive tests that the tests of pairs name.
fn queried_tests(alloc: Global, cert: &Cert) -> Result<Vec<usize>, NoMemory> {
    let mut marks = vec![in alloc; false; cert.test_nodes().len()]?;
    mark_pair_tests(&mut marks, cert);
    mark_all_parts(&mut marks, cert.test_nodes());
    marked_prims(alloc, cert.test_nodes(), &marks)
}

// Marks the long hypotheses, and the short ones that depend, after each action or without one, only on tests that the
// tests of pairs name. The checker tries the same ones first.
fn likely_marks(alloc: Global, problem: &Problem, cert: &Cert) -> Result<Vec<bool>, NoMemory> {
    let known = queried_tests(alloc, cert)?;
    let mut marks = Vec::new(alloc);
    for hyp in problem.hyps() {
        marks.push(!is_short(hyp) || tests_only_from(hyp, &known, hyp.acts() == 0))?;
    }
    Ok(marks)
}

/// Returns the rules at the marked places. Fails only when out of memory.
pub(crate) fn marked_rules(
    alloc: Global,
    rules: &[Rule],
    marks: &[bool],
) -> Result<Vec<Rule>, NoMemory>
    ensures { IfOk result (λ v. v.items ≡ marked marks.now rules.now) }
{
    let mut kept = Vec::new(alloc);
    for (mark, rule) in marks.iter().zip(rules) {
        if *mark {
            append(&mut kept, *rule)?;
        }
    }
    Ok(kept)
}

/// Returns the hypotheses at the marked places. Fails only when out of memory.
pub(crate) fn marked_hyps(
    alloc: Global,
    problem: &Problem,
    marks: &[bool],
) -> Result<Vec<Kat>, NoMemory>
    ensures { IfOk result (λ v. map kat_tree v.items ≡ marked marks.now problem.now.hyps) }
{
    let mut kept = Vec::new(alloc);
    for (mark, hyp) in marks.iter().zip(problem.hyps()) {
        if *mark {
            append(&mut kept, hyp.copy(alloc)?)?;
        }
    }
    Ok(kept)
}

// Returns the question with the marked hypotheses alone.
fn with_marked(
    alloc: Global,
    problem: &Problem,
    marks: &[bool],
) -> Result<Option<Problem>, NoMemory>
    ensures { IfOk result (λ o. IfSome o (λ q. q ≡ with_marked problem.now marks.now)) }
{
    let hyps = marked_hyps(alloc, problem, marks)?;
    let (left, right) = (problem.left().copy(alloc)?, problem.right().copy(alloc)?);
    Ok(Problem::new(problem.tests(), problem.actions(), hyps, left, right).ok())
}

// Whether the evidence shows what it says of the question with the marked hypotheses alone. May say no where it does.
fn shows_with(
    alloc: Global,
    problem: &Problem,
    marks: &[bool],
    evidence: &Evidence,
) -> Result<bool, NoMemory>
    ensures { IfOk result (λ is. is ≡ true → Shows (with_marked problem.now marks.now) evidence.now) }
{
    let Some(fewer) = with_marked(alloc, problem, marks)? else {
        return Ok(false);
    };
    match check(alloc, &fewer, evidence)? {
        Answer::Accepted => Ok(true),
        Answer::Rejected(_) => Ok(false),
    }
}

// Marks all hypotheses.
fn all_marks(alloc: Global, problem: &Problem) -> Result<Vec<bool>, NoMemory>
    ensures { IfOk result (λ v. with_marked problem.now v.items ≡ problem.now) }
{
    let marks = vec![in alloc; true; problem.hyps().len()]?;
    Ok(marks)
}

/// Marks hypotheses of the question with which alone the certificate is accepted, if it is accepted with all. Which ones
/// are left out is a guess that a check confirms. Fails only when out of memory.
pub(crate) fn used_marks(
    alloc: Global,
    problem: &Problem,
    evidence: &Evidence,
    cert: &Cert,
) -> Result<Vec<bool>, NoMemory>
    requires { Shows problem.now evidence.now }
    ensures { IfOk result (λ v. Shows (with_marked problem.now v.items) evidence.now) }
{
    if cert.style() == Style::Under {
        let marks = likely_marks(alloc, problem, cert)?;
        let enough = shows_with(alloc, problem, &marks, evidence)?;
        if enough {
            return Ok(marks);
        }
    }
    all_marks(alloc, problem)
}
