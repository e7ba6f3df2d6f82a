//! The checker.
ghost use Rattle.std.specs.Prelude.{◌≡◌, ◌↔◌, ◌<◌, ℕ, filter, map, MatchOption, IfOk, IfSome};
ghost use Rattle.kat_model.specs.Members.{Has, IsSubset};
ghost use Rattle.kat_model.specs.Trees.{kat_tree};
ghost use Rattle.kat_model.specs.Degrees.{is_long};
ghost use Rattle.term_nodes.specs.declared.TestNode.TheVariants.{Prim};
ghost use Rattle.term_nodes.specs.declared.TermNode.TheVariants.{Act};
ghost use Rattle.certificate.specs.Accepted.{IsAccepted};
ghost use Rattle.cert_checker.specs.declared.answer.Answer.TheVariants.{Accepted};
ghost use Rattle.cert_checker.specs.Answers.{Shows, FailsFirstBy, IsFoundBy, IsAnswer, finding_reason};
ghost use Rattle.cert_checker.specs.Laws.{Denotes};
ghost use Rattle.cert_checker.specs.Passes.{IsPass};
ghost use Rattle.cert_checker.specs.Working.Places.{place_reason};
ghost use Rattle.cert_checker.specs.Working.Relevant.{HasFewerHyps};

use crate::answer::{Answer, Reason};
use crate::first_pairs::begins;
use crate::index::PairIndex;
use crate::pass::Pass;
use crate::places::{Place, first_place};
use crate::range::{action_out, test_out};
use crate::relevant::queried_tests;
use certificate::{Cert, Evidence, Style};
use goal_forms::{is_short, tests_only_from};
use kat_model::{Items, Kat, NoMemory, Problem};
use std::alloc::Global;
use string_tables::{Finding, verdict};

fn reason_of_place(place: Place, style: Style) -> Reason
    ensures { result ≡ place_reason style place }
{
    let atom = Items::of(place.atom);
    match (place.action, style) {
        (None, _) => Reason::Output(place.pair, atom),
        (Some(action), Style::Under) => {
            Reason::MissingTo(place.pair, atom, action, Items::of(place.to))
        }
        (Some(action), _) => Reason::Missing(place.pair, atom, action),
    }
}

// Returns the first reason of the pairs, by a pass over them. All nodes must be in range.
fn pass_reason(pass: &mut Pass, style: Style) -> Result<Option<Reason>, NoMemory>
    requires pass { IsPass pass.old }
    requires style { style ≡ pass.old.cert.style }
    requires tests { (k : ℕ) → Has pass.old.cert.test_nodes (Prim k) → k < pass.old.problem.tests }
    requires actions { (a : ℕ) → Has pass.old.cert.term_nodes (Act a) → a < pass.old.problem.actions }
    ensures { IfOk result (λ o. MatchOption o (IsAccepted pass.old.problem pass.old.cert) (λ r. FailsFirstBy pass.old.problem pass.old.cert r)) }
{
    if !begins(pass)? {
        return Ok(Some(Reason::FirstPair));
    }
    let place = first_place(pass)?;
    Ok(place.map(|place| reason_of_place(place, style)))
}

// Returns the first reason of the pairs. All nodes must be in range.
fn pairs_reason(alloc: Global, problem: &Problem, cert: &Cert) -> Result<Option<Reason>, NoMemory>
    requires tests { (k : ℕ) → Has cert.now.test_nodes (Prim k) → k < problem.now.tests }
    requires actions { (a : ℕ) → Has cert.now.term_nodes (Act a) → a < problem.now.actions }
    ensures { IfOk result (λ o. MatchOption o (IsAccepted problem.now cert.now) (λ r. FailsFirstBy problem.now cert.now r)) }
{
    let index = PairIndex::of(alloc, cert.pairs())?;
    let mut pass = Pass::of(alloc, problem, cert, &index)?;
    pass_reason(&mut pass, cert.style())
}

// Returns the long hypotheses and those short ones that depend, after each action or without one, only on these tests.
// Which short ones are left out affects only speed.
fn kept_hyps(alloc: Global, problem: &Problem, known: &[usize]) -> Result<Vec<Kat>, NoMemory>
    ensures longs { IfOk result (λ v. filter is_long (map kat_tree v.items) ≡ filter is_long problem.now.hyps) }
    ensures fewer { IfOk result (λ v. IsSubset (map kat_tree v.items) problem.now.hyps) }
{
    let mut hyps = Vec::new(alloc);
    for hyp in problem.hyps() {
        if !is_short(hyp) || tests_only_from(hyp, known, hyp.acts() == 0) {
            hyps.push(hyp.copy(alloc)?)?;
        }
    }
    Ok(hyps)
}

// Returns the problem with its long hypotheses and with those short ones that depend, after each action or without one,
// only on tests that the tests of pairs name.
fn fewer_hyps(alloc: Global, problem: &Problem, cert: &Cert) -> Result<Option<Problem>, NoMemory>
    requires { (k : ℕ) → Has cert.now.test_nodes (Prim k) → k < problem.now.tests }
    ensures { IfOk result (λ o. IfSome o (HasFewerHyps problem.now)) }
{
    let known = queried_tests(alloc, cert, problem.tests())?;
    let hyps = kept_hyps(alloc, problem, &known)?;
    let left = problem.left().copy(alloc)?;
    let right = problem.right().copy(alloc)?;
    Ok(Problem::new(problem.tests(), problem.actions(), hyps, left, right).ok())
}

// Returns the first reason why the certificate is not accepted. Pairs under tests that are accepted with fewer
// hypotheses are accepted; other pairs are judged with all hypotheses, so that the reason is the first.
fn cert_reason(alloc: Global, problem: &Problem, cert: &Cert) -> Result<Option<Reason>, NoMemory>
    ensures { IfOk result (λ o. MatchOption o (IsAccepted problem.now cert.now) (λ r. FailsFirstBy problem.now cert.now r)) }
{
    if let Some(k) = test_out(cert.test_nodes(), problem.tests()) {
        return Ok(Some(Reason::TestNode(k)));
    }
    if let Some(k) = action_out(cert.term_nodes(), problem.actions()) {
        return Ok(Some(Reason::TermNode(k)));
    }
    if let (Style::Under, Some(fewer)) = (cert.style(), fewer_hyps(alloc, problem, cert)?) {
        if pairs_reason(alloc, &fewer, cert)?.is_none() {
            return Ok(None);
        }
    }
    pairs_reason(alloc, problem, cert)
}

// Returns the reason why a string with this finding does not refute the problem.
fn string_reason(finding: Finding) -> Option<Reason>
    ensures { result ≡ finding_reason finding }
{
    match finding {
        Finding::Refutes(_) => None,
        Finding::Shape(k) => Some(Reason::Shape(k)),
        Finding::HypBroken(h, i, j) => Some(Reason::HypBroken(h, i, j)),
        Finding::EndsAgree(_) => Some(Reason::EndsAgree),
    }
}

// Returns the first reason why the evidence does not show its claim.
fn first_reason(
    alloc: Global,
    problem: &Problem,
    evidence: &Evidence,
) -> Result<Option<Reason>, NoMemory>
    ensures { IfOk result (λ o. MatchOption o (Shows problem.now evidence.now) (λ r. IsFoundBy problem.now evidence.now r)) }
{
    match evidence {
        Evidence::Equal(cert) => cert_reason(alloc, problem, cert),
        Evidence::Different(string) => Ok(string_reason(verdict(alloc, problem, string)?)),
    }
}

/// Checks whether the evidence shows its claim about the problem. Returns `Accepted` if and only if the certificate is
/// accepted or the string refutes the problem, otherwise `Rejected` with the first reason. Makes no assumption about
/// the origin of the evidence. Fails only when out of memory.
///
/// The reason follows the order of `Reason`: the certificate or the string fails by it, and by no earlier reason.
pub fn check(alloc: Global, problem: &Problem, evidence: &Evidence) -> Result<Answer, NoMemory>
    ensures accepted { IfOk result (λ answer. (answer ≡ Accepted) ↔ Shows problem.now evidence.now) }
    ensures answer { IfOk result (λ answer. IsAnswer problem.now evidence.now answer) }

    // The claim of accepted evidence is true: both sides are the same, or they are not.
    ensures shown { IfOk result (λ answer. answer ≡ Accepted → Denotes problem.now evidence.now) }
{
    match first_reason(alloc, problem, evidence)? {
        None => Ok(Answer::Accepted),
        Some(reason) => Ok(Answer::Rejected(reason)),
    }
}
