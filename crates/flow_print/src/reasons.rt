//! Hypotheses, each after the comment with its reason if that reason is new.
ghost use Rattle.std.specs.Prelude.{◌≡◌, ◌++◌};
ghost use Rattle.problem_file.specs.Working.Scopes.{IsPlain};
ghost use Rattle.flow_abstraction.specs.HypothesisViews.{flow_rule};
ghost use Rattle.flow_print.specs.ReasonTexts.{two_tests, three_tests, reason_text, is_same_reason};
ghost use Rattle.flow_print.specs.Working.Written.{Writes, reason_line, is_new_at, reason_lines, hypothesis_lines};

use flow_abstraction::FlowRule;
use kat_model::{NoMemory, Problem};
use problem_file::put_hyp;
use std::alloc::Global;
use text_parser::Scope;
use text_print::{put, put_numbered, put_word};

// Appends the name of a fact over two tests, and the tests.
fn put_two(alloc: Global, out: &mut Vec<u8>, name: &str, i: usize, j: usize) -> Result<(), NoMemory>
    ensures { Writes result out.old out.new (name.now ++ two_tests i j) }
{
    put_word(out, name)?;
    put_numbered(alloc, out, " t", i)?;
    put_numbered(alloc, out, " t", j)
}

// Appends the name of a fact over three tests, and the tests.
fn put_three(
    alloc: Global,
    out: &mut Vec<u8>,
    name: &str,
    i: usize,
    j: usize,
    k: usize,
) -> Result<(), NoMemory>
    ensures { Writes result out.old out.new (name.now ++ three_tests i j k) }
{
    put_two(alloc, out, name, i, j)?;
    put_numbered(alloc, out, " t", k)
}

// Appends the assignment, or the fact with its tests.
fn put_reason(alloc: Global, out: &mut Vec<u8>, rule: &FlowRule) -> Result<(), NoMemory>
    ensures { Writes result out.old out.new (reason_text (flow_rule rule.now)) }
{
    match rule {
        FlowRule::Assignment(action, test) => {
            put_numbered(alloc, out, "assign a", *action)?;
            put_numbered(alloc, out, " t", *test)
        }
        FlowRule::Order(i, j) => put_two(alloc, out, "F2", *i, *j),
        FlowRule::Equality(i, j) => put_two(alloc, out, "F3", *i, *j),
        FlowRule::ThreeWays(i, j, k) => put_three(alloc, out, "F6", *i, *j, *k),
        FlowRule::TwoIntervals(i, j) => put_two(alloc, out, "F9", *i, *j),
        FlowRule::ThreeIntervals(i, j, k) => put_three(alloc, out, "F9", *i, *j, *k),
        FlowRule::NextNumber(i, j, k) => put_three(alloc, out, "F10", *i, *j, *k),
    }
}

// Appends a comment with a reason, if the reason is new.
fn put_new_reason(
    alloc: Global,
    out: &mut Vec<u8>,
    new: bool,
    rule: &FlowRule,
) -> Result<(), NoMemory>
    ensures { Writes result out.old out.new (reason_line new rule.now) }
{
    if !new {
        return Ok(());
    }
    put(out, b"# ")?;
    put_reason(alloc, out, rule)?;
    put(out, b"\n")
}

fn same_reason(left: &FlowRule, right: &FlowRule) -> bool
    ensures { result ≡ is_same_reason (flow_rule left.now) (flow_rule right.now) }
{
    match (left, right) {
        (FlowRule::Assignment(i, j), FlowRule::Assignment(k, l)) => i == k && j == l,
        (FlowRule::Order(i, j), FlowRule::Order(k, l)) => i == k && j == l,
        (FlowRule::Equality(i, j), FlowRule::Equality(k, l)) => i == k && j == l,
        (FlowRule::ThreeWays(i, j, n), FlowRule::ThreeWays(k, l, m)) => i == k && j == l && n == m,
        (FlowRule::TwoIntervals(i, j), FlowRule::TwoIntervals(k, l)) => i == k && j == l,
        (FlowRule::ThreeIntervals(i, j, n), FlowRule::ThreeIntervals(k, l, m)) => {
            i == k && j == l && n == m
        }
        (FlowRule::NextNumber(i, j, n), FlowRule::NextNumber(k, l, m)) => {
            i == k && j == l && n == m
        }
        _ => false,
    }
}

// Returns whether the reason of hypothesis `number` is another than that of the hypothesis before it.
#[tactic(auto, using(crate::proofs::NamedNumbers::reason_there, crate::proofs::NamedNumbers::no_reason))]
fn is_new(rules: &[FlowRule], number: usize, rule: &FlowRule) -> bool
    ensures { result ≡ is_new_at rules.now number rule.now }
{
    if number == 0 {
        return true;
    }
    match rules.get(number - 1) {
        Some(before) => !same_reason(before, rule),
        None => true,
    }
}

// Appends the comment before hypothesis `number`, if its reason is new.
#[tactic(auto, using(crate::proofs::NamedNumbers::reason_there, crate::proofs::NamedNumbers::no_reason))]
fn put_comment(
    alloc: Global,
    out: &mut Vec<u8>,
    rules: &[FlowRule],
    number: usize,
) -> Result<(), NoMemory>
    ensures { Writes result out.old out.new (reason_lines rules.now number) }
{
    match rules.get(number) {
        Some(rule) => put_new_reason(alloc, out, is_new(rules, number, rule), rule),
        None => Ok(()),
    }
}

/// Appends hypotheses of a problem, each after the comment with its reason if that reason is new.
pub(crate) fn put_hyps(
    alloc: Global,
    out: &mut Vec<u8>,
    rules: &[FlowRule],
    problem: &Problem,
    scope: &Scope,
) -> Result<(), NoMemory>
    requires { IsPlain scope.now problem.now.tests problem.now.actions }
    ensures { Writes result out.old out.new (hypothesis_lines rules.now problem.now) }
{
    let hyps = problem.hyps();
    for (number, hyp) in hyps.iter().enumerate() {
        put_comment(alloc, out, rules, number)?;
        put_hyp(alloc, out, hyp, scope)?;
    }
    Ok(())
}
