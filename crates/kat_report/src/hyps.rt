//! Hypotheses, each after the comment with its rule if that rule is new.
ghost use Rattle.std.specs.Prelude.{◌≡◌, ◌++◌, None, OnOk};
ghost use Rattle.std.specs.List.{zip};
ghost use Rattle.problem_file.specs.Working.Scopes.{IsPlain};
ghost use Rattle.kat_report.specs.Shows.{conjunction_line, rule_text, rule_comment, is_new, hyps_text};

use abstraction::Rule;
use kat_model::{NoMemory, Problem};
use problem_file::put_hyp;
use std::alloc::Global;
use text_parser::Scope;
use text_print::{put, put_numbered, put_word};

// Writes the name of a rule over two tests, and the tests.
fn put_fact(
    alloc: Global,
    out: &mut Vec<u8>,
    name: &str,
    i: usize,
    j: usize,
) -> Result<(), NoMemory>
    ensures { OnOk result (out.new.items ≡ out.old.items ++ (name.now ++ conjunction_line i ++ conjunction_line j)) }
{
    put_word(out, name)?;
    put_numbered(alloc, out, " t", i)?;
    put_numbered(alloc, out, " t", j)
}

fn put_rule(alloc: Global, out: &mut Vec<u8>, rule: Rule) -> Result<(), NoMemory>
    ensures { OnOk result (out.new.items ≡ out.old.items ++ rule_text rule) }
{
    match rule {
        Rule::Stated(k) => put_numbered(alloc, out, "stated ", k),
        Rule::Assign(i, j) => {
            put_numbered(alloc, out, "assign a", i)?;
            put_numbered(alloc, out, " t", j)
        }
        Rule::F1(i, j) => put_fact(alloc, out, "F1", i, j),
        Rule::F2(i, j) => put_fact(alloc, out, "F2", i, j),
        Rule::F3(i, j) => put_fact(alloc, out, "F3", i, j),
        Rule::F4(i, j) => put_fact(alloc, out, "F4", i, j),
        Rule::F5(i, j) => put_fact(alloc, out, "F5", i, j),
        Rule::F6(i, j, k) => {
            put_fact(alloc, out, "F6", i, j)?;
            put_numbered(alloc, out, " t", k)
        }
    }
}

// Writes the rule of a hypothesis, if it is new.
fn put_rule_comment(alloc: Global, out: &mut Vec<u8>, new: bool, rule: Rule) -> Result<(), NoMemory>
    ensures { OnOk result (out.new.items ≡ out.old.items ++ rule_comment new rule) }
{
    if !new {
        return Ok(());
    }
    put(out, b"# ")?;
    put_rule(alloc, out, rule)?;
    put(out, b"\n")
}

fn is_new(before: Option<Rule>, rule: Rule) -> bool
    ensures { result ≡ is_new before rule }
{
    match before {
        None => true,
        Some(before) => before != rule,
    }
}

/// Writes the hypotheses of a problem over the plain scope of the problem, each after the comment with its rule if that
/// rule is new.
pub(crate) fn put_hyps(
    alloc: Global,
    out: &mut Vec<u8>,
    rules: &[Rule],
    problem: &Problem,
    scope: &Scope,
) -> Result<(), NoMemory>
    requires { IsPlain scope.now problem.now.tests problem.now.actions }
    ensures { OnOk result (out.new.items ≡ out.old.items ++ hyps_text None (zip rules.now problem.now.hyps)) }
{
    let mut before = None;
    for (rule, hyp) in rules.iter().zip(problem.hyps()) {
        put_rule_comment(alloc, out, is_new(before, *rule), *rule)?;
        put_hyp(alloc, out, hyp, scope)?;
        before = Some(*rule);
    }
    Ok(())
}
