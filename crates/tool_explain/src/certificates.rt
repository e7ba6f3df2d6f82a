//! What a certificate says, in a few lines.
ghost use Rattle.std.specs.Prelude.{◌≡◌, ◌++◌, [], None, codes, if◌then◌else◌, length, map, OnOk, IfOk};
ghost use Rattle.std.specs.Fmt.{decimal};
ghost use Rattle.std.specs.List.{zip};
ghost use Rattle.kat_model.specs.Trees.{kat_tree};
ghost use Rattle.text_print.specs.Printing.{name_of};
ghost use Rattle.kat_report.specs.Shows.{is_new};
ghost use Rattle.certificate.specs.Accepted.{IsAccepted};
ghost use Rattle.tool_explain.specs.Certificates.{style_text, pairs_line, counts_text, used_text, count_line, known_test, known_action, pair_text, rule_line, rules_text, ExplainsCertificate};

use crate::signed::{put_action_at, put_test_at};
use crate::used::{marked_hyps, marked_rules, used_marks};
use abstraction::{Abstract, Rule};
use certificate::{Cert, Evidence, Style};
use kat_model::{Kat, NoMemory};
use problem_file::put_hyp;
use std::alloc::Global;
use text_parser::Scope;
use text_print::{put, put_numbered};
use while_lang::File;

fn style_text(style: Style) -> &'static [u8]
    ensures { result.now ≡ style_text style }
{
    match style {
        Style::Plain => b", closed under all steps\n",
        Style::UpTo => b", closed under steps up to congruence\n",
        Style::Under => b" under tests, closed under steps up to congruence\n",
    }
}

fn put_pairs_line(alloc: Global, out: &mut Vec<u8>, cert: &Cert) -> Result<(), NoMemory>
    ensures { OnOk result (out.new.items ≡ out.old.items ++ pairs_line cert.now) }
{
    put_numbered(alloc, out, "equal: pairs ", cert.pairs().len())?;
    put(out, style_text(cert.style()))
}

// Writes the number of hypotheses, and how many of them are stated.
fn put_counts(alloc: Global, out: &mut Vec<u8>, hyps: usize, stated: usize) -> Result<(), NoMemory>
    ensures { OnOk result (out.new.items ≡ out.old.items ++ counts_text hyps stated) }
{
    put_numbered(alloc, out, "hypotheses ", hyps)?;
    put_numbered(alloc, out, ", stated ", stated)
}

fn put_used(alloc: Global, out: &mut Vec<u8>, used: usize) -> Result<(), NoMemory>
    ensures { OnOk result (out.new.items ≡ out.old.items ++ used_text used) }
{
    put_numbered(alloc, out, ", used ", used)?;
    put(out, b"\n")
}

fn put_count_line(
    alloc: Global,
    out: &mut Vec<u8>,
    file: &File,
    shown: &Abstract,
    used: usize,
) -> Result<(), NoMemory>
    ensures { OnOk result (out.new.items ≡ out.old.items ++ count_line file.now shown.now used) }
{
    put_counts(alloc, out, shown.problem.hyps().len(), file.hyps.len())?;
    put_used(alloc, out, used)
}

fn put_known(
    alloc: Global,
    out: &mut Vec<u8>,
    shown: &Abstract,
    test: usize,
    scope: &Scope,
) -> Result<(), NoMemory>
    ensures { OnOk result (out.new.items ≡ out.old.items ++ known_test (name_of scope.now) shown.now test) }
{
    put_test_at(alloc, out, shown.width, shown.tests.get(test), scope)
}

fn put_known_action(
    alloc: Global,
    out: &mut Vec<u8>,
    shown: &Abstract,
    action: usize,
    scope: &Scope,
) -> Result<(), NoMemory>
    ensures { OnOk result (out.new.items ≡ out.old.items ++ known_action (name_of scope.now) shown.now action) }
{
    put_action_at(alloc, out, shown.width, shown.actions.get(action), scope)
}

fn put_pair(
    alloc: Global,
    out: &mut Vec<u8>,
    shown: &Abstract,
    first: usize,
    second: usize,
    scope: &Scope,
) -> Result<(), NoMemory>
    ensures { OnOk result (out.new.items ≡ out.old.items ++ pair_text (name_of scope.now) shown.now first second) }
{
    put(out, b"known together: ")?;
    put_known(alloc, out, shown, first, scope)?;
    put(out, b", ")?;
    put_known(alloc, out, shown, second, scope)
}

// Writes what is known of an assignment and a comparison.
fn put_assigned(
    alloc: Global,
    out: &mut Vec<u8>,
    shown: &Abstract,
    action: usize,
    test: usize,
    scope: &Scope,
) -> Result<(), NoMemory>
    ensures { OnOk result (out.new.items ≡ out.old.items ++ (codes "known after " ++ known_action (name_of scope.now) shown.now action ++ codes ": " ++ known_test (name_of scope.now) shown.now test)) }
{
    put(out, b"known after ")?;
    put_known_action(alloc, out, shown, action, scope)?;
    put(out, b": ")?;
    put_known(alloc, out, shown, test, scope)
}

// Writes the line of a hypothesis.
fn put_rule(
    alloc: Global,
    out: &mut Vec<u8>,
    shown: &Abstract,
    rule: Rule,
    hyp: &Kat,
    scope: &Scope,
) -> Result<(), NoMemory>
    ensures { OnOk result (out.new.items ≡ out.old.items ++ rule_line (name_of scope.now) shown.now rule (kat_tree hyp.now)) }
{
    match rule {
        Rule::Stated(_) => return put_hyp(alloc, out, hyp, scope),
        Rule::Assign(i, j) => put_assigned(alloc, out, shown, i, j, scope)?,
        Rule::F1(i, j) | Rule::F2(i, j) | Rule::F3(i, j) | Rule::F4(i, j) | Rule::F5(i, j) => {
            put_pair(alloc, out, shown, i, j, scope)?
        }
        Rule::F6(i, j, k) => {
            put_pair(alloc, out, shown, i, j, scope)?;
            put(out, b", ")?;
            put_known(alloc, out, shown, k, scope)?
        }
    }
    put(out, b"\n")
}

fn is_new(before: Option<Rule>, rule: Rule) -> bool
    ensures { result ≡ is_new before rule }
{
    match before {
        None => true,
        Some(before) => before != rule,
    }
}

// Writes the line of a hypothesis whose rule is new.
fn put_new_rule(
    alloc: Global,
    out: &mut Vec<u8>,
    shown: &Abstract,
    new: bool,
    rule: Rule,
    hyp: &Kat,
    scope: &Scope,
) -> Result<(), NoMemory>
    ensures { OnOk result (out.new.items ≡ out.old.items ++ (if new then rule_line (name_of scope.now) shown.now rule (kat_tree hyp.now) else [])) }
{
    if !new {
        return Ok(());
    }
    put_rule(alloc, out, shown, rule, hyp, scope)
}

// Writes the lines of hypotheses with their rules.
fn put_rules(
    alloc: Global,
    out: &mut Vec<u8>,
    shown: &Abstract,
    rules: &[Rule],
    hyps: &[Kat],
    scope: &Scope,
) -> Result<(), NoMemory>
    ensures { OnOk result (out.new.items ≡ out.old.items ++ rules_text (name_of scope.now) shown.now None (zip rules.now (map kat_tree hyps.now))) }
{
    let mut before = None;
    for (rule, hyp) in rules.iter().zip(hyps) {
        put_new_rule(alloc, out, shown, is_new(before, *rule), *rule, hyp, scope)?;
        before = Some(*rule);
    }
    Ok(())
}

// Writes what the certificate says, with the used hypotheses and their rules.
fn put_certificate(
    alloc: Global,
    out: &mut Vec<u8>,
    file: &File,
    shown: &Abstract,
    cert: &Cert,
    rules: &[Rule],
    hyps: &[Kat],
) -> Result<(), NoMemory>
    ensures { OnOk result (out.new.items ≡ out.old.items ++ (pairs_line cert.now ++ count_line file.now shown.now (length hyps.now) ++ rules_text (name_of file.now.scope) shown.now None (zip rules.now (map kat_tree hyps.now)))) }
{
    put_pairs_line(alloc, out, cert)?;
    put_count_line(alloc, out, file, shown, hyps.len())?;
    put_rules(alloc, out, shown, rules, hyps, &file.scope)
}

/// Returns the number of pairs of an accepted certificate, how they are connected, and the hypotheses with which alone it
/// is accepted, in the words of the file. Fails only when out of memory.
pub(crate) fn certificate_text(
    alloc: Global,
    file: &File,
    shown: &Abstract,
    evidence: &Evidence,
    cert: &Cert,
) -> Result<Vec<u8>, NoMemory>
    requires cert { evidence.now ≡ Evidence.Equal cert.now }
    requires accepted { IsAccepted shown.now.problem cert.now }
    ensures { IfOk result (λ text. ExplainsCertificate file.now shown.now cert.now text.items) }
{
    let marks = used_marks(alloc, &shown.problem, evidence, cert)?;
    let rules = marked_rules(alloc, &shown.rules, &marks)?;
    let hyps = marked_hyps(alloc, &shown.problem, &marks)?;
    let mut out = Vec::new(alloc);
    put_certificate(alloc, &mut out, file, shown, cert, &rules, &hyps)?;
    Ok(out)
}
