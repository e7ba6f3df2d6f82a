//! An abstraction as the text of a problem.
ghost use Rattle.std.specs.Prelude.{◌≡◌, [], IfOk, OnOk};
ghost use Rattle.problem_file.specs.Working.Scopes.{IsPlain};
ghost use Rattle.kat_report.specs.Shows.{show_text};

use crate::hyps::put_hyps;
use crate::rows::{put_action_comments, put_test_comments};
use abstraction::Abstract;
use kat_model::NoMemory;
use problem_file::{plain_scope, put_actions, put_goal, put_tests};
use std::alloc::Global;
use text_parser::Scope;
use while_lang::File;

// Writes the text of the problem to an empty list, given a scope with its names.
fn put_text(
    alloc: Global,
    out: &mut Vec<u8>,
    file: &File,
    shown: &Abstract,
    plain: &Scope,
) -> Result<(), NoMemory>
    requires empty { out.old.items ≡ [] }
    requires plain { IsPlain plain.now shown.now.problem.tests shown.now.problem.actions }
    ensures { OnOk result (out.new.items ≡ show_text file.now.scope shown.now) }
{
    let problem = &shown.problem;
    put_test_comments(alloc, out, &shown.tests, &file.scope)?;
    put_tests(alloc, out, problem.tests())?;
    put_action_comments(alloc, out, &shown.actions, &file.scope)?;
    put_actions(alloc, out, problem.actions())?;
    put_hyps(alloc, out, &shown.rules, problem, plain)?;
    put_goal(alloc, out, problem.left(), problem.right(), plain)
}

// Returns the text of the problem, given a scope with its names.
fn text_in(alloc: Global, file: &File, shown: &Abstract, plain: &Scope) -> Result<Vec<u8>, NoMemory>
    requires { IsPlain plain.now shown.now.problem.tests shown.now.problem.actions }
    ensures { IfOk result (λ v. v.items ≡ show_text file.now.scope shown.now) }
{
    let mut out = Vec::new(alloc);
    put_text(alloc, &mut out, file, shown, plain)?;
    Ok(out)
}

/// Returns the problem of an abstraction as the text of a problem file, one item per line. Comments give the meaning of
/// each test and each action with the names of the file, and the reason for each hypothesis, once for adjacent
/// hypotheses with the same reason. Tests are named `t0`, `t1`, .. and actions `a0`, `a1`, .. in the text. Fails only
/// when out of memory.
pub fn show_text(alloc: Global, file: &File, shown: &Abstract) -> Result<Vec<u8>, NoMemory>
    ensures { IfOk result (λ v. v.items ≡ show_text file.now.scope shown.now) }
{
    let problem = &shown.problem;
    let plain = plain_scope(alloc, problem.tests(), problem.actions())?;
    text_in(alloc, file, shown, &plain)
}
