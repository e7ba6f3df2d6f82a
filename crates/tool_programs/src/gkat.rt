//! `gkat`: replies to a text of GKAT with the problem that it asks, as the text of a problem file.
ghost use Rattle.std.specs.Prelude.{◌≡◌, ◌++◌, IfOk, OnOk};
ghost use Rattle.text_parser.specs.ScopeParts.{IsWellFormed};
ghost use Rattle.text_print.specs.Printing.{name_of};
ghost use Rattle.problem_file.specs.NamedTexts.{names_line};
ghost use Rattle.gkat_front.specs.FileViews.{file_parts};
ghost use Rattle.gkat_front.specs.Reads.{Reads, FirstFault};
ghost use Rattle.tool_programs.specs.Gkat.{gkat_text, GkatHeadline, GkatReply};
ghost use Rattle.tool_inputs.specs.TextProblem.{IsFaultOf};
ghost use Rattle.tool_inputs.specs.Steps.{IsRefusal};
ghost use Rattle.tool_programs.specs.Working.Kinds.{kind_word, kind_meaning};
ghost use Rattle.tool_inputs.specs.ReplySpecs.{Yields};

use gkat_front::{GkatFile, kat_of, read_gkat};
use kat_model::NoMemory;
use problem_file::put_goal;
use std::alloc::Global;
use text_parser::{Meaning, Scope};
use text_print::{put, put_name};
use tool_inputs::{EarlyEnd, Reply, TextCommand, reply_to_text, text_fault_end};

// The kinds of names that a text of GKAT declares.
#[derive(Clone, Copy)]
enum Kind {
    Test,
    Action,
}

impl Kind {
    fn word(self) -> &'static [u8]
        ensures { result.now ≡ kind_word self }
    {
        match self {
            Kind::Test => b"test",
            Kind::Action => b"action",
        }
    }

    fn meaning(self, k: usize) -> Meaning
        ensures { result ≡ kind_meaning self k }
    {
        match self {
            Kind::Test => Meaning::Test(k),
            Kind::Action => Meaning::Action(k),
        }
    }
}

// Appends the declaration of the first `count` names of a kind, or nothing if `count` is 0.
fn put_names(out: &mut Vec<u8>, scope: &Scope, kind: Kind, count: usize) -> Result<(), NoMemory>
    ensures { OnOk result (out.new.items ≡ out.old.items ++ names_line (kind_word kind) (name_of scope.now) (kind_meaning kind) count) }
{
    if count == 0 {
        return Ok(());
    }
    put(out, kind.word())?;
    put(out, b" ")?;
    put_name(out, scope, kind.meaning(0))?;
    for k in 1..count {
        put(out, b", ")?;
        put_name(out, scope, kind.meaning(k))?;
    }
    put(out, b";\n")?;
    Ok(())
}

fn translation(alloc: Global, file: &GkatFile) -> Result<Vec<u8>, NoMemory>
    ensures { IfOk result (λ v. v.items ≡ gkat_text (file_parts file.now)) }
{
    let mut out = Vec::new(alloc);
    put_names(&mut out, &file.scope, Kind::Test, file.tests)?;
    put_names(&mut out, &file.scope, Kind::Action, file.actions)?;
    let left = kat_of(alloc, &file.left)?;
    let right = kat_of(alloc, &file.right)?;
    put_goal(alloc, &mut out, &left, &right, &file.scope)?;
    Ok(out)
}

// Shows that the names of a file are identifiers.
fn know_names(file: &GkatFile)
    ensures { IsWellFormed file.now.scope }
{
    let _ = file.scope.find("t0");
}

// Reads a text of GKAT. A text with a first fault is refused with the line of the fault.
fn file_of(alloc: Global, text: &[u8]) -> Result<GkatFile, EarlyEnd>
    ensures { Yields (λ f. Reads text.now (file_parts f)) (IsRefusal (IsFaultOf (FirstFault text.now))) result }
{
    match read_gkat(alloc, text) {
        Ok(file) => Ok(file),
        Err(fault) => Err(text_fault_end(alloc, fault)),
    }
}

/// `gkat` FILE
#[derive(Clone, Copy)]
pub struct GkatCommand;

impl TextCommand for GkatCommand {
    ghost use Rattle.tool_programs.specs.Working.GkatReplies.{gkat_long};

    ghost replies = { λ _. GkatReply };

    fn text_reply(&self, alloc: Global, text: &[u8]) -> Result<Reply, EarlyEnd> {
        let file = file_of(alloc, text)?;
        know_names(&file);
        Ok(Reply {
            status: 0,
            output: translation(alloc, &file)?,
        })
    }

    ghost refuses_long = { λ _. gkat_long };
}

/// Returns the reply of `gkat` to the bytes of a text of GKAT. The status is 0 exactly when the text is read; then the
/// output is a text with the terms of both expressions. If the terms are within the limit of a problem, and the output is
/// within the limits of a text, it asks exactly whether they are equal. Otherwise the status is 2, with the line of the
/// first fault. Fails only when out of memory.
pub fn gkat_bytes(alloc: Global, text: &[u8]) -> Result<Reply, NoMemory>
    ensures headline { IfOk result (λ r. GkatHeadline text.now r.status r.output.items) }
    ensures reply { IfOk result (λ r. GkatReply text.now r.status r.output.items) }
{
    let reply = reply_to_text(alloc, &GkatCommand, text)?;
    Ok(reply)
}
