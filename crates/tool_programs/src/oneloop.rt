//! `oneloop`: replies to a text and the name of a program with a form of that program with one loop.
ghost use Rattle.std.specs.Prelude.{◌≡◌, ◌≢◌, ◌<◌, ◌≤◌, ◌+◌, ℕ, List, Some, true, IfOk};
ghost use Rattle.kat_model.specs.declared.limits.TheConstants.{MAX_VARS};
ghost use Rattle.text_parser.specs.declared.meaning.Meaning.TheVariants.{Var};
ghost use Rattle.text_parser.specs.ScopeParts.{declared, IsUnnamed, IsWellFormed};
ghost use Rattle.text_print.specs.Printing.{name_of};
ghost use Rattle.while_lang.specs.Programs.{is_concrete};
ghost use Rattle.one_loop.specs.declared.fault.OneLoopFault.TheVariants.{NoMemory as NoRoom};
ghost use Rattle.one_loop.specs.Forms.{IsOneForm};
ghost use Rattle.one_loop.specs.Sizes.{IsSmallForm};
ghost use Rattle.one_loop.specs.Variables.{HasVarsBelow};
ghost use Rattle.problem_file.specs.ProgramTexts.{one_program_text};
ghost use Rattle.while_lang.specs.Files.{FileParts};
ghost use Rattle.problem_file.specs.Reads.{Reads};
ghost use Rattle.while_lang.specs.Ranges.{IsNumbered};
ghost use Rattle.tool_commands.specs.ProgramWords.{program_of};
ghost use Rattle.tool_programs.specs.FormFaults.{form_fault_line};
ghost use Rattle.tool_programs.specs.OneLoop.{HasForm, HasNoForm, IsCounterName, FormsFile, OneLoopHeadline, OneLoopReply};
ghost use Rattle.tool_inputs.specs.Steps.{IsRefusal};
ghost use Rattle.tool_inputs.specs.ReplySpecs.{EndsWith, Yields, RepliesWith};

use crate::counter::counter_name;
use crate::form_fault::form_fault_line;
use kat_model::{NoMemory, Width};
use one_loop::{OneLoopFault, one_loop};
use problem_file::{declare, one_program_text};
use std::alloc::Global;
use text_parser::{Meaning, Scope};
use tool_commands::program_of;
use tool_inputs::{EarlyEnd, FileCommand, Reply, reply_to_bytes, unfit_end};
use while_lang::{File, Prog};

// The reply to a program with this fault, which is a refusal unless memory ran out.
fn fault_end(alloc: Global, fault: OneLoopFault) -> EarlyEnd
    ensures { EndsWith (λ status output. (status ≡ 2) × ((fault ≢ NoRoom) × (output ≡ form_fault_line fault))) result }
{
    match fault {
        OneLoopFault::NoMemory => EarlyEnd::NoMemory,
        _ => match form_fault_line(alloc, fault) {
            Ok(output) => EarlyEnd::Replied(Reply { status: 2, output }),
            Err(NoMemory) => EarlyEnd::NoMemory,
        },
    }
}

// Returns a form of a program of the file. A program without a form is refused.
fn form_of(alloc: Global, file: &File, prog: &Prog) -> Result<Prog, EarlyEnd>
    requires concrete { is_concrete prog.now ≡ true }
    requires variables { HasVarsBelow file.now.vars prog.now }
    requires within { file.now.vars ≤ MAX_VARS }
    ensures { Yields (λ form. HasForm file.now prog.now × IsOneForm file.now.width prog.now form file.now.vars × IsSmallForm prog.now form) (IsRefusal (HasNoForm file.now prog.now)) result }
{
    match one_loop(alloc, prog, file.vars, file.width) {
        Ok(form) => Ok(form),
        Err(fault) => Err(fault_end(alloc, fault)),
    }
}

// Returns the text of a form. Declares the counter in the file's scope, which then has all names of the form.
fn form_text(
    alloc: Global,
    scope: &mut Scope,
    vars: usize,
    width: Width,
    name: &str,
    form: &Prog,
) -> Result<Vec<u8>, NoMemory>
    requires unnamed { IsUnnamed scope.old (Var vars) }
    requires place { vars < MAX_VARS }
    ensures { IfOk result (λ text. (counter : List ℕ) × IsCounterName scope.old counter × IsWellFormed scope.old
        × (text.items ≡ one_program_text (name_of (declared scope.old counter (Var vars))) width (vars + 1) name.now form.now)) }
{
    let counter = counter_name(alloc, scope)?;
    declare(scope, counter.as_str(), Meaning::Var(vars))?;
    one_program_text(alloc, scope, width, vars + 1, name, form)
}

// Returns the reply to a file and a name. The counter is declared in the scope of the file.
fn program_reply(alloc: Global, file: &mut File, name: &str) -> Result<Reply, EarlyEnd>
    requires numbered { IsNumbered file.old }
    requires unnamed { IsUnnamed file.old.scope (Var file.old.vars) }
    ensures { RepliesWith (FormsFile file.old name.now) result }
{
    let Some(prog) = program_of(file, name) else {
        return Err(unfit_end(alloc));
    };
    let form = form_of(alloc, file, prog)?;
    let vars = file.vars;
    let width = file.width;
    Ok(Reply {
        status: 0,
        output: form_text(alloc, &mut file.scope, vars, width, name, &form)?,
    })
}

/// `oneloop` FILE PROG
#[derive(Clone, Copy)]
pub struct OneLoopCommand<'a> {
    pub prog: &'a str,
}

impl FileCommand for OneLoopCommand<'_> {
    ghost use Rattle.tool_programs.specs.Working.OneLoopReplies.{one_loop_reply};

    ghost steps = { λ c f. FormsFile f c.prog.now };

    ghost replies = { λ c text. OneLoopReply text c.prog.now };

    fn file_reply(&self, alloc: Global, file: &mut File) -> Result<Reply, EarlyEnd> {
        program_reply(alloc, file, self.prog)
    }

    ghost is_reply = { λ c text. one_loop_reply text c.prog.now };
}

/// Returns the reply of `oneloop` to the bytes of a text and the name of a program. If the text is read, the status is
/// 0 exactly when a concrete program of the text has the name, there are fewer than 64 variables, and the number of
/// statements is at most the greatest number of the width. Then the text of a form of the program is printed, which has
/// one loop and an additional variable, and which ends in the same stores. It is 2 exactly when there are too many
/// variables or statements, with the line that says so, and 7 exactly when no concrete program of the text has the
/// name. If the text is not read, it is 2, with the line that gives the reason. Fails only when out of memory.
pub fn one_loop_bytes(alloc: Global, text: &[u8], prog: &str) -> Result<Reply, NoMemory>
    ensures headline { (f : FileParts) → Reads text.now f
        → IfOk result (λ r. OneLoopHeadline f prog.now r.status r.output.items) }
    ensures reply { IfOk result (λ r. OneLoopReply text.now prog.now r.status r.output.items) }
{
    let reply = reply_to_bytes(alloc, &OneLoopCommand { prog }, text)?;
    Ok(reply)
}
