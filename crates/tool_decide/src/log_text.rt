//! The output of `optimise`.
ghost use Rattle.std.specs.Prelude.{◌≡◌, ◌++◌, OnOk, IfOk};
ghost use Rattle.tool_decide.specs.LogTexts.{step_line, log_text, end_line, optimised_text};

use kat_model::NoMemory;
use kat_report::put_path;
use optimiser_steps::{Ended, LogLine, Optimised};
use std::alloc::Global;
use std::fmt::Write;
use text_parser::Scope;
use while_lang::print_prog;

fn put_step(alloc: Global, out: &mut Vec<u8>, line: &LogLine) -> Result<(), NoMemory>
    ensures { OnOk result (out.new.items ≡ out.old.items ++ step_line line.now) }
{
    let step = line.step;
    out.extend_from_slice(format!(in alloc; "S{step} at ")?.as_bytes())?;
    put_path(alloc, out, &line.path)?;
    out.push(b'\n')?;
    Ok(())
}

fn put_log(alloc: Global, out: &mut Vec<u8>, log: &[LogLine]) -> Result<(), NoMemory>
    ensures { OnOk result (out.new.items ≡ out.old.items ++ log_text log.now) }
{
    for line in log {
        put_step(alloc, out, line)?;
    }
    Ok(())
}

fn end_line(ended: Ended) -> &'static [u8]
    ensures { result.now ≡ end_line ended }
{
    match ended {
        Ended::Done => b"done\n",
        Ended::TurnLimit => b"turn limit\n",
    }
}

/// Returns a line for each step that was made, how the steps ended, and the resulting program.
pub(crate) fn optimised_text(
    alloc: Global,
    scope: &Scope,
    name: &str,
    optimised: &Optimised,
) -> Result<Vec<u8>, NoMemory>
    ensures { IfOk result (λ v. v.items ≡ optimised_text scope.now name.now optimised.now.log.items optimised.now.ended optimised.now.prog) }
{
    let mut out = Vec::new(alloc);
    put_log(alloc, &mut out, &optimised.log)?;
    out.extend_from_slice(end_line(optimised.ended))?;
    out.extend_from_slice(b"prog ")?;
    out.extend_from_slice(name.as_bytes())?;
    out.push(b' ')?;
    let block = print_prog(alloc, &optimised.prog, scope)?;
    out.extend_from_slice(&block)?;
    out.push(b'\n')?;
    Ok(out)
}
