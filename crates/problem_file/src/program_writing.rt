//! Writes the text of one program with the names of a scope. Each function fails only when out of memory; a part may
//! then be written.
ghost use Rattle.std.specs.Prelude.{◌≡◌, ◌++◌, OnOk, IfOk};
ghost use Rattle.text_print.specs.Printing.{name_of};
ghost use Rattle.problem_file.specs.ProgramTexts.{width_text, vars_text, prog_text, equal_text, one_program_text};

use kat_model::{NoMemory, Width};
use std::alloc::Global;
use text_parser::{Meaning, Scope};
use text_print::{put, put_name};
use while_lang::{Prog, put_block};

fn put_width(out: &mut Vec<u8>, width: Width) -> Result<(), NoMemory>
    ensures { OnOk result (out.new.items ≡ out.old.items ++ width_text width) }
{
    match width {
        Width::W8 => put(out, b"width 8;\n"),
        Width::W16 => put(out, b"width 16;\n"),
        Width::W32 => put(out, b"width 32;\n"),
        Width::W64 => put(out, b"width 64;\n"),
    }
}

// Appends the declaration of `count` variables, or nothing if there are none.
fn put_vars(out: &mut Vec<u8>, scope: &Scope, count: usize) -> Result<(), NoMemory>
    ensures { OnOk result (out.new.items ≡ out.old.items ++ vars_text (name_of scope.now) count) }
{
    if count == 0 {
        return Ok(());
    }
    put(out, b"var")?;
    put(out, b" ")?;
    put_name(out, scope, Meaning::Var(0))?;
    for k in 1..count {
        put(out, b", ")?;
        put_name(out, scope, Meaning::Var(k))?;
    }
    put(out, b";\n")
}

fn put_prog(
    alloc: Global,
    out: &mut Vec<u8>,
    scope: &Scope,
    name: &str,
    prog: &Prog,
) -> Result<(), NoMemory>
    ensures { OnOk result (out.new.items ≡ out.old.items ++ prog_text (name_of scope.now) name.now prog.now) }
{
    put(out, b"prog ")?;
    put(out, name.as_bytes())?;
    put(out, b" ")?;
    put_block(alloc, out, prog, scope)?;
    put(out, b"\n")
}

// Appends the goal that equates the program of that name with itself.
fn put_equal(out: &mut Vec<u8>, name: &str) -> Result<(), NoMemory>
    ensures { OnOk result (out.new.items ≡ out.old.items ++ equal_text name.now name.now) }
{
    put(out, b"goal equal ")?;
    put(out, name.as_bytes())?;
    put(out, b", ")?;
    put(out, name.as_bytes())?;
    put(out, b";\n")
}

/// Returns the text of one program over the first `vars` variables of the scope, with the goal that it equals itself:
/// `width W; var NAMES; prog NAME BLOCK goal equal NAME, NAME;`, with one item a line.
pub fn one_program_text(
    alloc: Global,
    scope: &Scope,
    width: Width,
    vars: usize,
    name: &str,
    prog: &Prog,
) -> Result<Vec<u8>, NoMemory>
    ensures { IfOk result (λ v. v.items ≡ one_program_text (name_of scope.now) width vars name.now prog.now) }
{
    let mut out = Vec::new(alloc);
    put_width(&mut out, width)?;
    put_vars(&mut out, scope, vars)?;
    put_prog(alloc, &mut out, scope, name, prog)?;
    put_equal(&mut out, name)?;
    Ok(out)
}
