//! The paths of statements.
ghost use Rattle.std.specs.Prelude.{◌≡◌, ◌++◌, OnOk};
ghost use Rattle.kat_report.specs.Paths.{dotted, path_text};

use kat_model::NoMemory;
use std::alloc::Global;
use text_print::put_numbered;

fn put_dotted(alloc: Global, out: &mut Vec<u8>, path: &[usize]) -> Result<(), NoMemory>
    ensures { OnOk result (out.new.items ≡ out.old.items ++ dotted path.now) }
{
    for k in path {
        put_numbered(alloc, out, ".", *k)?;
    }
    Ok(())
}

/// Appends the path of a statement: its numbers with dots between them. Fails only when out of memory.
pub fn put_path(alloc: Global, out: &mut Vec<u8>, path: &[usize]) -> Result<(), NoMemory>
    ensures { OnOk result (out.new.items ≡ out.old.items ++ path_text path.now) }
{
    match path {
        [] => Ok(()),
        [first, rest @ ..] => {
            put_numbered(alloc, out, "", *first)?;
            put_dotted(alloc, out, rest)
        }
    }
}
