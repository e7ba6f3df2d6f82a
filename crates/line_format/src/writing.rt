//! Writes lines and numbers.
ghost use Rattle.std.specs.Prelude.{◌≡◌, ◌∷◌, ◌++◌, map, OnOk};
ghost use Rattle.std.specs.Fmt.{decimal};
ghost use Rattle.line_format.specs.Lines.{after_blanks, with_feed};

use kat_model::NoMemory;
use std::alloc::Global;

/// Appends a line and its line feed. Fails only when out of memory.
pub fn put_line(out: &mut Vec<u8>, line: &[u8]) -> Result<(), NoMemory>
    ensures { OnOk result (out.new.items ≡ out.old.items ++ with_feed line.now) }
{
    out.extend_from_slice(line)?;
    out.push(b'\n')?;
    Ok(())
}

/// Appends a number after a blank. Fails only when out of memory.
pub fn put_number(alloc: Global, out: &mut Vec<u8>, number: usize) -> Result<(), NoMemory>
    ensures { OnOk result (out.new.items ≡ out.old.items ++ 32 ∷ decimal number) }
{
    let word = format!(in alloc; " {number}")?;
    out.extend_from_slice(word.as_bytes())?;
    Ok(())
}

/// Appends each number after a blank. Fails only when out of memory.
pub fn put_numbers(alloc: Global, out: &mut Vec<u8>, numbers: &[usize]) -> Result<(), NoMemory>
    ensures { OnOk result (out.new.items ≡ out.old.items ++ after_blanks (map decimal numbers.now)) }
{
    for number in numbers {
        put_number(alloc, out, *number)?;
    }
    Ok(())
}

/// Appends a line of `form` and the numbers, each number after a blank. Fails only when out of memory.
pub fn put_form(
    alloc: Global,
    out: &mut Vec<u8>,
    form: &[u8],
    numbers: &[usize],
) -> Result<(), NoMemory>
    ensures { OnOk result (out.new.items ≡ out.old.items ++ with_feed (form.now ++ after_blanks (map decimal numbers.now))) }
{
    out.extend_from_slice(form)?;
    put_numbers(alloc, out, numbers)?;
    out.push(b'\n')?;
    Ok(())
}
