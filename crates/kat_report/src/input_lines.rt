//! The lines about words that do not fit, and about files that cannot be read or are too long.
ghost use Rattle.std.specs.Prelude.{◌≡◌, IfOk};
ghost use Rattle.kat_report.specs.InputLines.{unread_line, too_long_line, words_line};

use kat_model::NoMemory;
use std::alloc::Global;

/// Returns the line `cannot read FILE` with the name of the file. Fails only when out of memory.
pub fn unread_line(alloc: Global, file: &str) -> Result<Vec<u8>, NoMemory>
    ensures { IfOk result (λ v. v.items ≡ unread_line file.now) }
{
    let mut output = b"cannot read ".to_vec(alloc)?;
    output.extend_from_slice(file.as_bytes())?;
    output.push(b'\n')?;
    Ok(output)
}

/// Returns the line for a problem file with more bytes than the limit, `refused: TooLong`.
pub fn too_long_line() -> &'static [u8]
    ensures { result.now ≡ too_long_line }
{
    b"refused: TooLong\n"
}

/// Returns the line for words that have no command or do not fit a file, `refused: words`.
pub fn words_line() -> &'static [u8]
    ensures { result.now ≡ words_line }
{
    b"refused: words\n"
}
