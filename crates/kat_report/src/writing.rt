//! Lines of words and a number.
ghost use Rattle.std.specs.Prelude.{◌≡◌, ◌++◌, ◌∷◌, [], IfOk};
ghost use Rattle.std.specs.Fmt.{decimal};

use kat_model::NoMemory;
use std::alloc::Global;
use text_print::{put, put_number};

/// Returns the line of words and a number in decimal. Fails only when out of memory.
pub fn numbered_line(alloc: Global, words: &[u8], number: u64) -> Result<Vec<u8>, NoMemory>
    ensures { IfOk result (λ line. line.items ≡ words.now ++ decimal number ++ 10 ∷ []) }
{
    let mut line = words.to_vec(alloc)?;
    put_number(alloc, &mut line, number)?;
    put(&mut line, b"\n")?;
    Ok(line)
}
