//! Appending to a text. Each function fails only when out of memory; a part may then be written.
ghost use Rattle.std.specs.Prelude.{◌≡◌, ◌++◌, OnOk};
ghost use Rattle.std.specs.Fmt.{decimal};

use kat_model::NoMemory;
use std::alloc::Global;

/// Appends bytes.
pub fn put(out: &mut Vec<u8>, text: &[u8]) -> Result<(), NoMemory>
    ensures { OnOk result (out.new.items ≡ out.old.items ++ text.now) }
{
    Ok(out.extend_from_slice(text)?)
}

/// Appends a number in decimal.
pub fn put_number(alloc: Global, out: &mut Vec<u8>, number: u64) -> Result<(), NoMemory>
    ensures { OnOk result (out.new.items ≡ out.old.items ++ decimal number) }
{
    put(out, format!(in alloc; "{number}")?.as_bytes())
}

/// Appends a word.
pub fn put_word(out: &mut Vec<u8>, word: &str) -> Result<(), NoMemory>
    ensures { OnOk result (out.new.items ≡ out.old.items ++ word.now) }
{
    put(out, word.as_bytes())
}

/// Appends a word, and a number in decimal directly after it.
pub fn put_numbered(
    alloc: Global,
    out: &mut Vec<u8>,
    word: &str,
    number: usize,
) -> Result<(), NoMemory>
    ensures { OnOk result (out.new.items ≡ out.old.items ++ (word.now ++ decimal number)) }
{
    put_word(out, word)?;
    put_number(alloc, out, number as u64)
}
